// How far a run has come, and how it goes on.
ghost use Rattle.std.specs.Prelude.{◌≡◌, ◌≤◌, Ok};
ghost use Rattle.machine.specs.Turn.{Counts, ahead, onward, passed, to_place};

use stops::Reason;

// The counts of numbers taken and out, the next instruction, and the steps. What changes least stands first: in a
// turn's answer a reason to stop shares the bytes of the first field, and the number there is put together from
// its bytes in each turn.
#[derive(Clone, Copy)]
pub(crate) struct Progress {
    pub taken: usize,
    pub out: usize,
    pub at: usize,
    pub steps: u32,
}

// What a turn answers. How a run goes on is answered as a turn's whole answer, with each field written down: where
// a progress is wrapped later, the compiler keeps place and steps in one register, and each turn takes them apart
// and puts them together again.
pub(crate) type Turn = Result<Progress, Reason>;

impl Progress {
    // On to the next instruction, at a cost of a step or of none. The cost is counted first: what is left is
    // the same for a check and for an instruction that is completed, and is compiled once for both.
    fn go_on(self, cost: u32) -> Turn
        requires { (Counts self) × (cost ≤ 1) }
        ensures { result ≡ Ok (ahead self cost) }
    {
        Ok(Progress {
            steps: self.steps + cost,
            at: self.at + 1,
            out: self.out,
            taken: self.taken,
        })
    }

    // An instruction is completed, and the next one follows.
    pub(crate) fn completed(self) -> Turn
        requires { Counts self }
        ensures { result ≡ Ok (onward self) }
    {
        self.go_on(1)
    }

    // A check has passed, and costs no step.
    pub(crate) fn passed(self) -> Turn
        requires { Counts self }
        ensures { result ≡ Ok (passed self) }
    {
        self.go_on(0)
    }

    // A jump to instruction p.
    pub(crate) fn jumped(self, p: u16) -> Turn
        requires { Counts self }
        ensures { result ≡ Ok (to_place self p) }
    {
        Ok(Progress {
            at: p as usize,
            steps: self.steps + 1,
            out: self.out,
            taken: self.taken,
        })
    }
}
