// Why a run stopped, or why there was none; its record, and the five numbers that come back.
#![tactic(auto)]

ghost use Rattle.std.specs.Prelude.{◌≡◌, Some};
ghost use Rattle.stops.specs.Stop.{number_of, place_for, refused_run, five_of, line_of};

use numbers::refusal::Refusal;
use std::fmt;

pub mod place; // place.rt: the place of a stop, and its record

// Why a run stopped, or why there was none.
#[derive(Clone, Copy)]
pub enum Reason {
    Finished,
    PastEnd,
    LimitUsed,
    NoInput,
    NoRoom,
    ReadOutside,
    StoreOutside,
    Forbidden,
    BadFree,
    Unsound,
    Refused(Refusal),
}

// A run's record: why and where it stopped, how many instructions were completed, how many numbers
// were put out, and how many were taken.
#[derive(Clone, Copy)]
pub struct Run {
    pub reason: Reason,
    pub place: usize,
    pub steps: u32,
    pub out: usize,
    pub taken: usize,
}

// The record of a refusal: zeros in its other fields.
pub fn refused(why: Refusal) -> Run
    ensures { result ≡ refused_run why }
{
    Run {
        reason: Reason::Refused(why),
        place: 0,
        steps: 0,
        out: 0,
        taken: 0,
    }
}

impl Reason {
    // The number of each reason, as 01 lists them.
    fn number(self) -> u8
        ensures { result ≡ number_of self }
    {
        match self {
            Reason::Finished => 0,
            Reason::PastEnd => 30,
            Reason::LimitUsed => 31,
            Reason::NoInput => 32,
            Reason::NoRoom => 33,
            Reason::ReadOutside => 34,
            Reason::StoreOutside => 35,
            Reason::Forbidden => 36,
            Reason::BadFree => 37,
            Reason::Unsound => 38,
            Reason::Refused(why) => why.cause.number(),
        }
    }

    // The place that goes with a reason: a refusal has its own.
    fn place_for(self, place: usize) -> usize
        ensures { result ≡ place_for self place }
    {
        match self {
            Reason::Refused(why) => why.place,
            _ => place,
        }
    }
}

// A record as the five numbers that come back.
pub fn numbers_of(run: Run) -> [u64; 5]
    ensures { result ≡ five_of run }
{
    let number = run.reason.number();
    let place = run.reason.place_for(run.place);
    [
        number as u64,
        place as u64,
        run.steps as u64,
        run.out as u64,
        run.taken as u64,
    ]
}

// A run's line: its five numbers with single blanks; of a refusal its number and place.
impl fmt::Display for Run {
    ghost output = { λ run. Some (line_of run) };

    fn fmt<W: fmt::Write>(&self, f: &mut fmt::Formatter<W>) -> fmt::Result {
        let [number, place, steps, out, taken] = numbers_of(*self);
        match self.reason {
            Reason::Refused(_) => write!(f, "{number} {place}"),
            _ => write!(f, "{number} {place} {steps} {out} {taken}"),
        }
    }
}
