// The record of a stop: a place counts the instructions before it that are not checks.
ghost use Rattle.std.specs.Prelude.{◌≡◌, ◌==◌};
ghost use Rattle.opcodes.specs.View.{view};
ghost use Rattle.stops.specs.Stop.{counts, places_in, place_in, record_of};

use super::{Reason, Run};
use opcodes::Instr;

// Whether an instruction is a check, which no place counts.
fn is_check(i: Instr) -> bool
    ensures { result ≡ (counts (view i) == 0) }
{
    matches!(
        i,
        Instr::Check8(_, _)
            | Instr::Check32(_, _)
            | Instr::CheckPut8(_, _, _)
            | Instr::CheckPut32(_, _, _)
    )
}

// How many instructions are no checks.
#[tactic(auto, using(crate::proofs::Places::places_counted))]
fn places_in(code: &[Instr]) -> usize
    ensures { result ≡ places_in code.now }
{
    code.iter().filter(|i| !is_check(**i)).count()
}

// The place of the instruction `at`: counted once, at the stop.
pub fn place_of(code: &[Instr], at: usize) -> usize
    ensures { result ≡ place_in code.now at }
{
    places_in(&code[..at.min(code.len())])
}

// The record of a stop before the instruction `at`.
pub fn recorded(
    code: &[Instr],
    at: usize,
    steps: u32,
    out: usize,
    taken: usize,
    reason: Reason,
) -> Run
    ensures { result ≡ record_of code.now at steps out taken reason }
{
    Run {
        reason,
        place: place_of(code, at),
        steps,
        out,
        taken,
    }
}
