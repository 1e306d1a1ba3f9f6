// Instrumenting: version 2 of a routine. The same instructions in order, each unsafe one directly
// preceded by its check with its class's color; a jump goes to the check where there is one.
#![tactic(auto)]

mod passes; // passes.rt: where the instructions go, and the code of version 2

ghost use Rattle.std.specs.Prelude.{◌≡◌, length};
ghost use Rattle.instrumenter.specs.Answer.{instrument, told, room_holding};

use coloring::read_colored;
use layout::lay_out;
use numbers::refusal::{Cause, Refusal};
use passes::version_2;
use writer::write_program;

// Version 2 of the routine in a file of version 1, written to the front of a room, and its length; or why there is
// none, and then no byte of the room was changed.
#[tactic(auto, using(crate::proofs::Told::stays, crate::proofs::Told::small, crate::proofs::Told::too_high, crate::proofs::Told::told_so, crate::proofs::Told::room_left))]
pub fn instrument(file: &[u8], room: &mut [u8]) -> Result<usize, Refusal>
    ensures answer { result ≡ told (instrument file.now (length room.old)) }
    ensures room { room.new ≡ room_holding room.old (instrument file.now (length room.old)) }
{
    // What was read is changed where it is held (docs/DECISIONS.md, D-61).
    let mut read = read_colored(file);
    let routine = match &mut read {
        Ok(routine) => routine,
        Err(why) => return Err(*why),
    };
    let laid = lay_out(&routine.objects);
    if 28672 < laid.end {
        return Err(Refusal {
            cause: Cause::LargeGlobals,
            place: 0,
        });
    }
    routine.code = version_2(routine);
    // Version 2 is always a program: only the room can be too small.
    write_program(routine, room).or(Err(Refusal {
        cause: Cause::SmallRoom,
        place: 0,
    }))
}
