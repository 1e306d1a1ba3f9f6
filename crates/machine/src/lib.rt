// The machine: runs any version 2 file on lent memory, table and output room.
#![tactic(auto)]

ghost use Rattle.std.specs.Prelude.{◌≡◌};
ghost use Rattle.machine.specs.Running.{run_file, answered, lent_of};

use memory::lengths::are_exact;
use numbers::refusal::{Cause, Refusal};
use running::run_code;
use stops::{Run, refused};

mod lent; // lent.rt: memory, table and heap
mod moves; // moves.rt: input and output
mod progress; // progress.rt: how far a run has come
mod running; // running.rt: the run loop
mod step; // step.rt: one turn
mod temps; // temps.rt: temporaries

// Runs a file of version 2 on lent memory and table, with numbers from `input` and to `room`, for at most
// `limit` steps. Nothing is asked of the caller, and nothing that a file can say does more than stop.
#[tactic(auto, using(crate::proofs::Loading::few_objects, crate::proofs::Loading::few_instrs), unfolding(crate::specs::Running::run_file))]
pub fn run_file(
    file: &[u8],
    input: &[u32],
    memory: &mut [u8],
    table: &mut [u8],
    room: &mut [u32],
    limit: u32,
) -> Run
    ensures { answered result (lent_of memory.new table.new room.new) ≡ run_file file.now input.now limit (lent_of memory.old table.old room.old) }
{
    if !are_exact(memory, table) {
        return refused(Refusal {
            cause: Cause::WrongLength,
            place: 0,
        });
    }
    let read = files::read_program(file);
    let held = match &read {
        Ok(held) => held,
        Err(why) => return refused(*why),
    };
    // Refusal 9 comes before anything is changed.
    let laid = start::lay(&held.objects, memory, table);
    if !laid.fits {
        return refused(Refusal {
            cause: Cause::LargeGlobals,
            place: 0,
        });
    }
    let code = &held.code.list[..held.code.count];
    let objects = &held.objects.list[..held.objects.count];
    run_code(
        code,
        &laid.starts,
        objects,
        input,
        limit,
        memory,
        table,
        room,
    )
}
