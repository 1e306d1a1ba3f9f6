// The controller's one entry point: a routine that nobody has read goes in, is instrumented and run, and
// what comes out is what the plain rule says.
#![tactic(auto)]

ghost use Rattle.std.specs.Prelude.{◌≡◌, length};
ghost use Rattle.stops.specs.Stop.{five_of};
ghost use Rattle.controller.specs.Control.{control};
ghost use Rattle.machine.specs.Running.{lent_of, answered};

use instrumenter::instrument;
use machine::run_file;
use memory::lengths::are_exact;
use numbers::refusal::{Cause, Refusal};
use stops::{Run, numbers_of, refused};

// Instruments a routine and runs it, where memory and table have their exact lengths.
fn instrument_and_run(
    file: &[u8],
    input: &[u32],
    memory: &mut [u8],
    table: &mut [u8],
    room: &mut [u32],
    limit: u32,
) -> Run
    requires { (length memory.old ≡ 57344) × (length table.old ≡ 7168) }
    ensures { answered result (lent_of memory.new table.new room.new) ≡ control file.now input.now limit (lent_of memory.old table.old room.old) }
{
    // Room for any instrumented file.
    let mut code = [0; 32768];
    match instrument(file, &mut code) {
        Ok(length) => run_file(&code[..length], input, memory, table, room, limit),
        Err(why) => refused(why),
    }
}

// Takes a routine that nobody has read, on lent memory, table and room for numbers out. The record, the
// numbers out and all of memory are those of the plain rule; a refusal changes no lent byte.
pub fn control(
    file: &[u8],
    input: &[u32],
    memory: &mut [u8],
    table: &mut [u8],
    room: &mut [u32],
    limit: u32,
) -> Run
    ensures { answered result (lent_of memory.new table.new room.new) ≡ control file.now input.now limit (lent_of memory.old table.old room.old) }
{
    if !are_exact(memory, table) {
        return refused(Refusal {
            cause: Cause::WrongLength,
            place: 0,
        });
    }
    instrument_and_run(file, input, memory, table, room, limit)
}

// The same for a host in C or Rust, as the library controller_c hands it on: the five numbers go to `numbers`.
pub fn toltjebrim_control(
    file: &[u8],
    input: &[u32],
    memory: &mut [u8],
    table: &mut [u8],
    room: &mut [u32],
    limit: u32,
    numbers: &mut [u64; 5],
)
    ensures numbers { numbers.new ≡ five_of (control file.now input.now limit (lent_of memory.old table.old room.old)).run }
    ensures lent { lent_of memory.new table.new room.new ≡ (control file.now input.now limit (lent_of memory.old table.old room.old)).lent }
{
    let run = control(file, input, memory, table, room, limit);
    *numbers = numbers_of(run);
}
