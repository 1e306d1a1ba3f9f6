// The controller's entry point under the name by which a host in C or Rust links it (host/toltjebrim.h). The
// function itself, and its proof, stand in the library controller.
#![tactic(auto)]

ghost use Rattle.std.specs.Prelude.{◌≡◌};
ghost use Rattle.stops.specs.Stop.{five_of};
ghost use Rattle.controller.specs.Control.{control};
ghost use Rattle.machine.specs.Running.{lent_of};

// Instruments a routine that nobody has read and runs it on lent memory, table and room for numbers out. The
// five numbers go to `numbers`.
#[unsafe(no_mangle)]
pub extern "C" fn toltjebrim_control(
    file: &[u8],
    input: &[u32],
    memory: &mut [u8],
    table: &mut [u8],
    room: &mut [u32],
    limit: u32,
    numbers: &mut [u64; 5],
)
    ensures numbers { numbers.new ≡ five_of (control file.now input.now limit (lent_of memory.old table.old room.old)).run }
    ensures lent { lent_of memory.new table.new room.new ≡ (control file.now input.now limit (lent_of memory.old table.old room.old)).lent }
{
    controller::toltjebrim_control(file, input, memory, table, room, limit, numbers);
}
