// The writer: a program that is held is written as a file of version 2.
//
// A first pass measures the program and judges every field of it; a second one writes it where it fits.
// So a refusal changes no byte, and what is written is read back as exactly that program.
#![tactic(auto)]

ghost use Rattle.std.specs.Prelude.{◌≡◌};
ghost use Rattle.files.specs.Held.{written_in, room_with};

use files::Loaded;
pub use files::WriteError;
use measuring::file_length;
use writing::put_file;

mod measuring; // measuring.rt: how long a program is, and whether a file can say it
mod writing; // writing.rt: its bytes

// Writes what is held as a file of version 2 into a room, where it is a program and fits.
#[tactic(auto, using(crate::proofs::Putting::puts), unfolding(files::specs::Held::written_in, files::specs::Held::room_with, files::specs::Held::writable))]
pub fn write_program(p: &Loaded, room: &mut [u8]) -> Result<usize, WriteError>
    ensures answer { result ≡ written_in room.old p.now }
    ensures room { room.new ≡ room_with room.old p.now }
{
    let Loaded { objects, code, .. } = p;
    let no_program = WriteError::NoProgram;
    let objects = objects.list.get(..objects.count).ok_or(no_program)?;
    let code = code.list.get(..code.count).ok_or(no_program)?;
    let total = file_length(objects, code).ok_or(no_program)?;
    if room.len() < total {
        return Err(WriteError::TooSmall);
    }
    Ok(put_file(room, objects, code))
}
