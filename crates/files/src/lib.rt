// Files: routines (version 1) and instrumented code (version 2), read from bytes.
//
// A file is numbers and nothing else. Reading gives the whole of what the file says, or the first
// refusal from left to right. The crate `writer` writes files of version 2; what it promises is said
// here, so that both directions go by one definition of a file.
#![tactic(auto)]

ghost use Rattle.std.specs.Prelude.{◌≡◌};
ghost use Rattle.files.specs.Reading.{read_file};
ghost use Rattle.files.specs.Held.{held};

pub use arrays::{Code, Loaded, Objects, Sets};
use numbers::refusal::Refusal;

mod arrays; // arrays.rt: a file as it is held
mod fields; // fields.rt: numbers in their ranges
mod lines; // lines.rt: the instructions of a file
mod objects; // objects.rt: the objects of a file
mod reading; // reading.rt: whole files
mod sets; // sets.rt: the sets of a file

// Why a held program is not written (the crate `writer`); no byte of the room was changed.
#[derive(Clone, Copy)]
pub enum WriteError {
    // The room is too small.
    TooSmall,
    // No file says what is held.
    NoProgram,
}

// Reads bytes as a file of version 1. This and the next are two names for one function: a const parameter in their place
// would say less at each call.
pub fn read_routine(file: &[u8]) -> Result<Loaded, Refusal>
    ensures { result ≡ held (read_file 1 file.now) }
{
    reading::read_file(file, 1)
}

// Reads bytes as a file of version 2.
pub fn read_program(file: &[u8]) -> Result<Loaded, Refusal>
    ensures { result ≡ held (read_file 2 file.now) }
{
    reading::read_file(file, 2)
}
