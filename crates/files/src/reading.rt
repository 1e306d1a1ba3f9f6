// Reading a whole file: its parts from left to right.
ghost use Rattle.std.specs.Prelude.{◌≡◌};
ghost use Rattle.files.specs.Program.{longest};
ghost use Rattle.files.specs.Reading.{read_file};
ghost use Rattle.files.specs.Held.{held};

use super::lines::code_of;
use super::objects::objects_of;
use super::sets::sets_of;
use super::{Code, Loaded, Sets};
use numbers::refusal::{Cause, Refusal};
use opcodes::Instr;

// The longest file of a version.
fn longest_file(version: u8) -> usize
    ensures { result ≡ longest version }
{
    if version == 1 { 16384 } else { 32768 }
}

// A file of a version: its parts from left to right, and nothing behind them.
pub(crate) fn read_file(file: &[u8], version: u8) -> Result<Loaded, Refusal>
    ensures { result ≡ held (read_file version file.now) }
{
    if longest_file(version) < file.len() {
        return Err(Refusal {
            cause: Cause::TooLong,
            place: 0,
        });
    }
    let (objects, past_objects) = objects_of(file, version)?;
    let count = objects.count;
    // Sets and code are read into what is handed back: each is held once (docs/DECISIONS.md, D-61).
    let mut held = Loaded {
        objects,
        sets: Sets {
            count: 0,
            ends: [0; 400],
            members: [0; 16384],
        },
        code: Code {
            count: 0,
            list: [Instr::End; 2000],
        },
    };
    let parts = &mut held;
    let past_sets = sets_of(file, past_objects, version, count, &mut parts.sets)?;
    let sets = parts.sets.count;
    let named = &parts.objects.list[..count];
    let next = code_of(file, past_sets, named, version, sets, &mut parts.code)?;
    if next.at != file.len() {
        return Err(Refusal {
            cause: Cause::Surplus,
            place: next.at,
        });
    }
    Ok(held)
}
