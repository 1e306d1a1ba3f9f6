// A reader: a file's bytes and the place of the next number, held together.
//
// Each method takes it apart and leaves the work to a function on the bytes and the place; `read_at`, which every
// reader of files calls, has plain parameters. Nothing here asks anything of its caller.
#![tactic(auto)]

ghost use Rattle.std.specs.Prelude.{◌≡◌};
ghost use Rattle.numbers.specs.Number.{read_number};

use numbers::{Cursor, Read, read_number};

#[derive(Clone, Copy)]
pub struct Reader<'a> {
    pub file: &'a [u8],
    // Any place, also one past the file's end: there is then nothing left, and a number read is refused.
    pub at: usize,
}

impl<'a> Reader<'a> {
    // A reader at the start of a file.
    pub fn open(file: &'a [u8]) -> Self
        ensures { (result.file ≡ file.entry) × (result.at ≡ 0) }
    {
        Reader { file, at: 0 }
    }

    // The reader behind what was read: where the cursor that came with it stands.
    pub fn after(self, read: Cursor) -> Self
        ensures { (result.file ≡ self.entry.file) × (result.at ≡ read.at) }
    {
        Reader {
            at: read.at,
            ..self
        }
    }

    // The next number; `after` gives the reader behind it.
    pub fn number(self) -> Read
        ensures { result ≡ read_number self.entry.file.now self.entry.at }
    {
        read_number(self.file, Cursor { at: self.at })
    }
}

// The number at a cursor of a file, read through a reader. It promises what `numbers::read_number` does, to
// callers that hold no reader.
pub fn read_at(file: &[u8], from: Cursor) -> Read
    ensures { result ≡ read_number file.now from.at }
{
    Reader::open(file).after(from).number()
}
