// A case: its header, and reading it. All words are four bytes, low byte first.
ghost use Rattle.std.specs.Prelude.{◌≡◌, ◌≤◌, IfOk, length};

use crate::lent::within;
use std::io;
use std::io::Read;

#[derive(Clone, Copy)]
pub struct Case {
    // A byte of rust/PROTOCOL.md, which may be any.
    pub kind: u8,
    // What every lent byte holds before the call.
    pub fill: u8,
    // The length of the file and the count of inputs.
    pub file: u32,
    pub inputs: u32,
    // Where a number is read or written.
    pub cursor: u32,
    // Bytes for a file or a number; numbers for the output.
    pub room: u32,
    // The limit of a run; the number to be written.
    pub limit: u32,
    // The lengths of lent memory and table.
    pub memory: u32,
    pub table: u32,
}

// The word with this number; past the end it is 0.
fn word_at(bytes: &[u8], i: usize) -> u32 {
    let (words, _) = bytes.as_chunks::<4>();
    words.get(i).map_or(0, |word| u32::from_le_bytes(*word))
}

// The case of a header, whose first word holds kind and fill.
pub(crate) fn case_in(header: &[u8]) -> Case {
    let [kind, fill, _, _] = word_at(header, 0).to_le_bytes();
    Case {
        kind,
        fill,
        file: word_at(header, 1),
        inputs: word_at(header, 2),
        cursor: word_at(header, 3),
        room: word_at(header, 4),
        limit: word_at(header, 5),
        memory: word_at(header, 6),
        table: word_at(header, 7),
    }
}

// Reads until the buffer is full or the input ends, and returns how many bytes that were. The buffer keeps its
// length. Each program has this function for itself (docs/DECISIONS.md, D-64).
fn read_full(input: &mut impl Read, buffer: &mut [u8]) -> io::Result<usize>
    ensures count { IfOk result (λ n. n ≤ length buffer.new) }
    ensures length { length buffer.new ≡ length buffer.old }
{
    let mut done = 0;
    while done < buffer.len() {
        let n = input.read(&mut buffer[done..])?;
        if n == 0 {
            break;
        }
        done += n;
    }
    Ok(done)
}

// Fills the front of a buffer with so many bytes of the input, or says that the input ended before.
pub(crate) fn read_front(input: &mut impl Read, buffer: &mut [u8], count: u32) -> bool {
    let wanted = within(count, buffer);
    wanted == 0 || read_full(input, &mut buffer[..wanted]).is_ok_and(|n| n == wanted)
}

// Reads so many inputs, of which no case has more than 1,024, or says that the input ended before them.
pub(crate) fn read_inputs(input: &mut impl Read, inputs: u32, numbers: &mut [u32]) -> bool {
    let mut bytes = [0u8; 4096];
    let is_whole = read_front(input, &mut bytes, 4 * inputs.min(1024));
    let (words, _) = bytes.as_chunks::<4>();
    for (number, word) in numbers.iter_mut().zip(words) {
        *number = u32::from_le_bytes(*word);
    }
    is_whole
}
