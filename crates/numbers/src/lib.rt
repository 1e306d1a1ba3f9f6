// The numbers that a file is made of: 0 to 4,294,967,295 in groups of seven bits, low group first.
//
// A read answers the value with the next cursor, or a refusal with its number and place; what is
// written is the one shortest spelling. Nothing here asks anything of its caller.
#![tactic(auto)]

ghost use Rattle.std.specs.Prelude.{◌≡◌, ◌+◌, ◌/◌, ◌%◌, ◌<◌, Err};
ghost use Rattle.numbers.specs.Number.{read_number, width, written_at, room_after};

use refusal::{Cause, Refusal};

pub mod refusal; // refusal.rt: why a file is not taken

// Where the next number of a file starts.
#[derive(Clone, Copy)]
pub struct Cursor {
    pub at: usize,
}

// What reading one number answers: the value with the cursor behind it, or a refusal.
pub type Read = Result<(u32, Cursor), Refusal>;

// A refusal in place of a number.
fn refused(cause: Cause, place: usize) -> Read
    ensures { result ≡ Err (record { cause = cause; place = place }) }
{
    Err(Refusal { cause, place })
}

// The number at a cursor, which may be any: past the end the file ends early. docs/FORMAT.md has the rules of a
// number in the order of these lines.
pub fn read_number(file: &[u8], from: Cursor) -> Read
    ensures { result ≡ read_number file.now from.at }
{
    let first = from.at;
    let mut at = first;
    let mut value = 0u32;
    // At most five groups, the low group first.
    for group in 0..5u32 {
        if file.len() <= at {
            return refused(Cause::EndsEarly, file.len());
        }
        let byte = file[at] as u32;
        at += 1;
        let bits = byte & 127;
        // Four groups are 28 bits: of 32, a fifth has four.
        if group == 4 && 15 < bits {
            return refused(Cause::BadNumber, first);
        }
        value += bits << (7 * group);
        // The top bit says that another follows; without it this group is the last.
        if byte < 128 {
            // Only the shortest form is good: no group of 0 behind others.
            if bits == 0 && 0 < group {
                return refused(Cause::BadNumber, first);
            }
            return Ok((value, Cursor { at }));
        }
    }
    // The fifth byte says that another follows.
    refused(Cause::BadNumber, first)
}

// The low seven bits: one group.
fn low_group(bits: u32) -> u32
    ensures { result ≡ bits % 128 }
{
    bits & 127
}

// What is left above the low group.
fn above_group(bits: u32) -> u32
    ensures { result ≡ bits / 128 }
{
    bits >> 7
}

// The byte of a group that another one follows.
fn followed(group: u32) -> u8
    requires { group < 128 }
    ensures { result ≡ group + 128 }
{
    (group | 128) as u8
}

// How many bytes a number takes.
pub fn number_width(n: u32) -> usize
    ensures { result ≡ width n }
{
    let mut rest = n;
    let mut bytes = 1;
    while 128 <= rest {
        rest = above_group(rest);
        bytes += 1;
    }
    bytes
}

// Writes a number's spelling into a room from a place on, and answers the place behind it; where it does not fit,
// `None`, and no byte is changed.
pub fn write_number(room: &mut [u8], at: usize, n: u32) -> Option<usize>
    ensures answer { result ≡ written_at room.old at n }
    ensures room { room.new ≡ room_after room.old at n }
{
    let bytes = number_width(n);
    if room.len() < at || room.len() - at < bytes {
        return None;
    }
    let last = at + (bytes - 1);
    let mut rest = n;
    for place in at..last {
        room[place] = followed(low_group(rest));
        rest = above_group(rest);
    }
    room[last] = rest as u8;
    Some(last + 1)
}
