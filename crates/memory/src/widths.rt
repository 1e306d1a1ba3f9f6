// How many bytes a load, a store or a check covers: one or four. What is read and written stands at the front of a
// part of memory, low byte first.
#![tactic(auto, unfolding(crate::specs::Memory::number_at, crate::specs::Memory::put, crate::specs::Memory::bytes_of))]

ghost use Rattle.std.specs.Prelude.{◌≡◌, ℕ, ◌≤◌};
ghost use Rattle.std.proofs.Common.{lit≤};
ghost use Rattle.memory.specs.Lent.{loaded, stored};

pub trait Width {
    ghost bytes: { ℕ };

    fn bytes() -> usize
        ensures { result ≡ bytes };

    // The number at the front of a part; none where the part is too short.
    fn read(part: &[u8]) -> Option<u32>
        ensures { result ≡ loaded bytes part.now 0 };

    // The low bytes of a number are put at the front of a part; a part that is too short is left as it is.
    fn write(part: &mut [u8], value: u32)
        ensures { part.new ≡ stored bytes part.old 0 value };

    // One byte to four: they touch at most two slots.
    ghost few: { (1 ≤ bytes) × (bytes ≤ 4) };
}

// LOAD8, CHECK8 and the stores of one byte.
#[derive(Clone, Copy)]
pub struct One;

// LOAD32, CHECK32 and the stores of four bytes.
#[derive(Clone, Copy)]
pub struct Four;

impl Width for One {
    ghost bytes = { 1 };

    ghost few = { (lit≤ tt, lit≤ tt) };

    fn bytes() -> usize {
        1
    }

    fn read(part: &[u8]) -> Option<u32> {
        Some(u32::from(*part.first()?))
    }

    fn write(part: &mut [u8], value: u32) {
        if let [byte, ..] = part {
            *byte = (value % 256) as u8;
        }
    }
}

// Written flat, so that the compiler makes one access of the four.
impl Width for Four {
    ghost bytes = { 4 };

    ghost few = { (lit≤ tt, lit≤ tt) };

    fn bytes() -> usize {
        4
    }

    fn read(part: &[u8]) -> Option<u32> {
        match part {
            [first, second, third, fourth, ..] => {
                Some(u32::from_le_bytes([*first, *second, *third, *fourth]))
            }
            _ => None,
        }
    }

    fn write(part: &mut [u8], value: u32) {
        if 4 <= part.len() {
            let bytes = value.to_le_bytes();
            part[0] = bytes[0];
            part[1] = bytes[1];
            part[2] = bytes[2];
            part[3] = bytes[3];
        }
    }
}
