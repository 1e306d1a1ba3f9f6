// The color table: lookup by shift, what a check tests, and painting.
ghost use Rattle.std.specs.Prelude.{◌≡◌, ◌+◌, ◌≤◌, length};
ghost use Rattle.memory.specs.Memory.{slot, color_at, has_color, every_byte, paint};
ghost use Rattle.memory.specs.Lent.{painted};

use crate::MEMORY;
use crate::bytes::fill;
use crate::widths::Width;

// The color of an address; a table that is too short has 0 there.
#[tactic(auto, unfolding(crate::specs::Memory::color_at))]
fn color_at(table: &[u8], address: usize) -> u8
    ensures { result ≡ color_at table.now address }
{
    table.get(address >> 3).copied().unwrap_or(0)
}

// CHECK8 and CHECK32: each byte lies in memory, in a slot of the color. Four bytes touch at most two slots,
// so the first and the last byte decide. The last address is counted in 64 bits and cannot wrap.
#[tactic(auto, using(crate::proofs::Slots::check_outside, crate::proofs::Slots::check_first, crate::proofs::Slots::check_last))]
pub fn check<W: Width>(table: &[u8], address: u32, color: u8) -> bool
    ensures { result ≡ every_byte W.bytes (has_color table.now color) address }
{
    let at = address as usize;
    let last = at + W::bytes() - 1;
    let inside = last < MEMORY;
    inside && color_at(table, at) == color && color_at(table, last) == color
}

// The slots of `count` bytes from an address on are lent on to be filled with a color.
#[tactic(auto, using(crate::proofs::Parts::part_filled))]
fn paint_slots(table: &mut [u8], address: usize, count: usize, color: u8)
    requires { slot address + slot count ≤ length table.old }
    ensures { table.new ≡ paint table.old address count color }
{
    let first = address >> 3;
    let end = first + (count >> 3);
    fill(&mut table[first..end], color);
}

// The same for any table: where it does not have all these slots, nothing is changed.
pub fn paint(table: &mut [u8], address: u32, count: u32, color: u8)
    ensures { table.new ≡ painted table.old address count color }
{
    let at = address as usize;
    let n = count as usize;
    if (at >> 3) + (n >> 3) <= table.len() {
        paint_slots(table, at, n, color);
    }
}
