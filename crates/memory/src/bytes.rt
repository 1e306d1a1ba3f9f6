// Bytes of memory: one filling function, and numbers of one or four bytes, low byte first.
ghost use Rattle.std.specs.Prelude.{◌≡◌, length, replicate};
ghost use Rattle.memory.specs.Lent.{within, number_within, loaded, stored};

use crate::widths::{Four, Width};

// A lent part is set to one value: a body's bytes, or the slots of a body.
pub fn fill(part: &mut [u8], value: u8)
    ensures { part.new ≡ replicate (length part.old) value }
{
    part.fill(value);
}

// LOAD8 and LOAD32: none where one of the bytes lies outside. The end is counted in 64 bits, so that it cannot wrap.
#[tactic(auto, using(crate::proofs::Parts::part_loaded))]
pub fn load<W: Width>(memory: &[u8], address: u32) -> Option<u32>
    ensures { result ≡ loaded W.bytes memory.now address }
{
    let at = address as usize;
    W::read(memory.get(at..at + W::bytes())?)
}

// The number in the four bytes from an address on; 0 where one of them lies outside.
pub fn number_at(memory: &[u8], address: u32) -> u32
    ensures { result ≡ number_within 4 memory.now address }
{
    load::<Four>(memory, address).unwrap_or(0)
}

// A store of the low bytes: false, and nothing is changed, where one of them would lie outside.
#[tactic(auto, using(crate::proofs::Parts::part_stored))]
pub fn store<W: Width>(memory: &mut [u8], address: u32, value: u32) -> bool
    ensures value { result ≡ within W.bytes memory.old address }
    ensures memory_after { memory.new ≡ stored W.bytes memory.old address value }
{
    let at = address as usize;
    let end = at + W::bytes();
    if memory.len() < end {
        return false;
    }
    W::write(&mut memory[at..end], value);
    true
}
