// Headers of blocks, and the heap as it is at the start.
ghost use Rattle.std.specs.Prelude.{◌≡◌, ◌+◌, ◌≤◌, ◌%◌, ◌<◌, length};
ghost use Rattle.memory.specs.Memory.{memory_size, number_at};
ghost use Rattle.heap.specs.Heap.{end_slot, sound, put_header};
ghost use Rattle.heap.specs.Lent.{started};

use crate::{END, HEAP, MEMORY};
use memory::bytes::{fill, number_at, store};
use memory::widths::Four;

// The size of the body behind a header.
pub(crate) fn size_at(memory: &[u8], header: usize) -> u32
    requires { (length memory.now ≡ memory_size) × (header ≤ end_slot) }
    ensures { result ≡ number_at 4 memory.now header }
{
    number_at(memory, header as u32)
}

// The mark of a header.
pub(crate) fn mark_at(memory: &[u8], header: usize) -> u32
    requires { (length memory.now ≡ memory_size) × (header ≤ end_slot) }
    ensures { result ≡ number_at 4 memory.now (header + 4) }
{
    number_at(memory, header as u32 + 4)
}

// A header of a body's size and a mark.
#[tactic(auto, using(memory::proofs::Exact::stored_inside), unfolding(crate::specs::Heap::put_header))]
pub(crate) fn put_header(memory: &mut [u8], header: usize, size: u32, mark: u32)
    requires { (length memory.old ≡ memory_size) × (header ≤ end_slot) }
    ensures { memory.new ≡ put_header memory.old header size mark }
{
    store::<Four>(memory, header as u32, size);
    store::<Four>(memory, header as u32 + 4, mark);
}

// Whether a header with this size is sound: the size is a multiple of 8, at least 8, and the next
// header is at or below the end slot. The mark plays no part.
#[tactic(auto, unfolding(crate::specs::Heap::sound))]
pub(crate) fn is_sound(header: usize, size: usize) -> bool
    requires { header + 8 + size < 18446744073709551616 }
    ensures { result ≡ sound (record { header = header; size = size; mark = 0 }) }
{
    size % 8 == 0 && 8 <= size && header + 8 + size <= END
}

// Memory at the start: all zero, with one free body from the heap's first header to the end slot.
#[tactic(auto, unfolding(crate::specs::Lent::started, crate::specs::Heap::empty_heap))]
pub fn start(memory: &mut [u8])
    ensures { memory.new ≡ started memory.old }
{
    if memory.len() == MEMORY {
        fill(memory, 0);
        put_header(memory, HEAP, 28656, 0);
    }
}
