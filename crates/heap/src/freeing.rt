// FREE: a walk over all headers that remembers where the joined block would start, then it is joined.
ghost use Rattle.std.specs.Prelude.{◌≡◌, ◌+◌, ◌-◌, ◌≤◌, ◌<◌, ◌^◌, length};
ghost use Rattle.memory.specs.Memory.{memory_size, paint};
ghost use Rattle.heap.specs.Heap.{end_slot, walk, put_header};
ghost use Rattle.heap.specs.Lent.{released};
ghost use Rattle.heap.specs.Search.{spare_of, spare_at, start_of, live_in, whole_of, Joining};

use crate::headers::{is_sound, mark_at, put_header, size_at};
use crate::{END, HEAP, HeapError, MEMORY, TABLE};
use memory::colors::paint;

// What a block adds to a neighbour that joins it: header and body where it is free.
fn spare_of(size: usize, mark: u32) -> usize
    requires { size < 2 ^ 32 }
    ensures { result ≡ spare_of (record { header = 0; size = size; mark = mark }) }
{
    if mark == 0 { 8 + size } else { 0 }
}

// Where the joined block would start: known before, or at this block where it is live and its body
// is at the address; `spare` is what the block before adds.
fn start_of(start: usize, spare: usize, address: usize, header: usize, mark: u32) -> usize
    requires { (spare ≤ header) × (header ≤ end_slot) }
    ensures { result ≡ start_of start spare address (record { header = header; size = 0; mark = mark }) }
{
    if header + 8 == address && mark != 0 {
        header - spare
    } else {
        start
    }
}

// All headers up to the end slot are walked; an unsound one stops it. The answer is where the block that
// is live at the address starts when it is joined with a free one before it, 0 where there is none (D-52).
fn find_live(memory: &[u8], address: usize) -> Result<usize, HeapError>
    requires { length memory.now ≡ memory_size }
    ensures { result ≡ live_in 0 0 address (walk memory.now) }
{
    let mut start = 0;
    let mut spare = 0;
    let mut at = HEAP;
    while at < END {
        let size = size_at(memory, at) as usize;
        if !is_sound(at, size) {
            return Err(HeapError::Unsound);
        }
        let mark = mark_at(memory, at);
        start = start_of(start, spare, address, at, mark);
        spare = spare_of(size, mark);
        at = at + 8 + size;
    }
    Ok(start)
}

// What the block behind adds; the end slot is none.
#[tactic(auto, unfolding(crate::specs::Heap::block_at))]
fn spare_at(memory: &[u8], header: usize) -> usize
    requires { (length memory.now ≡ memory_size) × (header ≤ end_slot) }
    ensures { result ≡ spare_at memory.now header }
{
    if header == END {
        return 0;
    }
    spare_of(size_at(memory, header) as usize, mark_at(memory, header))
}

// The live block at an address becomes part of a free one from `start` on, which takes in a free
// block behind it. All slots of the joined body get color 0.
fn join(memory: &mut [u8], table: &mut [u8], start: usize, address: usize)
    requires { Joining memory.old table.old start address }
    ensures memory_after { memory.new ≡ put_header memory.old start (whole_of memory.old start address) 0 }
    ensures table_after { table.new ≡ paint table.old (start + 8) (whole_of memory.old start address) 0 }
{
    let size = size_at(memory, address - 8) as usize;
    let next = address + size;
    let spare = spare_at(memory, next);
    let whole = (next + spare - start - 8) as u32;
    put_header(memory, start, whole, 0);
    paint(table, start as u32 + 8, whole, 0);
}

// FREE of an address.
#[tactic(auto, using(crate::proofs::Lives::free_answers))]
pub fn free(memory: &mut [u8], table: &mut [u8], address: u32) -> Result<(), HeapError>
    ensures value { result ≡ (released memory.old table.old address).answer }
    ensures memory_after { memory.new ≡ (released memory.old table.old address).memory }
    ensures table_after { table.new ≡ (released memory.old table.old address).table }
{
    if memory.len() != MEMORY || table.len() != TABLE {
        return Err(HeapError::WrongLength);
    }
    let at = address as usize;
    let start = find_live(memory, at)?;
    if start == 0 {
        return Err(HeapError::BadAddress);
    }
    join(memory, table, start, at);
    Ok(())
}
