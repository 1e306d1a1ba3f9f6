// ALLOC: a walk over all headers that remembers the first fit, then the block is cut and handed out.
ghost use Rattle.std.specs.Prelude.{◌≡◌, ◌+◌, ◌≤◌, length};
ghost use Rattle.memory.specs.Memory.{memory_size, table_size, paint};
ghost use Rattle.heap.specs.Heap.{Made, end_slot, block_at, walk, hand_out, take_block, paint_made};
ghost use Rattle.heap.specs.Lent.{allocated};
ghost use Rattle.heap.specs.Search.{first_of, fit_in, Fitting};

use crate::headers::{is_sound, mark_at, put_header, size_at};
use crate::{END, HEAP, HeapError, MEMORY, TABLE};
use memory::bytes::fill;
use memory::colors::paint;
use opcodes::extent::extent_of;

// The first fit so far: what was found before, else this block where it is free and holds the size.
fn first_of(found: usize, want: usize, header: usize, size: usize, mark: u32) -> usize
    ensures { result ≡ first_of found want (record { header = header; size = size; mark = mark }) }
{
    if found == 0 && mark == 0 && want <= size {
        header
    } else {
        found
    }
}

// All headers up to the end slot are walked; an unsound one stops it. The answer is the header of the first
// free block that holds the size, 0 where there is none: an Option there costs the run loop a register (D-52).
fn first_fit(memory: &[u8], want: usize) -> Result<usize, HeapError>
    requires { length memory.now ≡ memory_size }
    ensures { result ≡ fit_in 0 want (walk memory.now) }
{
    let mut found = 0;
    let mut at = HEAP;
    while at < END {
        let size = size_at(memory, at) as usize;
        if !is_sound(at, size) {
            return Err(HeapError::Unsound);
        }
        let mark = mark_at(memory, at);
        found = first_of(found, want, at, size, mark);
        at = at + 8 + size;
    }
    Ok(found)
}

// A header and a body of this size: the body's part of memory is set to zero, and its slots' part of
// the table takes the color.
#[tactic(auto, using(memory::proofs::Parts::part_filled))]
fn hand_out(
    memory: &mut [u8],
    table: &mut [u8],
    header: usize,
    size: usize,
    mark: u32,
    color: u8,
) -> u32
    requires memory_len { (length memory.old ≡ memory_size) × (length table.old ≡ table_size) }
    requires size_bound { header + 8 + size ≤ end_slot }
    ensures value { result ≡ header + 8 }
    ensures memory_after { memory.new ≡ hand_out memory.old header size mark }
    ensures table_after { table.new ≡ paint table.old (header + 8) size color }
{
    let body = header + 8;
    let end = body + size;
    put_header(memory, header, size as u32, mark);
    fill(&mut memory[body..end], 0);
    let first = body >> 3;
    let last = first + (size >> 3);
    fill(&mut table[first..last], color);
    body as u32
}

// A free block that holds the size is taken: cut if at least 16 bytes would remain, else whole.
#[tactic(auto, using(memory::proofs::Exact::painted_exact), unfolding(crate::specs::Heap::take_block, crate::specs::Heap::block_at))]
fn take_block(
    memory: &mut [u8],
    table: &mut [u8],
    header: usize,
    want: usize,
    mark: u32,
    color: u8,
) -> u32
    requires { Fitting memory.old table.old header want }
    ensures value { result ≡ (take_block memory.old (block_at memory.old header) want mark).body }
    ensures memory_after { memory.new ≡ (take_block memory.old (block_at memory.old header) want mark).memory }
    ensures table_after { table.new ≡ paint_made table.old color (take_block memory.old (block_at memory.old header) want mark) }
{
    let size = size_at(memory, header) as usize;
    if size < want + 16 {
        return hand_out(memory, table, header, size, mark, color);
    }
    let rest = header + 8 + want;
    let left = size - want - 8;
    put_header(memory, rest, left as u32, 0);
    paint(table, rest as u32, 8, 1);
    hand_out(memory, table, header, want, mark, color)
}

// ALLOC: so many bytes for a heap site, whose color is handed in. The answer is the body's address, none where
// the size is 0 or above 4,096, or no free body holds it.
#[tactic(auto, using(crate::proofs::Fits::alloc_answers))]
pub fn alloc(
    memory: &mut [u8],
    table: &mut [u8],
    size: u32,
    site: u16,
    color: u8,
) -> Result<Option<u32>, HeapError>
    ensures value { result ≡ (allocated memory.old table.old size site color).answer }
    ensures memory_after { memory.new ≡ (allocated memory.old table.old size site color).memory }
    ensures table_after { table.new ≡ (allocated memory.old table.old size site color).table }
{
    if memory.len() != MEMORY || table.len() != TABLE {
        return Err(HeapError::WrongLength);
    }
    if size == 0 || 4096 < size {
        return Ok(None);
    }
    let want = extent_of(size);
    let header = first_fit(memory, want)?;
    if header == 0 {
        return Ok(None);
    }
    let mark = site as u32 + 1;
    Ok(Some(take_block(memory, table, header, want, mark, color)))
}
