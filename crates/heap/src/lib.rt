// The heap: its headers, ALLOC and FREE.
//
// Memory (57,344 bytes) and table (7,168 bytes) are lent to each function. None of them asks that a
// lent part has its exact length: of another length it is left as it is, which is what they answer.
#![tactic(auto)]

pub mod freeing;
pub mod headers;
pub mod making;

// The length of memory and of the table.
const MEMORY: usize = 57344;

const TABLE: usize = 7168;

// The first header, and the end slot.
const HEAP: usize = 28672;

const END: usize = 57336;

// Why ALLOC or FREE is refused.
#[derive(Clone, Copy)]
pub enum HeapError {
    // Memory or table is not of its exact length.
    WrongLength,
    // A header is unsound.
    Unsound,
    // FREE: the address is not the body of a live block.
    BadAddress,
}
