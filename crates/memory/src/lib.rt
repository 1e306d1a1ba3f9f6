// Memory and the color table: loads and stores, checks, painting.
//
// Memory (57,344 bytes) and table (7,168 bytes) are lent to each function. None asks that a lent part has
// its exact length: what lies outside is not read and not written.
#![tactic(auto)]

pub mod bytes;
pub mod colors;
pub mod lengths;
pub mod widths;

// The length of memory and of the table.
const MEMORY: usize = 57344;

const TABLE: usize = 7168;
