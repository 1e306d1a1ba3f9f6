// The lengths of what is lent.
ghost use Rattle.std.specs.Prelude.{◌≡◌};
ghost use Rattle.memory.specs.Memory.{exact};

use crate::{MEMORY, TABLE};

// Whether memory and table are of their exact lengths.
pub fn are_exact(memory: &[u8], table: &[u8]) -> bool
    ensures { result ≡ exact memory.now table.now }
{
    memory.len() == MEMORY && table.len() == TABLE
}
