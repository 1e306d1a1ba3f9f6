// What a version has: opcodes by their groups, and operands.
ghost use Rattle.std.specs.Prelude.{◌≡◌};
ghost use Rattle.opcodes.specs.Ranges.{has_group, present};

use super::{Group, Operand};

// Whether a version has the opcodes of a group: checks stand in version 2 only.
pub fn has_group(version: u8, group: Group) -> bool
    ensures { result ≡ has_group version group }
{
    match group {
        Group::Plain => true,
        Group::Check => version == 2,
    }
}

// Whether an operand stands in a file: a WRITE names its set in version 1 only.
pub fn is_present(version: u8, kind: Operand) -> bool
    ensures { result ≡ present version kind }
{
    match kind {
        Operand::None => false,
        Operand::Temporary => true,
        Operand::Number => true,
        Operand::Global => true,
        Operand::Site => true,
        Operand::Set => version == 1,
        Operand::Offset => true,
        Operand::Target => true,
        Operand::Color => true,
    }
}
