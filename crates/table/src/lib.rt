// The table of the opcodes: the group and the operands of each. The reader and the writer go by the same rows.
//
// Every function answers for every number that it can be given.
#![tactic(auto)]

ghost use Rattle.std.specs.Prelude.{◌≡◌};
ghost use Rattle.opcodes.specs.Table.{row_of};
ghost use Rattle.opcodes.specs.Ranges.{has_opcode};

use opcodes::Operand::{Color, Global, Number, Offset, Set, Site, Target, Temporary};
use opcodes::versions::has_group;
use opcodes::{Group, Operand, Row};

// The row of a plain opcode without operands.
const NO_OPERANDS: Row = Row {
    group: Group::Plain,
    first: Operand::None,
    second: Operand::None,
    third: Operand::None,
    fourth: Operand::None,
};

// The opcodes 0 to 21, in their order.
const ROWS: [Row; 22] = [
    NO_OPERANDS,
    Row {
        first: Temporary,
        second: Number,
        ..NO_OPERANDS
    },
    Row {
        first: Temporary,
        second: Global,
        ..NO_OPERANDS
    },
    Row {
        first: Temporary,
        second: Temporary,
        third: Temporary,
        ..NO_OPERANDS
    },
    Row {
        first: Temporary,
        second: Temporary,
        third: Temporary,
        ..NO_OPERANDS
    },
    Row {
        first: Temporary,
        second: Temporary,
        third: Temporary,
        ..NO_OPERANDS
    },
    Row {
        first: Temporary,
        second: Temporary,
        ..NO_OPERANDS
    },
    Row {
        first: Temporary,
        second: Temporary,
        ..NO_OPERANDS
    },
    Row {
        first: Global,
        second: Offset,
        third: Temporary,
        ..NO_OPERANDS
    },
    Row {
        first: Global,
        second: Offset,
        third: Temporary,
        ..NO_OPERANDS
    },
    Row {
        first: Temporary,
        second: Temporary,
        third: Set,
        ..NO_OPERANDS
    },
    Row {
        first: Temporary,
        second: Temporary,
        third: Set,
        ..NO_OPERANDS
    },
    Row {
        first: Target,
        ..NO_OPERANDS
    },
    Row {
        first: Temporary,
        second: Target,
        ..NO_OPERANDS
    },
    Row {
        first: Temporary,
        second: Site,
        third: Temporary,
        ..NO_OPERANDS
    },
    Row {
        first: Temporary,
        ..NO_OPERANDS
    },
    Row {
        first: Temporary,
        ..NO_OPERANDS
    },
    Row {
        first: Temporary,
        ..NO_OPERANDS
    },
    Row {
        group: Group::Check,
        first: Temporary,
        second: Color,
        ..NO_OPERANDS
    },
    Row {
        group: Group::Check,
        first: Temporary,
        second: Color,
        ..NO_OPERANDS
    },
    Row {
        group: Group::Check,
        first: Global,
        second: Offset,
        third: Color,
        ..NO_OPERANDS
    },
    Row {
        group: Group::Check,
        first: Global,
        second: Offset,
        third: Color,
        ..NO_OPERANDS
    },
];

// The row of an opcode; a number that is no opcode has no operands.
pub fn row_of(op: u32) -> Row
    ensures { result ≡ row_of op }
{
    ROWS.get(op as usize).copied().unwrap_or(NO_OPERANDS)
}

// Whether a number is an opcode of a version.
pub fn has_opcode(version: u8, op: u32) -> bool
    ensures { result ≡ has_opcode version op }
{
    op < 22 && has_group(version, row_of(op).group)
}
