// An instruction made of its opcode and operands, and taken apart again: by the table of `opcodes`, for the
// reader, the writer and everybody who looks at an instruction's operands.
//
// Both functions answer for every number and every instruction that they can be given.
#![tactic(auto)]

ghost use Rattle.std.specs.Prelude.{◌≡◌, [], ◌∷◌, ◌%◌};
ghost use Rattle.instructions.specs.Making.{made};
ghost use Rattle.opcodes.specs.Table.{parts_of};

use opcodes::{Instr, Parts};

// The low eight bits. No cast cuts off, and no trait says that it does, so each width has its function.
fn low_byte(n: u32) -> u8
    ensures { result ≡ n % 256 }
{
    (n % 256) as u8
}

// The low sixteen bits.
fn low_half(n: u32) -> u16
    ensures { result ≡ n % 65536 }
{
    (n % 65536) as u16
}

// The instruction that an opcode makes of its operands; an operand that its row lacks is not looked at, of
// one that its field cannot hold the low bits are taken, and a number that is no opcode makes END.
pub fn instr_of(op: u32, x: u32, y: u32, z: u32, w: u32) -> Instr
    ensures { result ≡ made op (x ∷ y ∷ z ∷ w ∷ []) }
{
    let x8 = low_byte(x);
    let y8 = low_byte(y);
    let z8 = low_byte(z);
    let x16 = low_half(x);
    let y16 = low_half(y);
    let z16 = low_half(z);
    match op {
        0 => Instr::End,
        1 => Instr::Set(x8, y),
        2 => Instr::Place(x8, y16),
        3 => Instr::Add(x8, y8, z8),
        4 => Instr::Sub(x8, y8, z8),
        5 => Instr::Less(x8, y8, z8),
        6 => Instr::Load8(x8, y8),
        7 => Instr::Load32(x8, y8),
        8 => Instr::Put8(x16, y16, z8),
        9 => Instr::Put32(x16, y16, z8),
        10 => Instr::Write8(x8, y8, z16),
        11 => Instr::Write32(x8, y8, z16),
        12 => Instr::Jump(x16),
        13 => Instr::JumpIf(x8, y16),
        14 => Instr::Alloc(x8, y16, z8),
        15 => Instr::Free(x8),
        16 => Instr::In(x8),
        17 => Instr::Out(x8),
        18 => Instr::Check8(x8, y8),
        19 => Instr::Check32(x8, y8),
        20 => Instr::CheckPut8(x16, y16, z8),
        21 => Instr::CheckPut32(x16, y16, z8),
        _ => Instr::End,
    }
}

// An opcode with three operands, each in the type of its field.
fn parts<X: Into<u32>, Y: Into<u32>, Z: Into<u32>>(op: u32, x: X, y: Y, z: Z) -> Parts
    ensures opcode { result.op ≡ op }
    ensures first { X.converts x result.x }
    ensures second { Y.converts y result.y }
    ensures third { Z.converts z result.z }
    ensures no_fourth { result.w ≡ 0 }
{
    Parts {
        op,
        x: x.into(),
        y: y.into(),
        z: z.into(),
        w: 0,
    }
}

// An instruction taken apart.
pub fn parts_of(i: Instr) -> Parts
    ensures { result ≡ parts_of i }
{
    match i {
        Instr::End => parts(0, 0u32, 0u32, 0u32),
        Instr::Set(d, n) => parts(1, d, n, 0u32),
        Instr::Place(d, g) => parts(2, d, g, 0u32),
        Instr::Add(d, a, b) => parts(3, d, a, b),
        Instr::Sub(d, a, b) => parts(4, d, a, b),
        Instr::Less(d, a, b) => parts(5, d, a, b),
        Instr::Load8(d, a) => parts(6, d, a, 0u32),
        Instr::Load32(d, a) => parts(7, d, a, 0u32),
        Instr::Put8(g, k, a) => parts(8, g, k, a),
        Instr::Put32(g, k, a) => parts(9, g, k, a),
        Instr::Write8(a, b, s) => parts(10, a, b, s),
        Instr::Write32(a, b, s) => parts(11, a, b, s),
        Instr::Jump(p) => parts(12, p, 0u32, 0u32),
        Instr::JumpIf(a, p) => parts(13, a, p, 0u32),
        Instr::Alloc(d, g, a) => parts(14, d, g, a),
        Instr::Free(a) => parts(15, a, 0u32, 0u32),
        Instr::In(d) => parts(16, d, 0u32, 0u32),
        Instr::Out(a) => parts(17, a, 0u32, 0u32),
        Instr::Check8(a, c) => parts(18, a, c, 0u32),
        Instr::Check32(a, c) => parts(19, a, c, 0u32),
        Instr::CheckPut8(g, k, c) => parts(20, g, k, c),
        Instr::CheckPut32(g, k, c) => parts(21, g, k, c),
    }
}
