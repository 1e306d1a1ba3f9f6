// Opcodes: what an operand may be, what a version has, and the definition of the table that gives each opcode its
// operands, for the reader, the writer and everybody who takes an instruction apart.
//
// Every function answers for every number that it can be given.
#![tactic(auto)]

pub mod versions; // versions.rt: which opcodes and operands a version has
pub mod ranges; // ranges.rt: the numbers that an operand may be
pub mod extent; // extent.rt: a size rounded up to eight

// What an operand of an instruction names, and so its range; `None` where there is no operand. An Option in its place
// would take from `is_present` and `is_allowed` a case that they answer for.
#[derive(Clone, Copy)]
pub enum Operand {
    None,
    Temporary,
    Number,
    Global,
    Site,
    Set,
    Offset,
    Target,
    Color,
}

// The group of an opcode, which says in what versions it stands.
#[derive(Clone, Copy)]
pub enum Group {
    Plain,
    Check,
}

// An opcode's group, and its operands in their order in the file.
#[derive(Clone, Copy)]
pub struct Row {
    pub group: Group,
    pub first: Operand,
    pub second: Operand,
    pub third: Operand,
    pub fourth: Operand,
}

// An instruction with its operands as data. In version 2 a WRITE has no set: the field is 0.
#[derive(Clone, Copy)]
pub enum Instr {
    End,
    Set(u8, u32),
    Place(u8, u16),
    Add(u8, u8, u8),
    Sub(u8, u8, u8),
    Less(u8, u8, u8),
    Load8(u8, u8),
    Load32(u8, u8),
    Put8(u16, u16, u8),
    Put32(u16, u16, u8),
    Write8(u8, u8, u16),
    Write32(u8, u8, u16),
    Jump(u16),
    JumpIf(u8, u16),
    Alloc(u8, u16, u8),
    Free(u8),
    In(u8),
    Out(u8),
    Check8(u8, u8),
    Check32(u8, u8),
    CheckPut8(u16, u16, u8),
    CheckPut32(u16, u16, u8),
}

// An instruction's opcode and its operands in the order of the file, 0 where there is none.
#[derive(Clone, Copy)]
pub struct Parts {
    pub op: u32,
    pub x: u32,
    pub y: u32,
    pub z: u32,
    pub w: u32,
}

// An object of a file: kind 0 is a global with a size, kind 1 a heap site, whose size is 0 here. A file of version 1
// has no colors: the field is 0. The kind is a number and no enum, since `write_program` and `lay_out` answer for any.
#[derive(Clone, Copy)]
pub struct Object {
    pub kind: u8,
    pub size: u16,
    pub color: u8,
}

// What the operands of an instruction may name, beside the objects. The version is a number and no enum, since
// `has_group`, `is_present` and `has_opcode` answer for any.
#[derive(Clone, Copy)]
pub struct Scope {
    pub version: u8,
    pub sets: usize,
    pub lines: usize,
}
