// The digest of the numbers of a file, made again from what was read and not from its bytes, in the
// file's order.
use crate::digest::{EMPTY, joined};
use crate::lent::word;
use files::{Code, Loaded, Objects, Sets};
use instructions::parts_of;
use opcodes::{Object, Parts};

// How many operands an opcode has in a version: a WRITE names its set in version 1 alone.
fn operands_of(opcode: u32, version: u32) -> usize {
    match opcode {
        0 => 0,
        12 | 15 | 16 | 17 => 1,
        1 | 2 | 6 | 7 | 13 | 18 | 19 => 2,
        10 | 11 if version != 1 => 2,
        _ => 3,
    }
}

// An object: its kind, for a global its size, in version 2 its color.
fn object(held: u32, version: u32, object: &Object) -> u32 {
    let mut h = joined(held, u32::from(object.kind));
    if object.kind == 0 {
        h = joined(h, u32::from(object.size));
    }
    if version == 2 {
        h = joined(h, u32::from(object.color));
    }
    h
}

fn objects(held: u32, version: u32, objects: &Objects) -> u32 {
    let counted = joined(held, word(objects.count));
    objects
        .list
        .iter()
        .take(objects.count)
        .fold(counted, |h, o| object(h, version, o))
}

// Each set: its count and its members, which stand from the end of the set before it up to its own.
fn sets(held: u32, sets: &Sets) -> u32 {
    let mut h = joined(held, word(sets.count));
    let mut from = 0u16;
    for &to in sets.ends.iter().take(sets.count) {
        h = joined(h, u32::from(to.wrapping_sub(from)));
        let set = sets.members.get(usize::from(from)..usize::from(to));
        for &member in set.unwrap_or(&[]) {
            h = joined(h, u32::from(member));
        }
        from = to;
    }
    h
}

// An instruction: its opcode and its operands.
fn instruction(held: u32, version: u32, parts: Parts) -> u32 {
    let operands = [parts.x, parts.y, parts.z];
    operands
        .iter()
        .take(operands_of(parts.op, version))
        .fold(joined(held, parts.op), |h, &n| joined(h, n))
}

fn instructions(held: u32, version: u32, code: &Code) -> u32 {
    let counted = joined(held, word(code.count));
    code.list.iter().take(code.count).fold(
        counted,
        |h, &instr| instruction(h, version, parts_of(instr)),
    )
}

// The file of a version: objects, in version 1 sets, instructions.
pub(crate) fn digest_of(version: u32, held: &Loaded) -> u32 {
    let mut h = objects(joined(EMPTY, version), version, &held.objects);
    if version == 1 {
        h = sets(h, &held.sets);
    }
    instructions(h, version, &held.code)
}
