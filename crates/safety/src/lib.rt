// Safety: which stores are safe, and which set an unsafe one has.
//
// What an instruction is, is decided by its opcode number, its operands and the sizes of the globals; classes
// and colors come later and elsewhere.
#![tactic(auto)]

ghost use Rattle.std.specs.Prelude.{◌≡◌, [], ◌∷◌};
ghost use Rattle.opcodes.specs.Table.{make};
ghost use Rattle.opcodes.specs.View.{view};
ghost use Rattle.safety.specs.Unsafe.{size_of};
ghost use Rattle.safety.specs.Nature.{put_nature, nature_of};

use instructions::parts_of;
use opcodes::extent::extent_of;
use opcodes::{Instr, Object, Parts};

// What an instruction is: a store, and of which kind, or something else.
#[derive(Clone, Copy)]
pub enum Nature {
    // A store that cannot leave its global's extent.
    Safe,
    // An unsafe store with the set of this object alone.
    Own(usize),
    // An unsafe store with the set of this number.
    Listed(usize),
    // A jump to this instruction.
    Jump(usize),
    Check,
    Other,
}

// A PUT of `bytes` bytes at byte `k` of global `g`: safe where its last byte lies inside the extent.
fn put(g: u32, k: u32, bytes: u32, size: u16) -> Nature
    ensures { result ≡ put_nature size g k bytes }
{
    if k as usize + bytes as usize <= extent_of(size as u32) {
        Nature::Safe
    } else {
        Nature::Own(g as usize)
    }
}

// What the instruction with this opcode number and these operands is; `size` is the size of the
// global that a PUT names. It goes by numbers, with ranges, which is a form that the scope document names.
pub fn by_opcode(opcode: u32, x: u32, y: u32, z: u32, w: u32, size: u16) -> Nature
    ensures { result ≡ nature_of (λ g. size) (view (make opcode (x ∷ y ∷ z ∷ w ∷ []))) }
{
    match opcode {
        8 => put(x, y, 1, size),
        9 => put(x, y, 4, size),
        10..=11 => Nature::Listed(z as usize),
        12 => Nature::Jump(x as usize),
        13 => Nature::Jump(y as usize),
        18..=21 => Nature::Check,
        _ => Nature::Other,
    }
}

// What an instruction is, over the objects of its file.
#[tactic(auto, using(crate::proofs::Natures::nature_whole))]
pub fn nature_of(i: Instr, objects: &[Object]) -> Nature
    ensures { result ≡ nature_of (size_of objects.now) (view i) }
{
    let Parts { op, x, y, z, w } = parts_of(i);
    let size = objects.get(x as usize).map_or(0, |object| object.size);
    by_opcode(op, x, y, z, w, size)
}
