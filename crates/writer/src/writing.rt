// The writing pass: the numbers of a program, one after the other, into a room where they fit.
ghost use Rattle.std.specs.Prelude.{◌≡◌, ℕ, ◌+◌, ◌≤◌, List, length};
ghost use Rattle.std.proofs.lemmas.List.Edits.{sets};
ghost use Rattle.numbers.specs.Number.{spell, width};
ghost use Rattle.files.specs.Writing.{spell_if, spell_object, spell_instr, spell_all, spell_file};
ghost use Rattle.opcodes.specs.Table.{operands_in};
ghost use Rattle.opcodes.specs.Ranges.{present};
ghost use Rattle.writer.specs.Inside.{shown_in};

use instructions::parts_of;
use numbers::write_number;
use opcodes::versions::is_present;
use opcodes::{Instr, Object, Operand, Parts};
use table::row_of;

// A number, which fits.
fn put(room: &mut [u8], at: usize, n: u32) -> usize
    requires { at + width n ≤ length room.old }
    ensures place { result ≡ at + width n }
    ensures room { room.new ≡ sets room.old at (spell n) }
{
    write_number(room, at, n).unwrap()
}

// A number that stands in the file, or nothing.
fn put_if(room: &mut [u8], at: usize, stands: bool, n: u32) -> usize
    requires { at + length (spell_if stands n) ≤ length room.old }
    ensures place { result ≡ at + length (spell_if stands n) }
    ensures room { room.new ≡ sets room.old at (spell_if stands n) }
{
    if stands { put(room, at, n) } else { at }
}

// The operands of an instruction, each with what it names.
pub(crate) fn operands_in(parts: Parts) -> [(Operand, u32); 4]
    ensures { result ≡ operands_in parts }
{
    let row = row_of(parts.op);
    [
        (row.first, parts.x),
        (row.second, parts.y),
        (row.third, parts.z),
        (row.fourth, parts.w),
    ]
}

// What stands in a file of version 2 as some numbers.
pub(crate) trait Spelled: Copy {
    // Its numbers.
    ghost spelling: { Self → List ℕ };

    // Puts them, which fit.
    fn put(self, room: &mut [u8], at: usize) -> usize
        requires { at + length (spelling self) ≤ length room.old }
        ensures place { result ≡ at + length (spelling self) }
        ensures room { room.new ≡ sets room.old at (spelling self) };
}

impl Spelled for (Operand, u32) {
    ghost spelling = { λ o. spell_if (present 2 o.0) o.1 };

    fn put(self, room: &mut [u8], at: usize) -> usize {
        let (kind, n) = self;
        put_if(room, at, is_present(2, kind), n)
    }
}

impl Spelled for Instr {
    ghost spelling = { spell_instr 2 };

    #[tactic(auto, using(crate::proofs::Putting::puts))]
    fn put(self, room: &mut [u8], at: usize) -> usize {
        let parts = parts_of(self);
        let past_op = put(room, at, parts.op);
        put_all(room, past_op, &operands_in(parts))
    }
}

impl Spelled for Object {
    ghost spelling = { spell_object 2 };

    #[tactic(auto, using(crate::proofs::Putting::puts))]
    fn put(self, room: &mut [u8], at: usize) -> usize {
        let past_kind = put(room, at, self.kind as u32);
        let past_size = put_if(room, past_kind, self.kind == 0, self.size as u32);
        put(room, past_size, self.color as u32)
    }
}

// All of them, one after the other.
#[tactic(auto, using(crate::proofs::Putting::puts))]
fn put_all<T: Spelled>(room: &mut [u8], at: usize, things: &[T]) -> usize
    requires { at + length (spell_all T.spelling things.now) ≤ length room.old }
    ensures place { result ≡ at + length (spell_all T.spelling things.now) }
    ensures room { room.new ≡ sets room.old at (spell_all T.spelling things.now) }
{
    let mut place = at;
    for thing in things {
        place = thing.put(room, place);
    }
    place
}

// The whole file, which fits: its bytes from the first of the room on.
#[tactic(auto, using(crate::proofs::Putting::puts), unfolding(files::specs::Writing::spell_file))]
pub(crate) fn put_file(room: &mut [u8], objects: &[Object], code: &[Instr]) -> usize
    requires { (length objects.now ≤ 400) × (length code.now ≤ 2000) × (length (spell_file 2 (shown_in objects.now code.now)) ≤ length room.old) }
    ensures place { result ≡ length (spell_file 2 (shown_in objects.now code.now)) }
    ensures room { room.new ≡ sets room.old 0 (spell_file 2 (shown_in objects.now code.now)) }
{
    let past_version = put(room, 0, 2);
    let past_count = put(room, past_version, objects.len() as u32);
    let past_objects = put_all(room, past_count, objects);
    let past_lines = put(room, past_objects, code.len() as u32);
    put_all(room, past_lines, code)
}
