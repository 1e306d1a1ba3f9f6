// The measuring pass: how many bytes each part of a program takes; `None` where no file says it. Every
// field is judged by the table that the reader goes by.
ghost use Rattle.std.specs.Prelude.{◌≡◌, ℕ, ◌*◌, ◌≤◌, Bool, length, IfSome};
ghost use Rattle.std.specs.Bool.{then_some};
ghost use Rattle.opcodes.specs.Ranges.{Scope};
ghost use Rattle.files.specs.Writing.{spell_all, spell_file, every, good_object, good_operand, good_instr, good_program};
ghost use Rattle.writer.specs.Inside.{shown_in, scope_in};

use super::writing::{Spelled, operands_in};
use instructions::parts_of;
use numbers::number_width;
use opcodes::ranges::{is_allowed, is_color, is_within};
use opcodes::versions::is_present;
use opcodes::{Instr, Object, Operand, Scope};
use table::has_opcode;

// What a file may say, beside what an operand of it may name.
trait Measured: Spelled {
    // Whether a file can say it.
    ghost good: { Scope → Self → Bool };

    // How many bytes it takes at most.
    ghost most: { ℕ };

    // How many it takes, where objects and so many instructions are what is named.
    fn length(self, objects: &[Object], lines: usize) -> Option<usize>
        ensures few { IfSome result (λ bytes. bytes ≤ most) }
        ensures length { result ≡ then_some (good (scope_in objects.now lines) self) (length (Self.spelling self)) };
}

// An operand by its kind; one that does not stand in the file has to be 0.
impl Measured for (Operand, u32) {
    ghost good = { λ scope o. good_operand scope o.0 o.1 };

    ghost most = { 5 };

    #[tactic(auto, using(numbers::proofs::Laws::width_most))]
    fn length(self, objects: &[Object], lines: usize) -> Option<usize> {
        let (kind, n) = self;
        if !is_present(2, kind) {
            return (n == 0).then_some(0);
        }
        let scope = Scope {
            version: 2,
            sets: 0,
            lines,
        };
        is_allowed(objects, scope, kind, n).then_some(number_width(n))
    }
}

impl Measured for Instr {
    ghost good = { good_instr };

    ghost most = { 25 };

    #[tactic(auto, using(numbers::proofs::Laws::width_most))]
    fn length(self, objects: &[Object], lines: usize) -> Option<usize> {
        let parts = parts_of(self);
        if !has_opcode(2, parts.op) {
            return None;
        }
        let operands = all_length(&operands_in(parts), objects, lines)?;
        Some(number_width(parts.op) + operands)
    }
}

impl Measured for Object {
    ghost good = { λ _. good_object 2 };

    ghost most = { 15 };

    #[tactic(auto, using(numbers::proofs::Laws::width_most))]
    fn length(self, _objects: &[Object], _lines: usize) -> Option<usize> {
        if !is_color(self.color as u32) {
            return None;
        }
        let shared = number_width(self.kind as u32) + number_width(self.color as u32);
        if self.kind == 0 {
            if !is_within(1, 4096, self.size as u32) {
                return None;
            }
            return Some(shared + number_width(self.size as u32));
        }
        (self.kind == 1 && self.size == 0).then_some(shared)
    }
}

// All of them, one after the other.
#[tactic(auto, using(crate::proofs::Lengths::totals))]
fn all_length<T: Measured>(things: &[T], objects: &[Object], lines: usize) -> Option<usize>
    requires { (length things.now ≤ 2000) × (T.most ≤ 25) }
    ensures few { IfSome result (λ bytes. bytes ≤ T.most * length things.now) }
    ensures length { result ≡ then_some (every (T.good (scope_in objects.now lines)) things.now) (length (spell_all T.spelling things.now)) }
{
    let mut total = 0;
    for thing in things {
        total += thing.length(objects, lines)?;
    }
    Some(total)
}

// The whole file: the version, the counts, the objects and the instructions, no longer than a file may be.
#[tactic(auto, using(numbers::proofs::Laws::width_most), unfolding(files::specs::Writing::good_program, files::specs::Writing::spell_file))]
pub(crate) fn file_length(objects: &[Object], code: &[Instr]) -> Option<usize>
    ensures { result ≡ then_some (good_program 2 (shown_in objects.now code.now)) (length (spell_file 2 (shown_in objects.now code.now))) }
{
    if 400 < objects.len() || code.is_empty() || 2000 < code.len() {
        return None;
    }
    let objects_bytes = all_length(objects, objects, code.len())?;
    let code_bytes = all_length(code, objects, code.len())?;
    let counts = number_width(objects.len() as u32) + number_width(code.len() as u32);
    let total = number_width(2) + counts + objects_bytes + code_bytes;
    if 32768 < total {
        return None;
    }
    Some(total)
}
