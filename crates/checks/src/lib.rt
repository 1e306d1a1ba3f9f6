// One instruction in version 2: its check, where it is unsafe, and its copy.
//
// Every function answers for all that it can be given: an element past the end of an array counts as 0.
#![tactic(auto)]

ghost use Rattle.std.specs.Prelude.{◌≡◌, get_or};
ghost use Rattle.opcodes.specs.View.{view};
ghost use Rattle.checks.specs.Held.{set_start, first_in, color_at, check_for, as_list, check_in};
ghost use Rattle.instructions.specs.Moved.{moved};

use opcodes::{Instr, Object};
use safety::{Nature, nature_of};

// Where set `s` starts among the members: behind the set before it.
fn start_of(s: usize, ends: &[u16]) -> usize
    ensures { result ≡ set_start ends.now s }
{
    if s == 0 {
        return 0;
    }
    ends.get(s - 1).map_or(0, |end| *end as usize)
}

// The lowest object of set `s`, or 0 past the members.
fn first_of(s: usize, ends: &[u16], members: &[u16]) -> usize
    ensures { result ≡ first_in ends.now members.now s }
{
    let at = start_of(s, ends);
    members.get(at).map_or(0, |member| *member as usize)
}

// The color of an object, 0 past the objects.
fn color_of(x: usize, objects: &[Object]) -> u8
    ensures { result ≡ color_at objects.now x }
{
    objects.get(x).map_or(0, |object| object.color)
}

// The check of a store for a color: the same aim, and the same width.
fn check_of(i: Instr, color: u8) -> Instr
    ensures { result ≡ check_for (view i) color }
{
    match i {
        Instr::Put8(g, k, _) => Instr::CheckPut8(g, k, color),
        Instr::Put32(g, k, _) => Instr::CheckPut32(g, k, color),
        Instr::Write8(a, _, _) => Instr::Check8(a, color),
        Instr::Write32(a, _, _) => Instr::Check32(a, color),
        _ => Instr::End,
    }
}

// The new place of instruction `t`, 0 past the last one.
fn place_of(t: u16, places: &[u16]) -> u16
    ensures { result ≡ get_or places.now t 0 }
{
    places.get(t as usize).copied().unwrap_or(0)
}

// The copy of an instruction: a jump has its new target, and a WRITE has no set.
pub fn copy_of(i: Instr, places: &[u16]) -> Instr
    ensures { result ≡ moved (λ t. get_or places.now t 0) i }
{
    match i {
        Instr::Write8(a, b, _) => Instr::Write8(a, b, 0),
        Instr::Write32(a, b, _) => Instr::Write32(a, b, 0),
        Instr::Jump(t) => Instr::Jump(place_of(t, places)),
        Instr::JumpIf(a, t) => Instr::JumpIf(a, place_of(t, places)),
        _ => i,
    }
}

// The check that an unsafe instruction has before it, over the objects and sets of its file.
#[tactic(auto, unfolding(crate::specs::Held::check_in))]
pub fn check_before(i: Instr, objects: &[Object], ends: &[u16], members: &[u16]) -> Option<Instr>
    ensures { as_list result ≡ check_in objects.now ends.now members.now i }
{
    match nature_of(i, objects) {
        Nature::Own(g) => Some(check_of(i, color_of(g, objects))),
        Nature::Listed(s) => Some(check_of(i, color_of(first_of(s, ends, members), objects))),
        _ => None,
    }
}
