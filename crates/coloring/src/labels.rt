// The classes of a routine, by labels: the label of an unsafe object is the lowest object of its class
// so far, and NONE where the object is in no unsafe instruction's set.
//
// Each set that an unsafe instruction names is gone through once, and the labels are gone through only
// where two classes become one, which happens fewer times than there are objects. So the cost is at
// most the instructions, the members of the sets and 400 * objects.
ghost use Rattle.std.specs.Prelude.{◌≡◌, ◌<◌, ℕ, map, get_or};
ghost use Rattle.opcodes.specs.View.{view};
ghost use Rattle.safety.specs.Unsafe.{size_of};
ghost use Rattle.safety.specs.Nature.{nature_of};
ghost use Rattle.coloring.specs.Labels.{touched, renamed, united, set_joined, sets_joined, own_marked, use_marked, owns_marked, uses_marked, listed, InRange};

use files::Sets;
use opcodes::{Instr, Object};
use safety::{Nature, nature_of};

// No object has this number. An Option for a label was tried, and proved: the labels are then not gone through
// several at a time, and a largest file takes 1.46 of Rust's time in place of 0.83.
pub const NONE: u16 = 400;

// An object of an unsafe instruction's set has a class.
fn touch(labels: &mut [u16; 400], x: u16)
    requires { x < 400 }
    ensures { labels.new ≡ touched labels.old x }
{
    let at = x as usize;
    if labels[at] >= NONE {
        labels[at] = x;
    }
}

#[tactic(auto, using(crate::proofs::Turns::relabel_turn))]
fn relabel(labels: &mut [u16; 400], from: u16, to: u16)
    ensures { labels.new ≡ map (renamed from to) labels.old }
{
    for label in labels.iter_mut() {
        if *label == from {
            *label = to;
        }
    }
}

// The classes of two objects become one, with the lower label.
fn unite(labels: &mut [u16; 400], a: u16, b: u16)
    requires { (a < 400) × (b < 400) }
    ensures { labels.new ≡ united labels.old a b }
{
    let one = labels[a as usize];
    let other = labels[b as usize];
    if one != other {
        relabel(labels, one.max(other), one.min(other));
    }
}

// The members of a set are of one class.
fn unite_set(labels: &mut [u16; 400], set: &[u16])
    requires { (i : ℕ) → get_or set.now i 0 < 400 }
    ensures { labels.new ≡ set_joined labels.old set.now }
{
    let Some(&first) = set.first() else {
        return;
    };
    for &x in set {
        touch(labels, x);
        unite(labels, first, x);
    }
}

// The sets that an unsafe instruction names.
#[tactic(auto, using(crate::proofs::Turns::sets_end))]
pub(super) fn unite_sets(labels: &mut [u16; 400], used: &[bool; 400], sets: &Sets)
    requires { InRange sets.now }
    ensures { labels.new ≡ sets_joined used.now 0 labels.old (listed sets.now) }
{
    let ends = &sets.ends[..sets.count];
    let mut from = 0;
    for (s, &end) in ends.iter().enumerate() {
        let to = end as usize;
        if used[s] {
            unite_set(labels, &sets.members[from..to]);
        }
        from = to;
    }
}

// What one instruction says: its own object has a class, or its set is used. A routine that was read
// names no object and no set from 400 on.
fn mark(i: Instr, objects: &[Object], labels: &mut [u16; 400], used: &mut [bool; 400])
    ensures labels_after { labels.new ≡ own_marked labels.old (nature_of (size_of objects.now) (view i)) }
    ensures used_after { used.new ≡ use_marked used.old (nature_of (size_of objects.now) (view i)) }
{
    match nature_of(i, objects) {
        Nature::Own(g) if g < 400 => touch(labels, g as u16),
        Nature::Listed(s) if s < 400 => used[s] = true,
        _ => {}
    }
}

// What all instructions say.
pub(super) fn mark_all(
    code: &[Instr],
    objects: &[Object],
    labels: &mut [u16; 400],
    used: &mut [bool; 400],
)
    ensures labels_after { labels.new ≡ owns_marked (size_of objects.now) labels.old code.now }
    ensures used_after { used.new ≡ uses_marked (size_of objects.now) used.old code.now }
{
    for instr in code {
        mark(*instr, objects, labels, used);
    }
}
