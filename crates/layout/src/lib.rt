// Where the globals stand in memory.
//
// From address 8 stand the safe globals, then a guard of 8, then each unsafe global with a guard of 8
// behind it. A safe object is one of color 0.
#![tactic(auto)]

ghost use Rattle.std.specs.Prelude.{◌≡◌, ◌+◌, ◌*◌, ◌≤◌, length};
ghost use Rattle.layout.specs.Layout.{piece_of, pieces_of, safe_space, unsafe_space, total};
ghost use Rattle.layout.specs.Arrays.{pieces_in, layout_of};

use files::Objects;
use opcodes::Object;
use opcodes::extent::extent_of;

// The start of each object, 0 for those that are not there, and where the last guard ends.
#[derive(Clone, Copy)]
pub struct Layout {
    pub starts: [u32; 400],
    pub end: u32,
}

// The bytes that an object takes: a heap site none, a global its extent, and an unsafe one a guard behind it.
fn space_of(object: Object) -> u32
    ensures value { result ≡ safe_space 0 (piece_of object) + unsafe_space 0 (piece_of object) }
    ensures upper_bound { result ≤ 65544 }
{
    let extent = extent_of(object.size as u32) as u32;
    match (object.kind, object.color) {
        (0, 0) => extent,
        (0, _) => extent + 8,
        _ => 0,
    }
}

// The bytes of all safe globals.
#[tactic(auto, using(crate::proofs::Pieces::before_next, crate::proofs::Pieces::before_all), unfolding(crate::specs::Layout::total))]
fn safe_total(objects: &[Object]) -> u32
    requires { length objects.now ≤ 400 }
    ensures value { result ≡ total (safe_space 0) (pieces_of objects.now) }
    ensures upper_bound { result ≤ 400 * 65544 }
{
    let mut sum = 0;
    for object in objects {
        if object.color == 0 {
            sum += space_of(*object);
        }
    }
    sum
}

// Where the objects of a file stand: the first so many of the list, at most 400.
#[tactic(auto, using(crate::proofs::Pieces::placed_none, crate::proofs::Pieces::placed_all), unfolding(files::specs::Held::filled, crate::specs::Arrays::pieces_in))]
pub fn lay_out(objects: &Objects) -> Layout
    ensures { result ≡ layout_of (pieces_in objects.now) }
{
    let count = objects.count.min(400);
    let named = &objects.list[..count];
    let mut starts = [0; 400];
    let mut safe_at = 8;
    let mut unsafe_at = 8 + safe_total(named) + 8;
    for (g, object) in named.iter().enumerate() {
        let space = space_of(*object);
        if object.color == 0 {
            starts[g] = safe_at;
            safe_at += space;
        } else {
            starts[g] = unsafe_at;
            unsafe_at += space;
        }
    }
    Layout {
        starts,
        end: unsafe_at,
    }
}
