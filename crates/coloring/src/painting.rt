// The colors of a routine's objects, by the labels of their classes.
ghost use Rattle.std.specs.Prelude.{◌≡◌, ◌≤◌, take, get_or};
ghost use Rattle.files.specs.Held.{blank};
ghost use Rattle.coloring.specs.Labels.{classes_in, color_by, Lowest, painted};

use files::Objects;
use opcodes::Object;

// How many classes there are: as many as objects that are the lowest of theirs.
#[tactic(auto, unfolding(crate::specs::Labels::classes_in))]
pub(super) fn count_classes(labels: &[u16]) -> usize
    ensures { result ≡ classes_in labels.now }
{
    labels
        .iter()
        .enumerate()
        .filter(|(x, label)| **label as usize == *x)
        .count()
}

// The color of an object, and 0 where there is none.
fn color_at(objects: &[Object], x: usize) -> u8
    ensures { result ≡ (get_or objects.now x blank).color }
{
    objects.get(x).map_or(0, |object| object.color)
}

// Gives the objects their colors, class after class in the order of the lowest objects: the next color to the
// lowest object of a class, that of the lowest to any other of the class, and 0 to a safe object.
#[tactic(auto, using(crate::proofs::Numbered::classes_room))]
pub(super) fn give_colors(objects: &mut Objects, labels: &[u16; 400])
    requires few { objects.old.count ≤ 400 }
    requires classes { classes_in (take objects.old.count labels.now) ≤ 254 }
    requires lowest { Lowest labels.now }
    ensures { objects.new ≡ painted (color_by labels.now) objects.old }
{
    let mut next = 2u16;
    for x in 0..objects.count {
        let lowest = labels[x] as usize;
        if lowest == x {
            objects.list[x].color = next as u8;
            next += 1;
        } else {
            objects.list[x].color = color_at(&objects.list, lowest);
        }
    }
}
