// Coloring: which objects form a class, and the color of each object.
//
// A routine is read and its objects get 01's colors. The crate `safety` says what each instruction is;
// `labels` finds the classes; `painting` numbers them.
#![tactic(auto)]

ghost use Rattle.std.specs.Prelude.{◌≡◌};
ghost use Rattle.files.specs.Reading.{read_file};
ghost use Rattle.files.specs.Held.{held};
ghost use Rattle.coloring.specs.Colored.{colored};
ghost use Rattle.coloring.specs.Labels.{IsRead, program_in, labels_of};

use files::{Loaded, read_routine};
use labels::{NONE, mark_all, unite_sets};
use numbers::refusal::{Cause, Refusal};
use painting::{count_classes, give_colors};

mod labels; // labels.rt: the classes
mod painting; // painting.rt: their colors

// The labels of a routine's objects.
#[tactic(auto, unfolding(crate::specs::Labels::labels_of))]
fn labels_of(routine: &Loaded) -> [u16; 400]
    requires { IsRead routine.now }
    ensures { result ≡ labels_of (program_in routine.now) }
{
    let code = &routine.code.list[..routine.code.count];
    let objects = &routine.objects.list[..routine.objects.count];
    let mut labels = [NONE; 400];
    let mut used = [false; 400];
    mark_all(code, objects, &mut labels, &mut used);
    unite_sets(&mut labels, &used, &routine.sets);
    labels
}

// Reads bytes as a routine and gives its objects their colors, in the answer where they are held (docs/DECISIONS.md,
// D-61). The answer has 0 as the color of a safe object, and 2, 3, .. for the classes in the order of their lowest
// objects; there are colors for 254 classes.
#[tactic(auto, using(crate::proofs::Answer::is_read, crate::proofs::Answer::few_objects, crate::proofs::Answer::file_labels_lowest, crate::proofs::Answer::file_many_classes, crate::proofs::Answer::file_few_classes, crate::proofs::Answer::read_refused))]
pub fn read_colored(file: &[u8]) -> Result<Loaded, Refusal>
    ensures { result ≡ held (colored (read_file 1 file.now)) }
{
    let mut read = read_routine(file);
    if let Ok(routine) = &mut read {
        let labels = labels_of(routine);
        if 254 < count_classes(&labels[..routine.objects.count]) {
            return Err(Refusal {
                cause: Cause::ManyClasses,
                place: 0,
            });
        }
        give_colors(&mut routine.objects, &labels);
    }
    read
}
