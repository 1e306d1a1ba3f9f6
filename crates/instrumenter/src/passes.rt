// The two passes over a routine's code: first the new place of each instruction, then the code of
// version 2. Each owns the array that it fills, and is lent those that it reads.
ghost use Rattle.std.specs.Prelude.{◌≡◌, ◌+◌, ◌≤◌, length, get_or};
ghost use Rattle.files.specs.Held.{code_held};
ghost use Rattle.checks.specs.Held.{as_list};
ghost use Rattle.instrumenter.specs.Instrumented.{guarded};
ghost use Rattle.instrumenter.specs.Arrays.{checks_over, PlacesAre, Small, Version2};

use checks::{check_before, copy_of};
use files::{Code, Loaded, Sets};
use opcodes::{Instr, Object};

// How many instructions of version 2 an instruction becomes: two where it has a check.
fn span_of(before: Option<Instr>) -> u16
    ensures value { result ≡ length (as_list before) + 1 }
    ensures upper_bound { result ≤ 2 }
{
    if before.is_some() { 2 } else { 1 }
}

// The new place of each instruction: that of its check, or else of its copy.
fn new_places(code: &[Instr], objects: &[Object], sets: &Sets) -> [u16; 1000]
    requires { length code.now ≤ 1000 }
    ensures { PlacesAre (checks_over objects.now sets.now) code.now result }
{
    let mut places = [0; 1000];
    let mut place = 0;
    for (at, instr) in code.iter().enumerate() {
        places[at] = place;
        place += span_of(check_before(*instr, objects, &sets.ends, &sets.members));
    }
    places
}

// The same instructions in order, each behind its check, with the new targets.
fn guarded_code(code: &[Instr], places: &[u16], objects: &[Object], sets: &Sets) -> Code
    requires { length code.now ≤ 1000 }
    ensures { result ≡ code_held (guarded (checks_over objects.now sets.now) (λ t. get_or places.now t 0) code.now) }
{
    let mut list = [Instr::End; 2000];
    let mut count = 0;
    for instr in code {
        if let Some(check) = check_before(*instr, objects, &sets.ends, &sets.members) {
            list[count] = check;
            count += 1;
        }
        list[count] = copy_of(*instr, places);
        count += 1;
    }
    Code { count, list }
}

// The code of version 2 of a routine that is held with its colors.
pub(crate) fn version_2(routine: &Loaded) -> Code
    requires { Small routine.now }
    ensures { Version2 routine.now result }
{
    let code = &routine.code.list[..routine.code.count];
    let objects = &routine.objects.list[..routine.objects.count];
    let places = new_places(code, objects, &routine.sets);
    guarded_code(code, &places, objects, &routine.sets)
}
