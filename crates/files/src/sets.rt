// The sets of a file: their members stand in one array, one set after the other.
ghost use Rattle.std.specs.Prelude.{◌≡◌, [], ◌≤◌, ◌<◌, ◌^◌, length};
ghost use Rattle.files.specs.Program.{longest};
ghost use Rattle.files.specs.Held.{sets_held};
ghost use Rattle.files.specs.Parsing.{several, members_from, read_set, sets_of};
ghost use Rattle.files.specs.Inside.{SetIs, Roomy, Holds};

use super::Sets;
use super::fields::{member_at, ranged};
use numbers::Cursor;
use numbers::refusal::{Cause, Refusal};

// `count` members of a set, strictly rising, into the room from a place on; answered is where they end there. Each
// takes a byte of the file, so the room never ends before the file.
fn read_members(
    file: &[u8],
    from: Cursor,
    objects: usize,
    count: usize,
    members: &mut [u16],
    start: usize,
) -> Result<(usize, Cursor), Refusal>
    requires { (Roomy file.now from.at objects members.old start) × (count < 2 ^ 32) }
    ensures { SetIs (members_from count objects file.now from.at 0 []) result members.old start members.new }
{
    let mut next = from;
    let mut low = 0;
    for place in start..start + count {
        let (n, behind) = member_at(file, next, objects, low)?;
        members[place] = n as u16;
        low = n as usize + 1;
        next = behind;
    }
    Ok((start + count, next))
}

// One set: the count of its members, and the members.
fn read_set(
    file: &[u8],
    from: Cursor,
    objects: usize,
    members: &mut [u16],
    start: usize,
) -> Result<(usize, Cursor), Refusal>
    requires { Roomy file.now from.at objects members.old start }
    ensures { SetIs (read_set objects file.now from.at) result members.old start members.new }
{
    let (count, next) = ranged(file, from, Cause::Count, 1, objects as u32)?;
    read_members(file, next, objects, count as usize, members, start)
}

// `count` sets, into what is blank; answered is the cursor behind them.
fn read_sets(
    file: &[u8],
    from: Cursor,
    objects: usize,
    count: usize,
    sets: &mut Sets,
) -> Result<Cursor, Refusal>
    requires few { (length file.now ≤ 16384) × (objects ≤ 400) × (count ≤ 400) }
    requires blank { sets.old ≡ sets_held [] }
    ensures { Holds sets_held (several count (read_set objects file.now) from.at []) result sets.new }
{
    sets.count = count;
    let mut place = 0;
    let mut next = from;
    for i in 0..count {
        let (end, behind) = read_set(file, next, objects, &mut sets.members, place)?;
        sets.ends[i] = end as u16;
        place = end;
        next = behind;
    }
    Ok(next)
}

// The count of sets, and the sets, into what is blank; a file of version 2 has neither.
pub(crate) fn sets_of(
    file: &[u8],
    from: Cursor,
    version: u8,
    objects: usize,
    sets: &mut Sets,
) -> Result<Cursor, Refusal>
    requires few { (length file.now ≤ longest version) × (objects ≤ 400) }
    requires blank { sets.old ≡ sets_held [] }
    ensures { Holds sets_held (sets_of version objects file.now from.at) result sets.new }
{
    if version != 1 {
        return Ok(from);
    }
    let (count, next) = ranged(file, from, Cause::Count, 0, 400)?;
    read_sets(file, next, objects, count as usize, sets)
}
