// The objects of a file. The loop that fills the list owns it: no list is copied once for each element.
ghost use Rattle.std.specs.Prelude.{◌≡◌, [], ◌≤◌};
ghost use Rattle.files.specs.Held.{objects_held};
ghost use Rattle.files.specs.Parsing.{hold, several, read_object, objects_of};

use super::Objects;
use super::fields::{color_at, ranged, size_at};
use numbers::Cursor;
use numbers::refusal::{Cause, Refusal};
use opcodes::Object;

// An object of which nothing counts.
const BLANK: Object = Object {
    kind: 0,
    size: 0,
    color: 0,
};

// One object.
fn read_object(file: &[u8], from: Cursor, version: u8) -> Result<(Object, Cursor), Refusal>
    ensures { result ≡ read_object version file.now from.at }
{
    let (kind, past_kind) = ranged(file, from, Cause::Field, 0, 1)?;
    let (size, past_size) = size_at(file, past_kind, kind)?;
    let (color, next) = color_at(file, past_size, version)?;
    let object = Object {
        kind: kind as u8,
        size: size as u16,
        color: color as u8,
    };
    Ok((object, next))
}

// `count` objects.
fn read_objects(
    file: &[u8],
    from: Cursor,
    version: u8,
    count: usize,
) -> Result<(Objects, Cursor), Refusal>
    requires { count ≤ 400 }
    ensures { result ≡ hold objects_held (several count (read_object version file.now) from.at []) }
{
    let mut list = [BLANK; 400];
    let mut next = from;
    for i in 0..count {
        let (object, behind) = read_object(file, next, version)?;
        list[i] = object;
        next = behind;
    }
    Ok((Objects { count, list }, next))
}

// The version, the count of objects, and the objects.
pub(crate) fn objects_of(file: &[u8], version: u8) -> Result<(Objects, Cursor), Refusal>
    ensures { result ≡ hold objects_held (objects_of version file.now) }
{
    let this = version as u32;
    let (_, past_version) = ranged(file, Cursor { at: 0 }, Cause::Version, this, this)?;
    let (count, next) = ranged(file, past_version, Cause::Count, 0, 400)?;
    read_objects(file, next, version, count as usize)
}
