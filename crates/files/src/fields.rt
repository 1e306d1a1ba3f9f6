// The fields of a file: each number is judged as soon as it is read, and a read answers the value with the
// next cursor or a refusal, which is handed up at once.
//
// Five functions read a number and hold it to a test. One that takes the test as a closure would have to say what the
// closure answers, and each of the five would need a proof by hand, where now none has one.
ghost use Rattle.std.specs.Prelude.{◌≡◌};
ghost use Rattle.opcodes.specs.Ranges.{has_opcode, within, kinds_of, scope_over};
ghost use Rattle.files.specs.Reading.{judged};
ghost use Rattle.files.specs.Parsing.{color_at, size_at, member_at, operand_at};

use numbers::refusal::{Cause, Refusal};
use numbers::{Cursor, Read};
use opcodes::ranges::{is_allowed, is_color, is_within};
use opcodes::versions::is_present;
use opcodes::{Object, Operand, Scope};
use reader::read_at;
use table::has_opcode;

// A number from `low` to `high`, or a refusal at its first byte.
pub(crate) fn ranged(file: &[u8], from: Cursor, cause: Cause, low: u32, high: u32) -> Read
    ensures { result ≡ judged cause (within low high) file.now from.at }
{
    let read = read_at(file, from);
    let Ok((n, _)) = read else {
        return read;
    };
    if !is_within(low, high, n) {
        return Err(Refusal {
            cause,
            place: from.at,
        });
    }
    read
}

// The color at the end of an object; a file of version 1 has none.
pub(crate) fn color_at(file: &[u8], from: Cursor, version: u8) -> Read
    ensures { result ≡ color_at version file.now from.at }
{
    if version != 2 {
        return Ok((0, from));
    }
    let read = read_at(file, from);
    let Ok((n, _)) = read else {
        return read;
    };
    if !is_color(n) {
        return Err(Refusal {
            cause: Cause::Field,
            place: from.at,
        });
    }
    read
}

// The size of an object; a heap site has none.
pub(crate) fn size_at(file: &[u8], from: Cursor, kind: u32) -> Read
    ensures { result ≡ size_at file.now kind from.at }
{
    if kind != 0 {
        return Ok((0, from));
    }
    ranged(file, from, Cause::Field, 1, 4096)
}

// A member of a set: an object's number that is not below `low`, or a refusal at its first byte.
pub(crate) fn member_at(file: &[u8], from: Cursor, objects: usize, low: usize) -> Read
    ensures { result ≡ member_at objects low file.now from.at }
{
    let read = read_at(file, from);
    let Ok((n, _)) = read else {
        return read;
    };
    let member = n as usize;
    if member < low || objects <= member {
        return Err(Refusal {
            cause: Cause::Field,
            place: from.at,
        });
    }
    read
}

// An opcode of a version, or a refusal at its first byte.
pub(crate) fn opcode_at(file: &[u8], from: Cursor, version: u8) -> Read
    ensures { result ≡ judged Cause.Field (has_opcode version) file.now from.at }
{
    let read = read_at(file, from);
    let Ok((n, _)) = read else {
        return read;
    };
    if !has_opcode(version, n) {
        return Err(Refusal {
            cause: Cause::Field,
            place: from.at,
        });
    }
    read
}

// An operand by its kind; one that does not stand in the file is 0.
pub(crate) fn operand_at(
    file: &[u8],
    from: Cursor,
    objects: &[Object],
    scope: Scope,
    kind: Operand,
) -> Read
    ensures { result ≡ operand_at (scope_over scope (kinds_of objects.now)) kind file.now from.at }
{
    if !is_present(scope.version, kind) {
        return Ok((0, from));
    }
    let read = read_at(file, from);
    let Ok((n, _)) = read else {
        return read;
    };
    if !is_allowed(objects, scope, kind, n) {
        return Err(Refusal {
            cause: Cause::Field,
            place: from.at,
        });
    }
    read
}
