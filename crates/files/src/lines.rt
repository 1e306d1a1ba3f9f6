// The instructions of a file, each by the row of its opcode in the table.
ghost use Rattle.std.specs.Prelude.{◌≡◌, [], ◌≤◌, length};
ghost use Rattle.opcodes.specs.Ranges.{kinds_of, scope_over};
ghost use Rattle.files.specs.Program.{most_code};
ghost use Rattle.files.specs.Held.{code_held};
ghost use Rattle.files.specs.Parsing.{several, read_instr, code_of};
ghost use Rattle.files.specs.Inside.{Small, Holds};

use super::Code;
use super::fields::{opcode_at, operand_at, ranged};
use instructions::instr_of;
use numbers::Cursor;
use numbers::refusal::{Cause, Refusal};
use opcodes::{Instr, Object, Scope};
use reader::Reader;
use table::row_of;

// One instruction at a reader's place: its opcode, and the operands that its row names. Four lines and no loop: a row
// has four fields, and reading is measured.
fn read_instr<'a>(
    r: Reader<'a>,
    objects: &[Object],
    scope: Scope,
) -> Result<(Instr, Cursor), Refusal>
    requires { Small scope (kinds_of objects.now) }
    ensures { result ≡ read_instr (scope_over scope (kinds_of objects.now)) r.entry.file.now r.entry.at }
{
    let file = r.file;
    let (op, past_opcode) = opcode_at(file, Cursor { at: r.at }, scope.version)?;
    let row = row_of(op);
    let (x, past_first) = operand_at(file, past_opcode, objects, scope, row.first)?;
    let (y, past_second) = operand_at(file, past_first, objects, scope, row.second)?;
    let (z, past_third) = operand_at(file, past_second, objects, scope, row.third)?;
    let (w, next) = operand_at(file, past_third, objects, scope, row.fourth)?;
    Ok((instr_of(op, x, y, z, w), next))
}

// As many instructions as the scope says, into code that is blank; answered is the cursor behind them.
fn read_code(
    file: &[u8],
    from: Cursor,
    objects: &[Object],
    scope: Scope,
    code: &mut Code,
) -> Result<Cursor, Refusal>
    requires few { Small scope (kinds_of objects.now) }
    requires blank { code.old ≡ code_held [] }
    ensures { Holds code_held (several scope.lines (read_instr (scope_over scope (kinds_of objects.now)) file.now) from.at []) result code.new }
{
    let count = scope.lines;
    code.count = count;
    let mut next = from;
    for i in 0..count {
        let (instr, behind) = read_instr(Reader::open(file).after(next), objects, scope)?;
        code.list[i] = instr;
        next = behind;
    }
    Ok(next)
}

// The most instructions of a version.
fn most_code(version: u8) -> u32
    ensures { result ≡ most_code version }
{
    if version == 1 { 1000 } else { 2000 }
}

// The count of instructions, and the instructions, into code that is blank.
pub(crate) fn code_of(
    file: &[u8],
    from: Cursor,
    objects: &[Object],
    version: u8,
    sets: usize,
    code: &mut Code,
) -> Result<Cursor, Refusal>
    requires few { (length objects.now ≤ 400) × (sets ≤ 400) }
    requires blank { code.old ≡ code_held [] }
    ensures { Holds code_held (code_of version (kinds_of objects.now) sets file.now from.at) result code.new }
{
    let (count, next) = ranged(file, from, Cause::Count, 1, most_code(version))?;
    let scope = Scope {
        version,
        sets,
        lines: count as usize,
    };
    read_code(file, next, objects, scope, code)
}
