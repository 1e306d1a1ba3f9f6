// One turn: what an instruction does, with the tests for the end and for the limit passed.
ghost use Rattle.std.specs.Prelude.{◌≡◌};
ghost use Rattle.machine.specs.Turn.{held, Ready, Low, Narrow, turned, turn_of};

use super::lent::{alloc, byte_of, check, free, load, start_of, store};
use super::moves::{put_out, take_input};
use super::progress::{Progress, Turn};
use super::temps::{becomes, value};
use memory::widths::{Four, One};
use opcodes::{Instr, Object};
use stops::Reason;

pub(crate) fn step(
    i: Instr,
    from: Progress,
    starts: &[u32],
    objects: &[Object],
    input: &[u32],
    temps: &mut [u32; 16],
    memory: &mut [u8],
    table: &mut [u8],
    room: &mut [u32],
) -> Turn
    requires { (Low starts.now) × (Ready (held temps.old memory.old table.old room.old) from) × (Narrow i) }
    ensures { turned result (held temps.new memory.new table.new room.new) ≡ turn_of starts.now objects.now input.now (held temps.old memory.old table.old room.old) from i }
{
    match i {
        Instr::End => Err(Reason::Finished),
        Instr::Set(d, n) => becomes(from, d, n, temps),
        Instr::Place(d, g) => becomes(from, d, start_of(starts, g), temps),
        Instr::Add(d, a, b) => {
            let sum = value(temps, a).wrapping_add(value(temps, b));
            becomes(from, d, sum, temps)
        }
        Instr::Sub(d, a, b) => {
            let difference = value(temps, a).wrapping_sub(value(temps, b));
            becomes(from, d, difference, temps)
        }
        Instr::Less(d, a, b) => {
            let less = value(temps, a) < value(temps, b);
            becomes(from, d, u32::from(less), temps)
        }
        Instr::Load8(d, a) => load::<One>(memory, temps, from, d, value(temps, a)),
        Instr::Load32(d, a) => load::<Four>(memory, temps, from, d, value(temps, a)),
        Instr::Put8(g, k, b) => store::<One>(memory, from, byte_of(starts, g, k), value(temps, b)),
        Instr::Put32(g, k, b) => store::<Four>(
            memory,
            from,
            byte_of(starts, g, k),
            value(temps, b),
        ),
        Instr::Write8(a, b, _) => store::<One>(memory, from, value(temps, a), value(temps, b)),
        Instr::Write32(a, b, _) => store::<Four>(memory, from, value(temps, a), value(temps, b)),
        Instr::Jump(p) => from.jumped(p),
        // Both ways are answered here: a function of its own is compiled to one place that the value
        // chooses, and the next instruction then waits for the value.
        Instr::JumpIf(a, p) => {
            if value(temps, a) != 0 {
                return from.jumped(p);
            }
            from.completed()
        }
        Instr::Alloc(d, g, a) => alloc(memory, table, objects, temps, from, d, g, a),
        Instr::Free(a) => free(memory, table, from, value(temps, a)),
        Instr::In(d) => take_input(input, temps, from, d),
        Instr::Out(a) => put_out(temps, room, from, a),
        Instr::Check8(a, color) => check::<One>(table, from, value(temps, a), color),
        Instr::Check32(a, color) => check::<Four>(table, from, value(temps, a), color),
        Instr::CheckPut8(g, k, color) => check::<One>(table, from, byte_of(starts, g, k), color),
        Instr::CheckPut32(g, k, color) => check::<Four>(table, from, byte_of(starts, g, k), color),
    }
}
