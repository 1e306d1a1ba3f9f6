// The run loop. It copies nothing but one instruction in a turn.
ghost use Rattle.std.specs.Prelude.{◌≡◌, ◌≤◌, length};
ghost use Rattle.memory.specs.Memory.{memory_size, table_size};
ghost use Rattle.machine.specs.Turn.{Low, AllNarrow, run_held, record_at};
ghost use Rattle.machine.specs.Running.{answered, lent_of};

use super::progress::Progress;
use super::step::step;
use opcodes::{Instr, Object};
use stops::place::recorded;
use stops::{Reason, Run};

// The record of a stop.
fn stopped(code: &[Instr], now: Progress, reason: Reason) -> Run
    ensures { result ≡ record_at code.now now reason }
{
    recorded(code, now.at, now.steps, now.out, now.taken, reason)
}

pub(crate) fn run_code(
    code: &[Instr],
    starts: &[u32],
    objects: &[Object],
    input: &[u32],
    limit: u32,
    memory: &mut [u8],
    table: &mut [u8],
    room: &mut [u32],
) -> Run
    requires { (length code.now ≤ 2000) × (Low starts.now) × (length memory.old ≡ memory_size) × (length table.old ≡ table_size) × (AllNarrow code.now) }
    ensures { answered result (lent_of memory.new table.new room.new) ≡ run_held code.now starts.now objects.now input.now limit (lent_of memory.old table.old room.old) }
{
    let mut temps = [0; 16];
    let mut now = Progress {
        taken: 0,
        out: 0,
        at: 0,
        steps: 0,
    };
    // Past the last one first, then the limit, and both before a check too.
    while let Some(i) = code.get(now.at) {
        if limit <= now.steps {
            return stopped(code, now, Reason::LimitUsed);
        }
        match step(
            *i, now, starts, objects, input, &mut temps, memory, table, room,
        ) {
            Ok(next) => now = next,
            Err(reason) => return stopped(code, now, reason),
        }
    }
    stopped(code, now, Reason::PastEnd)
}
