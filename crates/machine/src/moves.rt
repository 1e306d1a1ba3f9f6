// The numbers that come in and go out.
ghost use Rattle.std.specs.Prelude.{◌≡◌, ◌<◌, slice_set};
ghost use Rattle.machine.specs.State.{temp};
ghost use Rattle.machine.specs.Turn.{Counts, input_turn, input_temps, output_turn};

use super::progress::{Progress, Turn};
use super::temps::value;
use stops::Reason;

// d becomes the next input number.
pub(crate) fn take_input(input: &[u32], temps: &mut [u32; 16], from: Progress, d: u8) -> Turn
    requires { (Counts from) × (d < 16) }
    ensures value { result ≡ input_turn input.now from }
    ensures temps_after { temps.new ≡ input_temps input.now from temps.old d }
{
    let number = *input.get(from.taken).ok_or(Reason::NoInput)?;
    temps[d as usize] = number;
    Ok(Progress {
        at: from.at + 1,
        steps: from.steps + 1,
        out: from.out,
        taken: from.taken + 1,
    })
}

// One output number.
pub(crate) fn put_out(temps: &[u32; 16], room: &mut [u32], from: Progress, a: u8) -> Turn
    requires { (Counts from) × (a < 16) }
    ensures value { result ≡ output_turn room.old from }
    ensures room_after { room.new ≡ slice_set room.old from.out (temp temps.now a) }
{
    if room.len() <= from.out {
        return Err(Reason::NoRoom);
    }
    room[from.out] = value(temps, a);
    Ok(Progress {
        at: from.at + 1,
        steps: from.steps + 1,
        out: from.out + 1,
        taken: from.taken,
    })
}
