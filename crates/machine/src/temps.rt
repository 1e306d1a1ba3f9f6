// The temporaries. An operand names one of them, which the reader has seen to: nothing is tested here.
ghost use Rattle.std.specs.Prelude.{◌≡◌, ◌<◌, Ok, slice_set};
ghost use Rattle.machine.specs.Turn.{Counts, onward};
ghost use Rattle.machine.specs.State.{temp};

use super::progress::{Progress, Turn};

pub(crate) fn value(temps: &[u32; 16], a: u8) -> u32
    requires { a < 16 }
    ensures { result ≡ temp temps.now a }
{
    temps[a as usize]
}

// d becomes a number.
pub(crate) fn becomes(from: Progress, d: u8, value: u32, temps: &mut [u32; 16]) -> Turn
    requires { (Counts from) × (d < 16) }
    ensures value { result ≡ Ok (onward from) }
    ensures temps_after { temps.new ≡ slice_set temps.old d value }
{
    temps[d as usize] = value;
    from.completed()
}
