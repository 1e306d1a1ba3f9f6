// Instruments the routine on standard input and runs it with no input, an output room of 1,000 and the
// limit 1,000,000. Prints the run's five numbers with single blanks and a newline; of a refusal its
// number and place.
#![tactic(auto)]

ghost use Rattle.std.specs.Prelude.{◌≡◌, ◌≤◌, IfOk, length};

use std::io;
use std::io::Read;

// One byte more than the longest file, so that a longer one is seen to be too long.
const LONGEST: usize = 16385;

fn run_routine(rt: &impl Print, file: &[u8]) -> io::Result<()> {
    let none = [0u32; 0];
    let mut memory = [0u8; 57344];
    let mut table = [0u8; 7168];
    let mut room = [0u32; 1000];
    let run = controller::control(file, &none, &mut memory, &mut table, &mut room, 1000000);
    println!(rt; "{run}")
}

// Reads until the buffer is full or the input ends, and returns how many bytes that were. The buffer keeps its
// length. Each program has this function for itself (docs/DECISIONS.md, D-64).
fn read_full(input: &mut impl Read, buffer: &mut [u8]) -> io::Result<usize>
    ensures count { IfOk result (λ n. n ≤ length buffer.new) }
    ensures length { length buffer.new ≡ length buffer.old }
{
    let mut done = 0;
    while done < buffer.len() {
        let n = input.read(&mut buffer[done..])?;
        if n == 0 {
            break;
        }
        done += n;
    }
    Ok(done)
}

fn main(rt: HostRuntime) -> io::Result<()> {
    let mut file = [0u8; LONGEST];
    match read_full(&mut rt.stdin(), &mut file) {
        Ok(length) => run_routine(&rt, &file[..length]),
        // As where standard input is a folder.
        Err(e) => eprintln!(rt; "standard input: {e}"),
    }
}
