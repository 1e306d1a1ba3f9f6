// Instruments the routine on standard input: its version 2 file goes to standard output. Of a routine
// that is refused nothing goes there, and standard error says `refused NUMBER PLACE`.
#![tactic(auto)]

ghost use Rattle.std.specs.Prelude.{◌≡◌, ◌≤◌, IfOk, length};

use std::io;
use std::io::{Read, Write};

// One byte more than the longest file, so that a longer one is seen to be too long.
const LONGEST: usize = 16385;

fn write_file(rt: &(impl Print + Eprint), room: &[u8], length: usize) -> io::Result<()> {
    let Some(bytes) = room.get(..length) else {
        return Ok(());
    };
    match io::writer(rt).write_all(bytes) {
        Ok(()) => Ok(()),
        // As where the disk is full.
        Err(e) => eprintln!(rt; "standard output: {e}"),
    }
}

fn instrument_file(rt: &(impl Print + Eprint), file: &[u8]) -> io::Result<()> {
    let mut room = [0u8; 32768];
    match instrumenter::instrument(file, &mut room) {
        Ok(length) => write_file(rt, &room, length),
        Err(why) => eprintln!(rt; "refused {why}"),
    }
}

// Reads until the buffer is full or the input ends, and returns how many bytes that were. The buffer keeps its
// length. Each program has this function for itself (docs/DECISIONS.md, D-64).
fn read_full(input: &mut impl Read, buffer: &mut [u8]) -> io::Result<usize>
    ensures count { IfOk result (λ n. n ≤ length buffer.new) }
    ensures length { length buffer.new ≡ length buffer.old }
{
    let mut done = 0;
    while done < buffer.len() {
        let n = input.read(&mut buffer[done..])?;
        if n == 0 {
            break;
        }
        done += n;
    }
    Ok(done)
}

fn main(rt: HostRuntime) -> io::Result<()> {
    let mut file = [0u8; LONGEST];
    match read_full(&mut rt.stdin(), &mut file) {
        Ok(length) => instrument_file(&rt, &file[..length]),
        // As where standard input is a folder.
        Err(e) => eprintln!(rt; "standard input: {e}"),
    }
}
