// Runs the file on standard input. The program's arguments are numbers in decimal: the version of the
// file, the limit, the room for numbers out, and behind them the input numbers. A file of version 1 goes
// through the controller, which instruments it; any other is run as version 2. Prints the run's five
// numbers with single blanks and a newline, and then the numbers put out, one to a line; of a refusal its
// number and place.
#![tactic(auto)]

mod inputs; // inputs.rt: the arguments as numbers

ghost use Rattle.std.specs.Prelude.{◌≡◌, ◌≤◌, IfOk, length};

use inputs::read_inputs;
use std::io;
use std::io::Read;
use std::rt::Env;
use stops::Run;

// One byte more than the longest file, so that a longer one is seen to be too long.
const LONGEST: usize = 32769;

// Version, limit and room, and 1,000 inputs: more than that is a mistake in use.
const MOST_WORDS: usize = 1003;

// The largest room.
const MOST_ROOM: usize = 65536;

fn run_file(version: u32, limit: u32, file: &[u8], input: &[u32], room: &mut [u32]) -> Run {
    let mut memory = [0u8; 57344];
    let mut table = [0u8; 7168];
    if version == 1 {
        return controller::control(file, input, &mut memory, &mut table, room, limit);
    }
    machine::run_file(file, input, &mut memory, &mut table, room, limit)
}

fn run_and_print(
    rt: &impl Print,
    version: u32,
    limit: u32,
    file: &[u8],
    input: &[u32],
    room: &mut [u32],
) -> io::Result<()> {
    let run = run_file(version, limit, file, input, room);
    println!(rt; "{run}")?;
    for n in room.iter().take(run.out) {
        println!(rt; "{n}")?;
    }
    Ok(())
}

// Runs with a room of this many numbers.
fn run_in_room(
    rt: &(impl Print + Eprint),
    version: u32,
    limit: u32,
    size: u32,
    file: &[u8],
    input: &[u32],
) -> io::Result<()> {
    let mut room = [0u32; MOST_ROOM];
    let count = size as usize;
    if count <= MOST_ROOM {
        run_and_print(rt, version, limit, file, input, &mut room[..count])
    } else {
        eprintln!(rt; "the room is larger than 65536")
    }
}

// Runs with these words: version, limit, room, and the inputs.
fn run_on(rt: &(impl Print + Eprint), file: &[u8], words: &[u32]) -> io::Result<()> {
    let [version, limit, size, input @ ..] = words else {
        return eprintln!(rt; "version, limit and room are missing");
    };
    run_in_room(rt, *version, *limit, *size, file, input)
}

fn run_with(rt: &(impl Print + Eprint + Env), file: &[u8]) -> io::Result<()> {
    let mut words = [0u32; MOST_WORDS];
    let Some(count) = read_inputs(rt, &mut words)? else {
        return Ok(());
    };
    match words.get(..count) {
        Some(given) => run_on(rt, file, given),
        None => Ok(()),
    }
}

// Reads until the buffer is full or the input ends, and returns how many bytes that were. The buffer keeps its
// length. Each program has this function for itself (docs/DECISIONS.md, D-64).
fn read_full(input: &mut impl Read, buffer: &mut [u8]) -> io::Result<usize>
    ensures count { IfOk result (λ n. n ≤ length buffer.new) }
    ensures length { length buffer.new ≡ length buffer.old }
{
    let mut done = 0;
    while done < buffer.len() {
        let n = input.read(&mut buffer[done..])?;
        if n == 0 {
            break;
        }
        done += n;
    }
    Ok(done)
}

fn main(rt: HostRuntime) -> io::Result<()> {
    let mut file = [0u8; LONGEST];
    match read_full(&mut rt.stdin(), &mut file) {
        Ok(length) => run_with(&rt, &file[..length]),
        // As where standard input is a folder.
        Err(e) => eprintln!(rt; "standard input: {e}"),
    }
}
