// Shows the objects of the file on standard input, one to a line with single blanks: number, kind (global
// or site), size, class (its lowest object, or the word safe), color, and start (the address of a global).
// A site has no size and no start, and `-` stands for them. Of a file that is refused, the number and place
// of the refusal. A file whose first byte is 2 is read as version 2, any other as version 1.
#![tactic(auto)]

ghost use Rattle.std.specs.Prelude.{◌≡◌, ◌≤◌, IfOk, length};

use coloring::read_colored;
use files::{Loaded, Objects};
use layout::lay_out;
use numbers::refusal::{Cause, Refusal};
use std::io::Read;
use std::{fmt, io};

// One byte more than the longest file, so that a longer one is seen to be too long.
const LONGEST: usize = 32769;

// Where the globals must end.
const GLOBALS_END: u32 = 28672;

// What is shown of one object.
#[derive(Clone, Copy)]
struct Row {
    number: usize,
    // The size and the start of a global; a site has neither.
    global: Option<(u16, u32)>,
    // The lowest object of its class; a safe object has none.
    class: Option<usize>,
    color: u8,
}

impl fmt::Display for Row {
    fn fmt<W: fmt::Write>(&self, f: &mut fmt::Formatter<W>) -> fmt::Result {
        write!(f, "{}", self.number)?;
        match self.global {
            Some((size, _)) => write!(f, " global {size}")?,
            None => write!(f, " site -")?,
        }
        match self.class {
            Some(class) => write!(f, " {class} {}", self.color)?,
            None => write!(f, " safe {}", self.color)?,
        }
        match self.global {
            Some((_, start)) => write!(f, " {start}"),
            None => write!(f, " -"),
        }
    }
}

// The lowest object of a color: classes and colors go together.
fn lowest(objects: &Objects, color: u8) -> Option<usize> {
    objects.list.iter().position(|o| o.color == color)
}

fn print_objects(rt: &impl Print, objects: &Objects) -> io::Result<()> {
    let layout = lay_out(objects);
    if GLOBALS_END < layout.end {
        let why = Refusal {
            cause: Cause::LargeGlobals,
            place: 0,
        };
        return println!(rt; "{why}");
    }
    let rows = objects.list.iter().zip(layout.starts.iter());
    for (number, (object, start)) in rows.enumerate().take(objects.count) {
        let row = Row {
            number,
            global: if object.kind == 0 {
                Some((object.size, *start))
            } else {
                None
            },
            class: if object.color == 0 {
                None
            } else {
                lowest(objects, object.color)
            },
            color: object.color,
        };
        println!(rt; "{row}")?;
    }
    Ok(())
}

// The file as it is held, with the colors that its version gives its objects.
fn read_either(file: &[u8]) -> Result<Loaded, Refusal> {
    if file.first() == Some(&2) {
        files::read_program(file)
    } else {
        read_colored(file)
    }
}

fn show_objects(rt: &impl Print, file: &[u8]) -> io::Result<()> {
    match &read_either(file) {
        Ok(held) => print_objects(rt, &held.objects),
        Err(why) => println!(rt; "{why}"),
    }
}

// Reads until the buffer is full or the input ends, and returns how many bytes that were. The buffer keeps its
// length. Each program has this function for itself (docs/DECISIONS.md, D-64).
fn read_full(input: &mut impl Read, buffer: &mut [u8]) -> io::Result<usize>
    ensures count { IfOk result (λ n. n ≤ length buffer.new) }
    ensures length { length buffer.new ≡ length buffer.old }
{
    let mut done = 0;
    while done < buffer.len() {
        let n = input.read(&mut buffer[done..])?;
        if n == 0 {
            break;
        }
        done += n;
    }
    Ok(done)
}

fn main(rt: HostRuntime) -> io::Result<()> {
    let mut file = [0u8; LONGEST];
    match read_full(&mut rt.stdin(), &mut file) {
        Ok(length) => show_objects(&rt, &file[..length]),
        // As where standard input is a folder.
        Err(e) => eprintln!(rt; "standard input: {e}"),
    }
}
