// The trials' other side: reads cases from standard input and writes what each layer answers, as
// rust/PROTOCOL.md says, until a case of kind 0 or the end of the input.
#![tactic(auto)]

mod case; // case.rt: a case, and reading it
mod digest; // digest.rt: the digest of bytes and numbers
mod layers; // layers.rt: numbers, files, coloring and instrumenting
mod lent; // lent.rt: the part of an array that a case asks for
mod listing; // listing.rt: the digest of the numbers that a file was read as
mod runs; // runs.rt: machine and controller

use case::{Case, case_in, read_front, read_inputs};
use layers::{
    color, instrument_file, read_one_number, read_version_1, read_version_2, write_one_number,
    write_version_2,
};
use lent::{filled_numbers, filled_room, within};
use runs::run_case;
use std::io::{Read, Write};

// What a layer answers to a case.
fn answer_to(case: Case, file: &[u8], input: &[u32]) -> [u32; 8] {
    let kind = case.kind;
    match kind {
        1 => read_one_number(case, file),
        2 => write_one_number(case),
        3 => read_version_1(file),
        4 => read_version_2(file),
        5 => write_version_2(case, file),
        6 => color(file),
        7 => instrument_file(case, file),
        _ => run_case(case, file, input),
    }
}

// Writes an answer and says whether it was taken.
fn write_answer(output: &mut impl Write, words: [u32; 8]) -> bool {
    let mut bytes = [0u8; 32];
    let (places, _) = bytes.as_chunks_mut::<4>();
    for (place, word) in places.iter_mut().zip(words) {
        *place = word.to_le_bytes();
    }
    output.write_all(&bytes).is_ok()
}

// Reads what stands behind a header, and answers the case. A case that is cut off is not answered.
fn answer_case(input: &mut impl Read, output: &mut impl Write, case: Case) -> bool {
    let mut file = filled_room(0);
    if !read_front(input, &mut file, case.file) {
        return false;
    }
    let mut numbers = filled_numbers(0);
    if !read_inputs(input, case.inputs, &mut numbers) {
        return false;
    }
    let length = within(case.file, &file);
    let count = within(case.inputs, &numbers);
    write_answer(output, answer_to(case, &file[..length], &numbers[..count]))
}

// One case, and whether another may follow.
fn answer_next(input: &mut impl Read, output: &mut impl Write) -> bool {
    let mut header = [0u8; 32];
    if !read_front(input, &mut header, 32) {
        return false;
    }
    let case = case_in(&header);
    let kind = case.kind;
    if kind == 0 || 9 < kind {
        return false;
    }
    answer_case(input, output, case)
}

// A proved loop has to end, and nothing says that the cases do: the turns are counted down from a number
// that no trial uses up.
fn main(rt: HostRuntime) {
    let mut input = rt.stdin();
    let mut output = rt.stdout();
    let mut turns = u64::MAX;
    while turns > 0 && answer_next(&mut input, &mut output) {
        turns -= 1;
    }
}
