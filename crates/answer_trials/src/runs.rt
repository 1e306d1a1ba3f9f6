// What machine and controller answer: a run's five numbers, and the digests of memory, table and output
// room after it.
use crate::case::Case;
use crate::digest::{digest_bytes, digest_numbers};
use crate::lent::{filled_memory, filled_numbers, filled_table, low_word, within};
use stops::{Run, numbers_of};

fn recorded(run: Run, memory: &[u8], table: &[u8], room: &[u32]) -> [u32; 8] {
    let [number, place, steps, out, taken] = numbers_of(run).map(low_word);
    [
        number,
        place,
        steps,
        out,
        taken,
        digest_bytes(memory),
        digest_bytes(table),
        digest_numbers(room),
    ]
}

// Kind 8 runs a version 2 file; kind 9 is the controller, which instruments a routine and runs it.
fn run_by(
    kind: u8,
    file: &[u8],
    input: &[u32],
    memory: &mut [u8],
    table: &mut [u8],
    room: &mut [u32],
    limit: u32,
) -> Run {
    if kind == 8 {
        return machine::run_file(file, input, memory, table, room, limit);
    }
    controller::control(file, input, memory, table, room, limit)
}

fn run_in(
    case: Case,
    file: &[u8],
    input: &[u32],
    memory: &mut [u8],
    table: &mut [u8],
    room: &mut [u32],
) -> [u32; 8] {
    let run = run_by(case.kind, file, input, memory, table, room, case.limit);
    recorded(run, memory, table, room)
}

pub(crate) fn run_case(case: Case, file: &[u8], input: &[u32]) -> [u32; 8] {
    let fill = case.fill;
    let mut memory = filled_memory(fill);
    let mut table = filled_table(fill);
    let mut room = filled_numbers(fill);
    let bytes = within(case.memory, &memory);
    let slots = within(case.table, &table);
    let count = within(case.room, &room);
    run_in(
        case,
        file,
        input,
        &mut memory[..bytes],
        &mut table[..slots],
        &mut room[..count],
    )
}
