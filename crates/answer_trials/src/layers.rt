// What the layers below the machine answer, each as eight words.
use crate::case::Case;
use crate::digest::digest_bytes;
use crate::lent::{filled_room, within, word};
use crate::listing::digest_of;
use coloring::read_colored;
use files::{Loaded, WriteError};
use numbers::Cursor;
use numbers::refusal::Refusal;

// A refusal with the digest of a room, 0 where none was lent.
fn refused(q: Refusal, room: u32) -> [u32; 8] {
    [
        u32::from(q.cause.number()),
        word(q.place),
        0,
        0,
        0,
        room,
        0,
        0,
    ]
}

// The room was too small.
fn too_small(room: u32) -> [u32; 8] {
    [10, 0, 0, 0, 0, room, 0, 0]
}

pub(crate) fn read_one_number(case: Case, file: &[u8]) -> [u32; 8] {
    let at = case.cursor as usize;
    match numbers::read_number(file, Cursor { at }) {
        Ok((value, next)) => [0, 0, value, word(next.at), 0, 0, 0, 0],
        Err(q) => refused(q, 0),
    }
}

fn write_number_in(room: &mut [u8], cursor: u32, n: u32) -> [u32; 8] {
    let written = numbers::write_number(room, cursor as usize, n);
    let digest = digest_bytes(room);
    match written {
        Some(next) => {
            let behind = word(next);
            let length = behind.wrapping_sub(cursor);
            [0, 0, length, behind, 0, digest, 0, 0]
        }
        None => too_small(digest),
    }
}

pub(crate) fn write_one_number(case: Case) -> [u32; 8] {
    let fill = case.fill;
    let mut room = filled_room(fill);
    let length = within(case.room, &room);
    write_number_in(&mut room[..length], case.cursor, case.limit)
}

// The counts of what was read as a version, and its digest.
fn read_as(version: u32, read: Result<Loaded, Refusal>) -> [u32; 8] {
    match read {
        Ok(held) => [
            0,
            0,
            word(held.objects.count),
            word(held.sets.count),
            word(held.code.count),
            digest_of(version, &held),
            0,
            0,
        ],
        Err(q) => refused(q, 0),
    }
}

pub(crate) fn read_version_1(file: &[u8]) -> [u32; 8] {
    read_as(1, files::read_routine(file))
}

pub(crate) fn read_version_2(file: &[u8]) -> [u32; 8] {
    read_as(2, files::read_program(file))
}

fn write_file_in(file: &[u8], room: &mut [u8]) -> [u32; 8] {
    let held = match files::read_program(file) {
        Ok(held) => held,
        Err(q) => return refused(q, digest_bytes(room)),
    };
    let written = writer::write_program(&held, room);
    let digest = digest_bytes(room);
    match written {
        Ok(length) => [0, 0, word(length), 0, 0, digest, 0, 0],
        Err(WriteError::TooSmall) => too_small(digest),
        // Never so for a file that was read: no refusal has this number.
        Err(WriteError::NoProgram) => [99, 0, 0, 0, 0, digest, 0, 0],
    }
}

pub(crate) fn write_version_2(case: Case, file: &[u8]) -> [u32; 8] {
    let fill = case.fill;
    let mut room = filled_room(fill);
    let length = within(case.room, &room);
    write_file_in(file, &mut room[..length])
}

pub(crate) fn color(file: &[u8]) -> [u32; 8] {
    match read_colored(file) {
        Ok(held) => {
            let colors = held.objects.list.map(|o| o.color);
            let count = within(word(held.objects.count), &colors);
            let digest = digest_bytes(&colors[..count]);
            [0, 0, word(held.objects.count), 0, 0, digest, 0, 0]
        }
        Err(q) => refused(q, 0),
    }
}

fn instrument_in(file: &[u8], room: &mut [u8]) -> [u32; 8] {
    let answer = instrumenter::instrument(file, room);
    let digest = digest_bytes(room);
    match answer {
        Ok(length) => [0, 0, word(length), 0, 0, digest, 0, 0],
        Err(q) => refused(q, digest),
    }
}

pub(crate) fn instrument_file(case: Case, file: &[u8]) -> [u32; 8] {
    let fill = case.fill;
    let mut room = filled_room(fill);
    let length = within(case.room, &room);
    instrument_in(file, &mut room[..length])
}
