// The program's arguments as input numbers, in decimal, 0 to 4,294,967,295.
use std::env::FillError;
use std::io;
use std::rt::Env;

// Why an argument gives no number.
#[derive(Clone, Copy)]
enum ArgumentError {
    NoNumber,
    // There are no more arguments.
    Missing,
}

// More digits than this are not looked at.
const MOST_DIGITS: usize = 64;

// The number that a text of digits spells. An empty text spells none, and a sign is no digit.
fn number_in(text: &[u8]) -> Option<u32> {
    if text.is_empty() {
        return None;
    }
    let mut value = 0u32;
    for &byte in text {
        if byte < b'0' || b'9' < byte {
            return None;
        }
        let digit = u32::from(byte - b'0');
        value = value.checked_mul(10)?.checked_add(digit)?;
    }
    Some(value)
}

// The argument with this number. One that is too long for the text is no number.
fn number_given(rt: &impl Env, i: usize) -> Result<u32, ArgumentError> {
    let mut text = [0u8; MOST_DIGITS];
    match rt.arg(i, &mut text) {
        Ok(length) => number_in(&text[..length]).ok_or(ArgumentError::NoNumber),
        Err(FillError::TooLong) => Err(ArgumentError::NoNumber),
        Err(FillError::NotPresent) => Err(ArgumentError::Missing),
    }
}

// Puts the arguments behind the program's name into the room and answers how many there are; where one is no
// number or there are too many, `None`, and standard error says so.
pub(crate) fn read_inputs(rt: &(impl Env + Eprint), room: &mut [u32]) -> io::Result<Option<usize>> {
    let most = room.len();
    for i in 0..most {
        match number_given(rt, i + 1) {
            Ok(n) => {
                room[i] = n;
            }
            Err(ArgumentError::NoNumber) => {
                eprintln!(rt; "input {} is no decimal number from 0 to 4294967295", i + 1)?;
                return Ok(None);
            }
            Err(ArgumentError::Missing) => return Ok(Some(i)),
        }
    }
    if let Err(ArgumentError::Missing) = number_given(rt, most + 1) {
        return Ok(Some(most));
    }
    eprintln!(rt; "too many inputs")?;
    Ok(None)
}
