// The digest of a row of numbers below 2^32: from 1, for each number times the factor plus the number,
// modulo the largest prime below 2^32. Of bytes eight are taken at once: they are worth their sum, each times
// the factor's power that it would get one by one. Nothing in it passes 2^64.

const MODULUS: u64 = 4294967291;

const FACTOR: u64 = 16777619;

// The factor's eighth power, modulo the modulus.
const EIGHTH_POWER: u64 = 4064249924;

// The digest of no numbers.
pub const EMPTY: u32 = 1;

// The digest with one number more.
pub(crate) fn joined(held: u32, number: u32) -> u32 {
    ((u64::from(held) * FACTOR + u64::from(number)) % MODULUS) as u32
}

// What eight bytes are worth: each times the factor's power for its place, modulo the modulus.
fn worth(row: &[u8; 8]) -> u64 {
    let [a, b, c, d, e, f, g, h] = *row;
    u64::from(a) * 60496965
        + u64::from(b) * 3702781328
        + u64::from(c) * 3446143870
        + u64::from(d) * 2842014495
        + u64::from(e) * 1451487606
        + u64::from(f) * 638024312
        + u64::from(g) * FACTOR
        + u64::from(h)
}

// The digest with a row of eight bytes more.
fn joined_row(held: u32, row: &[u8; 8]) -> u32 {
    let worth = worth(row) % MODULUS;
    ((u64::from(held) * EIGHTH_POWER + worth) % MODULUS) as u32
}

pub(crate) fn digest_bytes(bytes: &[u8]) -> u32 {
    let (rows, rest) = bytes.as_chunks::<8>();
    let held = rows.iter().fold(EMPTY, joined_row);
    rest.iter()
        .fold(held, |held, &byte| joined(held, u32::from(byte)))
}

pub(crate) fn digest_numbers(numbers: &[u32]) -> u32 {
    numbers
        .iter()
        .fold(EMPTY, |held, &number| joined(held, number))
}
