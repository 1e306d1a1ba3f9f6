// What is lent: arrays as large as any case asks for, filled with the case's byte, and the part of an array that
// a case asks for.
ghost use Rattle.std.specs.Prelude.{◌≡◌, length};
ghost use Rattle.answer_trials.specs.Counts.{IsPrefixLen};

pub(crate) fn filled_room(fill: u8) -> [u8; 40960]
    ensures { 40960 ≡ length result }
{
    [fill; 40960]
}

pub(crate) fn filled_memory(fill: u8) -> [u8; 57408]
    ensures { 57408 ≡ length result }
{
    [fill; 57408]
}

pub(crate) fn filled_table(fill: u8) -> [u8; 7232]
    ensures { 7232 ≡ length result }
{
    [fill; 7232]
}

// A number for the output holds the fill in all four of its bytes.
pub(crate) fn filled_numbers(fill: u8) -> [u32; 1024]
    ensures { 1024 ≡ length result }
{
    let number = fill as u32 * 16843009;
    [number; 1024]
}

// How many elements at the front of an array a case asks for. The protocol keeps it within the array.
pub(crate) fn within<T>(n: u32, array: &[T]) -> usize
    ensures { IsPrefixLen result array.now }
{
    array.len().min(n as usize)
}

// A length or place as a word. None of them reaches 2^32.
pub(crate) fn word(n: usize) -> u32 {
    (n % 4294967296) as u32
}

// A number of a record as a word. None of them reaches 2^32.
pub(crate) fn low_word(n: u64) -> u32 {
    (n % 4294967296) as u32
}
