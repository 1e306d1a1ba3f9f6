// Why a file is not taken: 01's refusals, each with its number and its place.
ghost use Rattle.std.specs.Prelude.{◌≡◌, Some};
ghost use Rattle.numbers.specs.Refusals.{refusal_text};

use std::fmt;

// A reason to refuse a file, or to refuse to run.
#[derive(Clone, Copy)]
pub enum Cause {
    TooLong,
    EndsEarly,
    // Not the shortest spelling, or above 32 bits.
    BadNumber,
    Version,
    Count,
    // Any other number out of its range or order.
    Field,
    // Bytes behind the last instruction.
    Surplus,
    ManyClasses,
    LargeGlobals,
    SmallRoom,
    // Memory or table not of its exact length.
    WrongLength,
    // A number that 01 does not have. Nothing here answers with one; what takes a refusal takes it too.
    Other(u8),
}

impl Cause {
    ghost use Rattle.numbers.specs.Refusals.{refusal_number};

    // The number that 01 gives it.
    pub fn number(self) -> u8
        ensures { result ≡ refusal_number self }
    {
        match self {
            Cause::TooLong => 1,
            Cause::EndsEarly => 2,
            Cause::BadNumber => 3,
            Cause::Version => 4,
            Cause::Count => 5,
            Cause::Field => 6,
            Cause::Surplus => 7,
            Cause::ManyClasses => 8,
            Cause::LargeGlobals => 9,
            Cause::SmallRoom => 10,
            Cause::WrongLength => 11,
            Cause::Other(number) => number,
        }
    }
}

// A reason with the place that goes with it.
#[derive(Clone, Copy)]
pub struct Refusal {
    pub cause: Cause,
    pub place: usize,
}

// Number and place, with a blank between.
impl fmt::Display for Refusal {
    ghost output = { λ q. Some (refusal_text q) };

    fn fmt<W: fmt::Write>(&self, f: &mut fmt::Formatter<W>) -> fmt::Result {
        write!(f, "{} {}", self.cause.number(), self.place)
    }
}
