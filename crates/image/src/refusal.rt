// How a memory, choices or lent slices are refused.
ghost use Rattle.std.specs.Prelude.{◌≡◌, Some};
ghost use Rattle.image.specs.Refusals.{number, place, text};

use std::error::Error;
use std::fmt;

// What a byte of the choices, or one that is missing, is refused for.
#[derive(Clone, Copy, PartialEq, Eq, Debug)]
pub enum ChoiceFault {
    CutShort,
    NoSuchCore,
    NotRising,
    TooManyCycles,
}

// A slice that the caller lends.
#[derive(Clone, Copy, PartialEq, Eq, Debug)]
pub enum LentSlice {
    Board,
    Chip,
    Said,
}

// Why nothing was run.
#[derive(Clone, Copy, PartialEq, Eq, Debug)]
pub enum Refusal {
    MemoryEnds { length: usize },
    MemoryGoesOn { at: usize },
    NoMagic,
    Cores,
    Lines,
    Choices { fault: ChoiceFault, at: usize },
    Lent(LentSlice),
}

impl Refusal {
    // The number that a reader of refusals knows it by.
    pub fn number(self) -> u64
        ensures { result ≡ number self }
    {
        match self {
            Refusal::MemoryEnds { .. } | Refusal::MemoryGoesOn { .. } => 1,
            Refusal::NoMagic | Refusal::Cores | Refusal::Lines => 2,
            Refusal::Choices { .. } => 3,
            Refusal::Lent(_) => 4,
        }
    }

    // The byte in fault, or which of the lent slices.
    pub fn place(self) -> u64
        ensures { result ≡ place self }
    {
        match self {
            Refusal::MemoryEnds { length } => length as u64,
            Refusal::MemoryGoesOn { at } => at as u64,
            Refusal::NoMagic => 0,
            Refusal::Cores => 4,
            Refusal::Lines => 5,
            Refusal::Choices { at, .. } => at as u64,
            Refusal::Lent(LentSlice::Board) => 0,
            Refusal::Lent(LentSlice::Chip) => 1,
            Refusal::Lent(LentSlice::Said) => 2,
        }
    }
}

// As programs print it.
impl fmt::Display for Refusal {
    ghost output = { λ r. Some (text r) };

    fn fmt<W: fmt::Write>(&self, f: &mut fmt::Formatter<W>) -> fmt::Result {
        write!(f, "refused {} at {}", self.number(), self.place())
    }
}

impl Error for Refusal {}
