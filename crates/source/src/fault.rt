// What is wrong with a source, and where.
ghost use Rattle.std.specs.Prelude.{◌≡◌};
ghost use Rattle.source.specs.declared.fault.Unread.TheVariants.{NoMemory};

use std::alloc::{AllocError, AllocFailed};
use std::error::Error;
use std::fmt;

// What should stand where something else does.
#[derive(Clone, Copy, PartialEq, Eq, Debug)]
pub enum Expected {
    Statement,
    Mnemonic,
    Register,
    Value,
    Name,
    Number,
    Constant,
    OneLabel,
    Comma,
    Opening,
    Closing,
    EndOfLine,
    NewName,
    Defined,
    LocalBefore,
    Upper,
    Cores,
    Lines,
    Once,
}

impl fmt::Display for Expected {
    fn fmt<W: fmt::Write>(&self, f: &mut fmt::Formatter<W>) -> fmt::Result {
        f.write_str(match self {
            Expected::Statement => "an instruction, a directive or a label",
            Expected::Mnemonic => "a mnemonic or a directive that is known",
            Expected::Register =>
                "a register: x0 to x31, or zero ra sp gp tp t0 to t6 s0 to s11 fp a0 to a7",
            Expected::Value => "a number or a name",
            Expected::Name => "a name",
            Expected::Number => "a number of at most 32 bits, or a local label as 1b or 1f",
            Expected::Constant => "a number, or a name that .equ or .set has defined before",
            Expected::OneLabel => "a number: one label may be added, and one subtracted",
            Expected::Comma => "a comma",
            Expected::Opening => "an opening bracket",
            Expected::Closing => "a closing bracket",
            Expected::EndOfLine => "the end of the line",
            Expected::NewName => "a name that does not stand for something else already",
            Expected::Defined => "a label that stands somewhere in the source",
            Expected::LocalBefore => "a local label that stands before",
            Expected::Upper => "a number from 0 to 1048575, or %hi",
            Expected::Cores => "1 to 4 cores",
            Expected::Lines => "1 to 65536 lines",
            Expected::Once => "this directive once only",
        })
    }
}

// A place in a source, lines and columns counted from 1, with what was expected there.
#[derive(Clone, Copy, PartialEq, Eq, Debug)]
pub struct Fault {
    pub line: usize,
    pub column: usize,
    pub expected: Expected,
}

impl fmt::Display for Fault {
    fn fmt<W: fmt::Write>(&self, f: &mut fmt::Formatter<W>) -> fmt::Result {
        write!(
            f,
            "{}:{}: expected {}",
            self.line, self.column, self.expected
        )
    }
}

impl Error for Fault {}

// Why a line is not read: a fault at a column, or no memory for it.
#[derive(Clone, Copy)]
pub(crate) enum Unread {
    At(usize, Expected),
    NoMemory(AllocError),
}

impl From<AllocError> for Unread {
    ghost from_gives = { λ e unread. unread ≡ NoMemory e };

    fn from(e: AllocError) -> Self {
        Unread::NoMemory(e)
    }
}

impl<T: Drop> From<AllocFailed<T>> for Unread {
    fn from(e: AllocFailed<T>) -> Self {
        Unread::NoMemory(e.into())
    }
}
