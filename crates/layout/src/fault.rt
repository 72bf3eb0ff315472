// What is wrong with a statement, and why no memory is made.
ghost use Rattle.std.specs.Prelude.{◌≡◌};
ghost use Rattle.layout.specs.declared.fault.Fault.TheVariants.{NoWord};
ghost use Rattle.layout.specs.declared.fault.LayoutError.TheVariants.{OutOfMemory};

use encode::misfit::Misfit;
use std::alloc::AllocError;
use std::error::Error;
use std::fmt;

// What is wrong with a statement.
#[derive(Clone, Copy, PartialEq, Eq, Debug)]
pub enum Fault {
    // it would end past memory
    Outside,
    // an origin below the address that is reached
    Backwards,
    // an instruction at an address that is no multiple of 4, from where none is fetched
    Misaligned,
    // an instruction that no word stands for
    NoWord(Misfit),
    // data that its width cannot hold
    TooWide,
}

impl From<Misfit> for Fault {
    ghost from_gives = { λ misfit fault. fault ≡ NoWord misfit };

    fn from(misfit: Misfit) -> Self {
        Fault::NoWord(misfit)
    }
}

// What the statement should be, or where.
impl fmt::Display for Fault {
    fn fmt<W: fmt::Write>(&self, f: &mut fmt::Formatter<W>) -> fmt::Result {
        match self {
            Fault::Outside => f.write_str("a place inside memory, whose end is passed"),
            Fault::Backwards => f.write_str("an origin at or after the address that is reached"),
            Fault::Misaligned => f.write_str("an instruction at a multiple of 4"),
            Fault::TooWide => f.write_str("a number that fits its width"),
            Fault::NoWord(misfit) => misfit.fmt(f),
        }
    }
}

impl Error for Fault {}

// The fault of a statement, by the statement's number from 0 on.
#[derive(Clone, Copy, PartialEq, Eq, Debug)]
pub struct Located {
    pub index: usize,
    pub fault: Fault,
}

// Why no memory is made.
#[derive(Debug, Drop)]
pub enum LayoutError {
    // no lines, or more than 65,536
    NoSuchSize,
    OutOfMemory,
    // all that is wrong with the statements, in their order
    Faults(Vec<Located>),
}

impl From<AllocError> for LayoutError {
    ghost from_gives = { λ _ e. e ≡ OutOfMemory };

    fn from(_: AllocError) -> Self {
        LayoutError::OutOfMemory
    }
}

impl fmt::Display for LayoutError {
    fn fmt<W: fmt::Write>(&self, f: &mut fmt::Formatter<W>) -> fmt::Result {
        match self {
            LayoutError::NoSuchSize | LayoutError::OutOfMemory => f.write_str(
                "no room for its memory",
            ),
            LayoutError::Faults(faults) => write!(f, "{} statements at fault", faults.len()),
        }
    }
}

impl Error for LayoutError {}
