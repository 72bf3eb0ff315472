// What keeps an instruction from having a word.
use std::error::Error;
use std::fmt;

#[derive(Clone, Copy, PartialEq, Eq, Debug)]
pub enum Misfit {
    // a register's number from 32 on
    Register,
    // an immediate that is no sign-extended number of 12 bits
    Immediate,
    // a shift by more than 31
    Shift,
    // a value for the upper bits with one of the low 12 bits set
    Upper,
    // a branch's offset that is odd, or no sign-extended number of 13 bits
    BranchOffset,
    // a jump's offset that is odd, or no sign-extended number of 21 bits
    JumpOffset,
    // SUB with an immediate
    Operation,
}

// What should stand there instead.
impl fmt::Display for Misfit {
    fn fmt<W: fmt::Write>(&self, f: &mut fmt::Formatter<W>) -> fmt::Result {
        f.write_str(match self {
            Misfit::Register => "a register from x0 to x31",
            Misfit::Immediate => "a number from -2048 to 2047",
            Misfit::Shift => "a shift by 0 to 31",
            Misfit::Upper => "a multiple of 4096",
            Misfit::BranchOffset => "an even distance of -4096 to 4094 bytes",
            Misfit::JumpOffset => "an even distance of -1048576 to 1048574 bytes",
            Misfit::Operation => "an operation that takes a number",
        })
    }
}

impl Error for Misfit {}
