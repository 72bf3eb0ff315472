// What a line of a source says, with its names turned into numbers.
use encode::order::Order;
use rv32::instruction::Instruction;

// A label's value, less another's, and a number, all modulo 2^32. A label goes by the number of its symbol.
#[derive(Clone, Copy)]
pub struct Sum {
    pub plus: Option<usize>,
    pub minus: Option<usize>,
    pub number: u32,
}

// What is taken of a sum.
#[derive(Clone, Copy)]
pub enum Part {
    Whole,
    // %hi: what goes with Low: the sum and 0x800, its low 12 bits cleared
    High,
    // %lo: the low 12 bits, with their sign extended
    Low,
    // the distance from this statement
    Relative,
    // High of the distance from this statement, the first of two instructions
    RelativeHigh,
    // Low of the distance from the instruction before this one, the first of the two
    RelativeLow,
}

#[derive(Clone, Copy)]
pub struct Operand {
    pub part: Part,
    pub sum: Sum,
}

#[derive(Clone, Copy)]
pub enum Width {
    Byte,
    Half,
    Word,
}

#[derive(Clone, Copy)]
pub enum Statement {
    // the symbol's value is the address here
    Label {
        symbol: usize,
    },
    // where there is an operand, its value takes the place of the immediate; the order is that of an AMO
    Code {
        instruction: Instruction,
        order: Order,
        operand: Option<Operand>,
    },
    Data {
        width: Width,
        operand: Operand,
    },
    // on to a multiple of 2^bits
    Align {
        bits: u32,
    },
    // on to this address, which is not before here
    Origin {
        address: u32,
    },
}
