// Instructions encoded, and held to words from outside: see tools/encodings.py.
#![tactic(auto)]

use encode::order::Order;
use rv32::instruction::Instruction;

// An instruction and its word.
#[derive(Clone, Copy)]
pub struct Encoding {
    pub instruction: Instruction,
    pub word: u32,
}

// An atomic operation, its marks for order, and its word with them.
#[derive(Clone, Copy)]
pub struct Marked {
    pub instruction: Instruction,
    pub order: Order,
    pub word: u32,
}

#[cfg(test)]
mod table;
#[cfg(test)]
mod tests;
