// The words of an assembler's source: numbers, registers, mnemonics and directives.
#![tactic(auto)]

pub mod literal;
pub mod mnemonic;
pub mod register;
