// The word of each instruction, for an assembler.
#![tactic(auto)]

pub mod encoding;
mod field;
mod format;
pub mod misfit;
pub mod order;
pub mod theorems;
