// The text of an assembler's source, read into statements: names become numbers, and pseudo-instructions the instructions that they stand for.
#![tactic(auto)]

mod fault;
mod operands;
mod reader;
mod source;
mod symbols;

pub use fault::{Expected, Fault};
pub use source::{Source, read};
