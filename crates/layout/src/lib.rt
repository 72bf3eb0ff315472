// Statements of an assembler, laid out in memory.
#![tactic(auto)]

mod fault;
mod laws;
mod lay;
mod piece;
mod place;
pub mod statement;
mod value;

pub use fault::{Fault, LayoutError, Located};
pub use laws::operand_laws;
pub use lay::lay_out;
pub use place::extent;
