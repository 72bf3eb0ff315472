// The manual's machines as a program: cores that take turns at a lent memory.
#![tactic(auto)]

pub mod machines;
pub mod run;
pub mod script;
