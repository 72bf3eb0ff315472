// Words of 32 bits, and lent slices of them read and written in parts.
#![tactic(auto)]

pub mod line;
pub mod table;
pub mod word;
