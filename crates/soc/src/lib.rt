// The chip: its cores take turns at the memory, and the core whose turn it is has two line buffers.
#![tactic(auto)]

pub mod control;
pub mod cycle;
pub mod promises;
mod state;
mod turn;
