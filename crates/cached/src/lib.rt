// The chip: four cores with caches, a directory, messages between them, and a turn, in lent words; and what it promises.
#![tactic(auto)]

mod act;
mod attempt;
pub mod control;
pub mod cycle;
mod deliver;
pub mod fresh;
pub mod parts;
pub mod promises;
mod regions;
mod reply;
mod start;
mod state;
