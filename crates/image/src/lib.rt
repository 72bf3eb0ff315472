// Memories and choices as bytes: what they say, and how they are refused.
#![tactic(auto)]

mod accept;
mod choices;
mod laws;
mod memory;
mod refusal;
mod write;

pub use accept::{check, check_steady};
pub use choices::{Record, Records, all_records, count_cycles, cycle_at, is_up};
pub use laws::{choice_laws, memory_laws};
pub use memory::{Header, load, read_header};
pub use refusal::{ChoiceFault, LentSlice, Refusal};
pub use write::{StoreFault, store, store_bytes};

#[cfg(test)]
mod tests;
