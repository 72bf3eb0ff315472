// The caches of the cores: slots with lines, in lent words.
#![tactic(auto)]

pub mod caches;
pub mod coded;
pub mod content;
pub mod index;
pub mod lookup;
pub mod slot;
