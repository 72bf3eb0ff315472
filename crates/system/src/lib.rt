// A chip on the board: run by choices, and on the steady board. All is generic in the kind of chip.
#![tactic(auto)]

mod cycles;
pub mod listener;
pub mod recorder;
pub mod run;
pub mod steady;
mod step;
