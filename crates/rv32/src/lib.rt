// RV32I with AMOADD.W, AMOSWAP.W and MRET, and the devices of a core.
#![tactic(auto)]

pub mod core_state;
pub mod decode;
pub mod execute;
pub mod instruction;
pub mod theorems;
