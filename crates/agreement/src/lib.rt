// Programs run on the chip and on the machines: both say the same, and leave the same memory.
#![tactic(auto)]

#[cfg(test)]
mod tests;
