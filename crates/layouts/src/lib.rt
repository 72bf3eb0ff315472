// Layouts held to what another assembler gives.
#![tactic(auto)]

#[cfg(test)]
mod tests;
