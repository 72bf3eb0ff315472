// Instructions run against values from outside: see tools/vectors.py.
#![tactic(auto)]

// An instruction word, what x5 and x6 have before it, and what x7, the data word and pc have after it.
#[derive(Clone, Copy)]
pub struct Vector {
    pub word: u32,
    pub x5: u32,
    pub x6: u32,
    pub x7: u32,
    pub data: u32,
    pub pc: u32,
}

#[cfg(test)]
mod table;
#[cfg(test)]
mod tests;
