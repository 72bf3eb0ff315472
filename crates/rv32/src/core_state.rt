// A core's registers, by value; what an instruction needs of memory, and what it does.

#[derive(Clone, Copy)]
pub struct Core {
    pub pc: u32,
    pub registers: [u32; 32],
    // where the last interrupt came from
    pub epc: u32,
    // whether interrupts are let
    pub lets: bool,
}

// The word of memory that an instruction needs, by its number.
#[derive(Clone, Copy)]
pub enum Need {
    Nothing,
    Read(u32),
    Write(u32),
}

// What an instruction does: the core goes on; it goes on and a word of memory, by its number, gets a value;
// it goes on and says a word to the outside; or it stops.
#[derive(Clone, Copy)]
pub enum Effect {
    Goes { core: Core },
    Stores { number: u32, value: u32, core: Core },
    Says { word: u32, core: Core },
    Stops,
}
