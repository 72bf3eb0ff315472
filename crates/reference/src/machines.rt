// The machines, and what an event comes to.
ghost use Rattle.std.specs.Prelude.{◌≡◌};
ghost use Rattle.reference.specs.declared.machines.Fault.TheVariants.{OutOfMemory};

use rv32::core_state::Core;
use std::alloc::AllocError;

// One of the machines: its registers, and whether it still goes.
#[derive(Clone, Copy)]
pub struct Machine {
    pub core: Core,
    pub on: bool,
}

// The first `count` of four machines. The fields are public and take any count, which a type that bounds it would not.
#[derive(Clone, Copy)]
pub struct Machines {
    pub machines: [Machine; 4],
    pub count: usize,
}

// What came of an event.
#[derive(Clone, Copy, PartialEq, Eq, Debug)]
pub enum Outcome {
    // the instruction was done, or the interrupt taken
    Done,
    // the instruction was done, and core `core` said a word
    Said { core: usize, word: u32 },
    // the instruction stopped its core
    Stopped,
    // the core has stopped before, or is not there: nothing was done
    Off,
    // the interrupt was taken where interrupts are not let
    NotLet,
}

// Why nothing was done: memory has over 65,536 lines of eight words, or there is no room for the outcomes.
#[derive(Clone, Copy, PartialEq, Eq, Debug)]
pub enum Fault {
    TooLarge,
    OutOfMemory,
}

impl From<AllocError> for Fault {
    ghost from_gives = { λ _ fault. fault ≡ OutOfMemory };

    fn from(_e: AllocError) -> Fault {
        Fault::OutOfMemory
    }
}
