// What crosses between a chip and the board in a cycle, by value.

// Core k has done an instruction, or it has taken an interrupt before its next one.
#[derive(Clone, Copy)]
pub enum Event {
    Step(usize),
    Interrupt(usize),
}

// A line of memory: its number, and its words.
#[derive(Clone, Copy, Default)]
pub struct Line {
    pub number: u32,
    pub words: [u32; 8],
}

// What a chip puts out in a cycle besides the words said: a line it asks for, lines it writes, and what was done.
// Each row is read in the order of its places, without those that are empty.
#[derive(Clone, Copy)]
pub struct Out {
    pub asks: Option<u32>,
    pub writes: [Option<Line>; 4],
    pub did: [Option<Event>; 8],
}

// Why a call of a chip is refused, and nothing is done: the lent words of the chip or for the words said are too few, or there are not 1 to 4 cores.
#[derive(Clone, Copy, PartialEq, Eq, Debug)]
pub enum Fault {
    ChipShort,
    SaidShort,
    Cores,
}
