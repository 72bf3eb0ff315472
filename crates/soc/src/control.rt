// What the cores share, by value; and what a core does in its turn.
use cores::port::Line;

// What the cores share.
#[derive(Clone, Copy)]
pub struct Control {
    // how many cores there are, at most 4
    pub count: usize,
    // how many lines memory has
    pub size: u32,
    // whose turn it is, below 4
    pub turn: usize,
    // the line that is asked for and has not come
    pub asked: Option<u32>,
    // the line of the instruction and the line of the data, for the core whose turn it is
    pub fetched: Option<Line>,
    pub loaded: Option<Line>,
}

// What the core whose turn it is does in a cycle.
#[derive(Clone, Copy)]
pub enum Act {
    // a line is asked for and has not come
    Waits,
    // it is off, and is passed over
    Skips,
    // it lacks a line
    Asks(u32),
    // its instruction is done: the line that it writes, and the word that it says
    Does {
        wrote: Option<Line>,
        said: Option<u32>,
    },
}
