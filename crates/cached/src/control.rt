// What the cores share, and what a core does in a cycle, by value.
use cores::port::{Event, Line};

// How many cores there are, how many lines memory has, whose request the probes are for, whose turn it is, and which of two ways is replaced next.
// That `count` is at most 4 and `lead` and `turn` are below stands in the contracts of what reads and writes it, and not in the type: the definition of what words mean makes such values, and would have to prove it.
#[derive(Clone, Copy)]
pub struct Control {
    pub count: usize,
    pub size: u32,
    pub lead: usize,
    pub turn: usize,
    pub way: bool,
}

// What a core does in a cycle: a line that it hands back dirty, a word that it says, and its event.
#[derive(Clone, Copy, Default)]
pub struct Acted {
    pub wrote: Option<Line>,
    pub said: Option<u32>,
    pub did: Option<Event>,
}
