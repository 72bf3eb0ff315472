// What a slot of a cache has, by value; and what an instruction lacks.

// Nothing, a line to read, or a line to write, which is dirty if memory's is older; by the line's number.
#[derive(Clone, Copy)]
pub enum Slot {
    Empty,
    Shared { line: u32 },
    Owned { line: u32, dirty: bool },
}

// A slot with the eight words of its line; those of an empty one say nothing.
#[derive(Clone, Copy)]
pub struct Content {
    pub slot: Slot,
    pub words: [u32; 8],
}

// What a line is asked for.
#[derive(Clone, Copy)]
pub enum Access {
    Read,
    Write,
}

// A line that a cache lacks, and what it is lacked for.
#[derive(Clone, Copy)]
pub struct Lack {
    pub line: u32,
    pub access: Access,
}
