// Lines, eight words each, in a table.
ghost use Rattle.std.specs.Prelude.{◌≡◌, ℕ, List};
ghost use Rattle.words.specs.Laws.{LineBlock, LineCount, LineSet, LineWord, LineWritten};

use crate::table::Table;

// The lines of a memory.
pub struct Lines;

impl Table for Lines {
    type Value = [u32; 8];

    const SIZE: usize = 8;

    ghost SIZE = { 8 };

    ghost Meaning = { List ℕ };

    ghost means = { λ _ line. line };

    ghost said = { λ _ words. words };

    fn read(block: &[u32]) -> [u32; 8] {
        let mut line = [0; 8];
        line.copy_from_slice(block);
        line
    }

    fn write(block: &mut [u32], line: [u32; 8]) {
        block.copy_from_slice(&line);
    }
}

// Memory's lines are read and written as the words that they are decoded from.
pub fn lines_of_words()
    ensures { (LineCount) × ((LineWord) × ((LineSet) × ((LineBlock) × (LineWritten)))) }
{}
