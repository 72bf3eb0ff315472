// Memory and the row in the lent words of a board.
ghost use Rattle.std.specs.Prelude.{◌≡◌, ◌+◌, ◌*◌, ◌<◌, ◌≤◌, length, nat_lt, slice_set};
ghost use Rattle.cores.specs.Board.{with_lines};
ghost use Rattle.cores.specs.Ports.{line_of, somes};
ghost use Rattle.board.specs.Layout.{beyond, memory_of, row_in, row_of};
ghost use Rattle.board.specs.Rows.{items_of, line_there};

use crate::row::{Row, Waiting};
use arrayvec::ArrayVec;
use cores::port::Line;
use words::line::Lines;
use words::table::{at, put_at};

// The words after memory that belong to the row.
const ROW: usize = 1024;

// Whether so many words don't suffice for memory's lines and the row.
pub(crate) fn is_short(words: usize, lines: usize) -> bool
    ensures { result ≡ nat_lt words (8 * lines + 1024) }
{
    words < ROW || (words - ROW) / 8 < lines
}

// The row, read out of its words.
fn read_row(words: &[u32]) -> Row
    requires { length words.now ≡ 1024 }
    ensures { items_of result ≡ row_in words.now }
{
    // A loop, as `array::from_fn` tells of each call by itself and not of the row.
    let mut waiting = ArrayVec::new();
    for i in 0..words[32].min(16) as usize {
        waiting.push(Waiting {
            line: words[2 * i],
            left: words[2 * i + 1],
        });
    }
    Row { waiting }
}

// The row, written into its words.
fn write_row(words: &mut [u32], row: &Row)
    requires { length words.old ≡ 1024 }
    ensures { row_in words.new ≡ items_of row.now }
{
    let waiting = row.waiting.as_slice();
    for (i, place) in waiting.iter().enumerate() {
        words[2 * i] = place.line;
        words[2 * i + 1] = place.left;
    }
    words[32] = waiting.len() as u32;
}

// The row of a board.
pub(crate) fn row_at(board: &[u32], lines: usize) -> Row
    requires { 8 * lines + 1024 ≤ length board.now }
    ensures { items_of result ≡ row_of lines board.now }
{
    read_row(&board[8 * lines..8 * lines + ROW])
}

// The row becomes the one given; all else stays.
pub(crate) fn put_row(board: &mut [u32], lines: usize, row: &Row)
    requires { 8 * lines + 1024 ≤ length board.old }
    ensures { (row_of lines board.new ≡ items_of row.now) × ((memory_of lines board.new ≡ memory_of lines board.old) × (beyond lines board.new ≡ beyond lines board.old)) }
{
    write_row(&mut board[8 * lines..8 * lines + ROW], row);
}

// A line of memory, with its number.
pub(crate) fn read_line(board: &[u32], lines: usize, number: u32) -> Line
    requires { (8 * lines + 1024 ≤ length board.now) × (number < lines) }
    ensures { result ≡ line_there (memory_of lines board.now) number }
{
    Line {
        number,
        words: at::<Lines>(board, number as usize),
    }
}

// Line `number` of memory becomes the words given; all else stays.
fn put_memory(board: &mut [u32], lines: usize, number: usize, words: [u32; 8])
    requires { (8 * lines + 1024 ≤ length board.old) × (number < lines) }
    ensures { (memory_of lines board.new ≡ slice_set (memory_of lines board.old) number words) × ((row_of lines board.new ≡ row_of lines board.old) × (beyond lines board.new ≡ beyond lines board.old)) }
{
    put_at::<Lines>(&mut board[0..8 * lines], number, words);
}

// Memory takes a line that is written; one that is not there is not written. All else stays.
fn write_line(board: &mut [u32], lines: usize, line: Line)
    requires { 8 * lines + 1024 ≤ length board.old }
    ensures { (memory_of lines board.new ≡ slice_set (memory_of lines board.old) line.number line.words) × ((row_of lines board.new ≡ row_of lines board.old) × (beyond lines board.new ≡ beyond lines board.old)) }
{
    let number = line.number as usize;
    if number < lines {
        put_memory(board, lines, number, line.words);
    }
}

// Memory takes the lines that are written, one after another; all else stays.
pub(crate) fn write_lines(board: &mut [u32], lines: usize, writes: &[Option<Line>])
    requires { 8 * lines + 1024 ≤ length board.old }
    ensures { (memory_of lines board.new ≡ with_lines (memory_of lines board.old) (somes line_of writes.now)) × ((row_of lines board.new ≡ row_of lines board.old) × (beyond lines board.new ≡ beyond lines board.old)) }
{
    for line in writes.iter().flatten() {
        write_line(board, lines, *line);
    }
}
