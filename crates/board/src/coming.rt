// The lines that come now, with what memory has.
ghost use Rattle.std.specs.Prelude.{◌≡◌, ◌+◌, ◌*◌, ◌<◌, ◌≤◌, true, map, length};
ghost use Rattle.cores.specs.Board.{due, handed};
ghost use Rattle.cores.specs.Ports.{line_of};
ghost use Rattle.board.specs.Layout.{memory_of};
ghost use Rattle.board.specs.Rows.{comes_at, comes_now, inside, items_of, line_in, pair_in};

use crate::layout::read_line;
use crate::row::{Row, is_among};
use arrayvec::ArrayVec;
use cores::port::Line;

// Those at the places given; a place that nobody waits in gives nothing.
pub(crate) fn at_places(board: &[u32], lines: usize, row: &Row, places: &[u8]) -> ArrayVec<Line, 16>
    requires { (8 * lines + 1024 ≤ length board.now) × (inside lines (map line_in (items_of row.now)) ≡ true) }
    ensures { map line_of result.items ≡ handed (memory_of lines board.now) places.now 0 (map line_in (items_of row.now)) }
{
    row.chosen(
        |i, w|
            requires { (8 * lines + 1024 ≤ length board.now) × (w.line < lines) }
            ensures { result ≡ comes_at (memory_of lines board.entry.now) places.entry.now i w }
        { is_among(places, i).then(|| read_line(board, lines, w.line)) },
    )
}

// Those with no cycle left.
pub(crate) fn at_their_time(board: &[u32], lines: usize, row: &Row) -> ArrayVec<Line, 16>
    requires { (8 * lines + 1024 ≤ length board.now) × (inside lines (map line_in (items_of row.now)) ≡ true) }
    ensures { map line_of result.items ≡ due (memory_of lines board.now) (map pair_in (items_of row.now)) }
{
    row.chosen(
        |_, w|
            requires { (8 * lines + 1024 ≤ length board.now) × (w.line < lines) }
            ensures { result ≡ comes_now (memory_of lines board.entry.now) w }
        { (w.left == 0).then(|| read_line(board, lines, w.line)) },
    )
}
