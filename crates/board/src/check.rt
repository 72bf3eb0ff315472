// What is tested before anything is written.
ghost use Rattle.std.specs.Prelude.{◌≡◌, ◌+◌, ◌*◌, ◌≤◌, true, map, length, IfOk, OnOk};
ghost use Rattle.std.specs.Result.{result_err};
ghost use Rattle.cores.specs.Ports.{somes};
ghost use Rattle.cores.specs.declared.port.Line.{Line};
ghost use Rattle.board.specs.Faults.{astray, short, unsound};
ghost use Rattle.board.specs.Layout.{row_of};
ghost use Rattle.board.specs.Rows.{inside, items_of, line_in};

use crate::fault::Fault;
use crate::layout::{is_short, row_at};
use crate::row::Row;
use cores::port::{Line, Out};

// Whether each line that is written is one of the first `lines`.
fn writes_inside(writes: &[Option<Line>], lines: usize) -> bool
    ensures { result ≡ inside lines (somes (λ (l : Line). l.number) writes.now) }
{
    writes
        .iter()
        .flatten()
        .all(|line| (line.number as usize) < lines)
}

// Refuses what asks for or writes a line outside memory.
pub(crate) fn check_out(out: &Out, lines: usize) -> Result<(), Fault>
    ensures { result_err result ≡ astray lines out.now }
{
    if out.asks.is_some_and(|line| line as usize >= lines) {
        return Err(Fault::Outside);
    }
    if !writes_inside(&out.writes, lines) {
        return Err(Fault::Outside);
    }
    Ok(())
}

// Refuses words that don't suffice.
pub(crate) fn check_length(board: &[u32], lines: usize) -> Result<(), Fault>
    ensures fault { result_err result ≡ short lines board.now }
    ensures long { OnOk result (8 * lines + 1024 ≤ length board.now) }
{
    if is_short(board.len(), lines) {
        return Err(Fault::Short);
    }
    Ok(())
}

// The row of a board, which is refused where it is too short or a line outside memory waits.
pub(crate) fn sound_row(board: &[u32], lines: usize) -> Result<Row, Fault>
    ensures fault { result_err result ≡ unsound lines board.now }
    ensures row { IfOk result (λ row. (items_of row ≡ row_of lines board.now) × (inside lines (map line_in (items_of row)) ≡ true)) }
    ensures long { OnOk result (8 * lines + 1024 ≤ length board.now) }
{
    check_length(board, lines)?;
    let row = row_at(board, lines);
    if !row.is_inside(lines) {
        return Err(Fault::Outside);
    }
    Ok(row)
}
