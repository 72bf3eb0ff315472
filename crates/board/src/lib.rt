// The board around a chip, in lent words: memory, and after it the row of lines that wait.
// Everything is tested before anything is written, so that a refusal changes nothing.
#![tactic(auto)]

ghost use Rattle.std.specs.Prelude.{◌≡◌, ◌+◌, ◌*◌, ◌≤◌, [], ◌++◌, map, length, IfOk, OnErr, OnOk};
ghost use Rattle.std.specs.Result.{result_err};
ghost use Rattle.cores.specs.Board.{asked, due, handed, kept, later, new_board, with_lines};
ghost use Rattle.cores.specs.Ports.{line_of, somes};
ghost use Rattle.board.specs.Cycle.{Follows, FollowsSteady, next_waiting};
ghost use Rattle.board.specs.Faults.{astray, full, or_else, short, unfit, unsound};
ghost use Rattle.board.specs.Layout.{beyond, board_of, memory_of, timed_of, waiting_of};
ghost use Rattle.board.specs.Rows.{asks_of, items_of, line_in, pair_in, writes_of};

use crate::check::{check_length, check_out, sound_row};
use crate::coming::{at_places, at_their_time};
use crate::fault::Fault;
use crate::layout::{put_row, write_lines};
use crate::row::Row;
use arrayvec::ArrayVec;
use cores::port::{Line, Out};

mod check;
mod coming;
pub mod fault;
mod layout;
mod row;

// A board at power-on: memory is what its words hold, and nobody waits.
pub fn start(board: &mut [u32], lines: usize) -> Result<(), Fault>
    ensures fault { result_err result ≡ short lines board.old }
    ensures after { OnOk result ((board_of lines board.new [] [] ≡ new_board (memory_of lines board.old)) × (timed_of lines board.new ≡ [])) }
    ensures same { OnErr result (board.new ≡ board.old) }
    ensures rest { beyond lines board.new ≡ beyond lines board.old }
{
    check_length(board, lines)?;
    put_row(board, lines, &Row::empty());
    Ok(())
}

// The lines that are given at these places of the row, with what memory has now. A place that nobody waits in gives nothing.
pub fn given(board: &[u32], lines: usize, places: &[u8]) -> Result<ArrayVec<Line, 16>, Fault>
    ensures fault { result_err result ≡ unsound lines board.now }
    ensures come { IfOk result (λ come. map line_of come.items ≡ handed (memory_of lines board.now) places.now 0 (waiting_of lines board.now)) }
{
    let row = sound_row(board, lines)?;
    Ok(at_places(board, lines, &row, places))
}

// The lines that come now on the steady board, with what memory has now.
pub fn due(board: &[u32], lines: usize) -> Result<ArrayVec<Line, 16>, Fault>
    ensures fault { result_err result ≡ unsound lines board.now }
    ensures come { IfOk result (λ come. map line_of come.items ≡ due (memory_of lines board.now) (timed_of lines board.now)) }
{
    let row = sound_row(board, lines)?;
    Ok(at_their_time(board, lines, &row))
}

// Memory takes what a chip writes, and the row becomes the one given with the line that the chip asks for, which comes `left` cycles after the next.
fn finish(board: &mut [u32], lines: usize, row: Row, out: &Out, left: u32) -> Result<(), Fault>
    requires { 8 * lines + 1024 ≤ length board.old }
    ensures fault { result_err result ≡ or_else (astray lines out.now) (full (length (items_of row) + length (asks_of out.now))) }
    ensures memory { OnOk result (memory_of lines board.new ≡ with_lines (memory_of lines board.old) (writes_of out.now)) }
    ensures waiting { OnOk result (waiting_of lines board.new ≡ map line_in (items_of row) ++ asks_of out.now) }
    ensures timed { OnOk result (timed_of lines board.new ≡ map pair_in (items_of row) ++ asked (λ _. left) (asks_of out.now)) }
    ensures same { OnErr result (board.new ≡ board.old) }
    ensures rest { beyond lines board.new ≡ beyond lines board.old }
{
    check_out(out, lines)?;
    let next = row.with_asked(out.asks, left)?;
    write_lines(board, lines, &out.writes);
    put_row(board, lines, &next);
    Ok(())
}

// The same for the row without the places given, as far as the lent words go.
fn finish_given(board: &mut [u32], lines: usize, places: &[u8], out: &Out) -> Result<(), Fault>
    ensures fault { result_err result ≡ unfit lines board.old out.now (length (kept places.now 0 (waiting_of lines board.old))) }
    ensures memory { OnOk result (memory_of lines board.new ≡ with_lines (memory_of lines board.old) (writes_of out.now)) }
    ensures waiting { OnOk result (waiting_of lines board.new ≡ next_waiting lines board.old places.now out.now) }
    ensures same { OnErr result (board.new ≡ board.old) }
    ensures rest { beyond lines board.new ≡ beyond lines board.old }
{
    let row = sound_row(board, lines)?;
    finish(board, lines, row.without(places), out, 0)?;
    Ok(())
}

// The board after a cycle in which these places were given and a chip put out `out`.
pub fn after(board: &mut [u32], lines: usize, places: &[u8], out: &Out) -> Result<(), Fault>
    ensures fault { result_err result ≡ unfit lines board.old out.now (length (kept places.now 0 (waiting_of lines board.old))) }
    ensures after { OnOk result (Follows lines board.old places.now out.now board.new) }
    ensures same { OnErr result (board.new ≡ board.old) }
    ensures rest { beyond lines board.new ≡ beyond lines board.old }
{
    finish_given(board, lines, places, out)
}

// The steady board after a cycle in which a chip put out `out`; a line that it asks for comes `late` cycles after the next.
pub fn after_steady(board: &mut [u32], lines: usize, late: u32, out: &Out) -> Result<(), Fault>
    ensures fault { result_err result ≡ unfit lines board.old out.now (length (later (timed_of lines board.old))) }
    ensures after { OnOk result (FollowsSteady lines board.old late out.now board.new) }
    ensures same { OnErr result (board.new ≡ board.old) }
    ensures rest { beyond lines board.new ≡ beyond lines board.old }
{
    let row = sound_row(board, lines)?;
    finish(board, lines, row.later(), out, late)?;
    Ok(())
}

#[cfg(test)]
mod tests {
    use super::*;
    use std::test::Fail;

    // What a chip puts out that asks for a line, if any, and writes one, if any.
    fn puts_out(asks: Option<u32>, write: Option<Line>) -> Out {
        Out {
            asks,
            writes: [write, None, None, None],
            did: [None; 8],
        }
    }

    // A line of two is asked for, given with what memory has before the write of the same cycle, and then waits no more.
    #[test]
    fn a_line_comes_once(rt: HostRuntime) -> Result<(), Fail> {
        let mut words = vec![in rt.alloc(); 0; 1040]?;
        start(&mut words, 2)?;
        after(&mut words, 2, &[], &puts_out(Some(1), None))?;
        let first = given(&words, 2, &[0])?;
        let line = first.first().ok_or("no line")?;
        assert_eq!(rt; line.number, 1);
        assert_eq!(rt; line.words, [0; 8]);
        let write = Line {
            number: 1,
            words: [7; 8],
        };
        after(&mut words, 2, &[0], &puts_out(None, Some(write)))?;
        assert!(rt; given(&words, 2, &[0])?.is_empty());
        assert_eq!(rt; words.get(15).copied(), Some(7));
        Ok(())
    }

    // On the steady board a line comes as many cycles after the next as was said; a line outside memory is refused.
    #[test]
    fn a_line_comes_in_time(rt: HostRuntime) -> Result<(), Fail> {
        let mut words = vec![in rt.alloc(); 0; 1040]?;
        start(&mut words, 2)?;
        after_steady(&mut words, 2, 1, &puts_out(Some(0), None))?;
        assert!(rt; due(&words, 2)?.is_empty());
        after_steady(&mut words, 2, 1, &puts_out(None, None))?;
        assert_eq!(rt; due(&words, 2)?.len(), 1);
        let refused = after_steady(&mut words, 2, 1, &puts_out(Some(2), None));
        assert!(rt; matches!(refused, Err(Fault::Outside)));
        Ok(())
    }
}
