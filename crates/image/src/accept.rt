// What is tested before any cycle, and how it is refused.
ghost use Rattle.std.specs.Prelude.{◌≡◌, ◌≤◌, [], Ok, Err, cond, nat_lt, IfOk, OnOk};
ghost use Rattle.image.specs.Check.{check_of, Accepted};

use crate::choices::count_cycles;
use crate::memory::{Header, read_header};
use crate::refusal::{LentSlice, Refusal};

// Tests how many words a lent slice has.
pub(crate) fn test_lent(slice: LentSlice, words: usize, needed: usize) -> Result<(), Refusal>
    ensures value { result ≡ cond (nat_lt words needed) (Err (Refusal.Lent slice)) (Ok tt) }
    ensures long { OnOk result (needed ≤ words) }
{
    if words < needed {
        return Err(Refusal::Lent(slice));
    }
    Ok(())
}

// Tests a memory, choices for it, and how many words each lent slice has.
#[tactic(auto, unfolding(crate::specs::Check::check_of))]
pub fn check(
    memory: &[u8],
    choices: &[u8],
    board: usize,
    chip: usize,
    said: usize,
) -> Result<Header, Refusal>
    ensures value { result ≡ check_of memory.now choices.now board chip said }
    ensures accepted { IfOk result (λ h. Accepted memory.now choices.now board chip said h) }
{
    let header = read_header(memory)?;
    let _cycles = count_cycles(choices, header.cores)?;
    test_lent(LentSlice::Board, board, 8 * header.lines + 1024)?;
    test_lent(LentSlice::Chip, chip, 16384)?;
    test_lent(LentSlice::Said, said, 16)?;
    Ok(header)
}

// The same for a run without choices.
pub fn check_steady(
    memory: &[u8],
    board: usize,
    chip: usize,
    said: usize,
) -> Result<Header, Refusal>
    ensures value { result ≡ check_of memory.now [] board chip said }
    ensures accepted { IfOk result (λ h. Accepted memory.now [] board chip said h) }
{
    check(memory, &[], board, chip, said)
}
