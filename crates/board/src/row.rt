// The row of lines that wait, by value.
ghost use Rattle.std.specs.Prelude.{◌≡◌, ℕ, ◌+◌, ◌<◌, [], ◌∷◌, ◌++◌, map, length, Option, IfOk, slice_index_or};
ghost use Rattle.std.specs.Result.{result_err};
ghost use Rattle.cores.specs.Board.{among, asked, kept, later};
ghost use Rattle.cores.specs.Ports.{somes};
ghost use Rattle.board.specs.Faults.{full};
ghost use Rattle.board.specs.Rows.{chosen, inside, items_of, line_in, pair_in};
ghost use Rattle.board.specs.declared.row.Waiting.{Waiting};

use crate::fault::Fault;
use arrayvec::ArrayVec;

// A line that waits, and how many cycles after the next it comes, which only the steady board asks.
#[derive(Clone, Copy, Default)]
pub(crate) struct Waiting {
    pub(crate) line: u32,
    pub(crate) left: u32,
}

// Those that wait, at most sixteen, the oldest first.
#[derive(Drop)]
pub(crate) struct Row {
    pub(crate) waiting: ArrayVec<Waiting, 16>,
}

// Whether place i is among those given.
pub(crate) fn is_among(places: &[u8], i: usize) -> bool
    ensures { result ≡ among i places.now }
{
    places.iter().any(|p| i == *p as usize)
}

impl Row {
    // A row in which nobody waits.
    pub(crate) fn empty() -> Row
        ensures { items_of result ≡ [] }
    {
        Row {
            waiting: ArrayVec::new(),
        }
    }

    // What is made of those that wait and of their places, the oldest first, without those of which nothing is made.
    pub(crate) fn chosen<T: Default + Drop, F: Fn(usize, Waiting) -> Option<T>>(
        &self,
        choose: F,
    ) -> ArrayVec<T, 16>
        requires { (i : ℕ) (w : Waiting) → i < length (items_of self.now) → w ≡ slice_index_or (items_of self.now) i w → F.pre choose i w }
        ensures { (of : ℕ → Waiting → Option T) → ((i : ℕ) (w : Waiting) (o : Option T) → i < length (items_of self.now) → w ≡ slice_index_or (items_of self.now) i w → F.post choose i w o → o ≡ of i w) → result.items ≡ chosen of 0 (items_of self.now) }
    {
        let mut out = ArrayVec::new();
        let row = self.waiting.as_slice();
        for (i, waiting) in row.iter().enumerate() {
            if let Some(made) = choose(i, *waiting) {
                out.push(made);
            }
        }
        out
    }

    // The row without the places given.
    pub(crate) fn without(&self, places: &[u8]) -> Row
        ensures { map line_in (items_of result) ≡ kept places.now 0 (map line_in (items_of self.now)) }
    {
        Row {
            waiting: self.chosen(|i, w| (!is_among(places, i)).then_some(w)),
        }
    }

    // The row without those that come now, the others a cycle nearer.
    pub(crate) fn later(&self) -> Row
        ensures { map pair_in (items_of result) ≡ later (map pair_in (items_of self.now)) }
    {
        Row {
            waiting: self.chosen(|_, w| {
                w.left
                    .checked_sub(1)
                    .map(|left| Waiting { line: w.line, left })
            }),
        }
    }

    // Whether each line of the row is one of the first `lines`.
    pub(crate) fn is_inside(&self, lines: usize) -> bool
        ensures { result ≡ inside lines (map line_in (items_of self.now)) }
    {
        self.waiting
            .as_slice()
            .iter()
            .all(|w| (w.line as usize) < lines)
    }

    // The row with the line that is asked for now, if any, and the cycles after the next till it comes; refused where sixteen wait already.
    pub(crate) fn with_asked(mut self, asks: Option<u32>, left: u32) -> Result<Row, Fault>
        ensures lines { IfOk result (λ s. map line_in (items_of s) ≡ map line_in (items_of self) ++ somes (λ a. a) (asks ∷ [])) }
        ensures timed { IfOk result (λ s. map pair_in (items_of s) ≡ map pair_in (items_of self) ++ asked (λ _. left) (somes (λ a. a) (asks ∷ []))) }
        ensures fault { result_err result ≡ full (length (items_of self) + length (somes (λ a. a) (asks ∷ []))) }
    {
        if let Some(line) = asks {
            self.waiting
                .try_push(Waiting { line, left })
                .map_err(|_| Fault::Full)?;
        }
        Ok(self)
    }
}
