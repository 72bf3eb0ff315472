// What the core whose turn it is lacks and does, by value.
ghost use Rattle.std.specs.Prelude.{◌≡◌, ℕ, ◌<◌, ◌≤◌, [], ◌∷◌, Some, None, MatchResult};
ghost use Rattle.rv32.specs.Execute.{did, one};
ghost use Rattle.rv32.specs.Laws.{Supplied};
ghost use Rattle.cores.specs.Ports.{line_of, somes};
ghost use Rattle.soc.specs.Buffers.{holds, lacks_data, lies_in, line_in, words_of};
ghost use Rattle.soc.specs.Rv.{word_of};
ghost use Rattle.soc.specs.Soc.{written};
ghost use Rattle.soc.specs.Turn.{filled, lacked, turned, words_in};

use crate::control::Control;
use cores::port::Line;
use rv32::core_state::{Core, Effect, Need};
use rv32::decode::decoded;

fn holds(buffer: Option<Line>, a: u32) -> bool
    ensures { result ≡ holds buffer a }
{
    buffer.is_some_and(|line| line.number == a)
}

fn words_of(buffer: Option<Line>) -> [u32; 8]
    ensures { result ≡ words_of buffer }
{
    // not `map_or`, of whose default the contract of a closure says nothing
    match buffer {
        Some(line) => line.words,
        None => [0; 8],
    }
}

// Whether a word that is named lies in line a.
fn lies_in(number: Option<u32>, a: u32) -> bool
    ensures { result ≡ lies_in number a }
{
    number.is_some_and(|number| number / 8 == a)
}

impl Control {
    // Line a as the buffers have it.
    fn line(self, a: u32) -> [u32; 8]
        ensures { result ≡ line_in self.fetched self.loaded a }
    {
        if holds(self.fetched, a) {
            words_of(self.fetched)
        } else {
            words_of(self.loaded)
        }
    }

    fn word(self, number: u32) -> u32
        ensures { result ≡ words_in self number }
    {
        self.line(number / 8)[(number % 8) as usize]
    }

    // The word that an instruction needs, or 0; or the line that it lies in, if no buffer has it.
    fn operand(self, need: Need) -> Result<u32, u32>
        ensures { MatchResult result (λ x. (lacks_data (word_of need) self.fetched self.loaded ≡ None) × Supplied (words_in self) x need) (λ a. lacks_data (word_of need) self.fetched self.loaded ≡ Some a) }
    {
        match need {
            Need::Nothing => Ok(0),
            Need::Read(number) | Need::Write(number) => {
                let a = number / 8;
                if holds(self.fetched, a) || holds(self.loaded, a) {
                    Ok(self.word(number))
                } else {
                    Err(a)
                }
            }
        }
    }

    // What the next instruction of a core does; or the line that it lacks.
    pub(crate) fn attempt(self, core: Core) -> Result<Effect, u32>
        ensures { MatchResult result (λ e. (lacked self core ≡ None) × (did e ≡ one self.size core (words_in self))) (λ a. lacked self core ≡ Some a) }
    {
        let Some(number) = core.fetches(self.size) else {
            return Ok(Effect::Stops);
        };
        if !holds(self.fetched, number / 8) {
            return Err(number / 8);
        }
        let instruction = decoded(self.word(number));
        let word = self.operand(core.needs(self.size, instruction))?;
        Ok(core.executes(self.size, instruction, word))
    }

    // The line that an instruction writes: the one that it stores to, with the word stored.
    pub(crate) fn written(self, effect: Effect) -> Option<Line>
        ensures { somes line_of (result ∷ []) ≡ written self.fetched self.loaded (did effect) }
    {
        match effect {
            Effect::Stores { number, value, .. } => {
                let mut words = self.line(number / 8);
                words[(number % 8) as usize] = value;
                Some(Line {
                    number: number / 8,
                    words,
                })
            }
            Effect::Goes { .. } | Effect::Says { .. } | Effect::Stops => None,
        }
    }

    // A line has come, for a core that fetches this word.
    pub(crate) fn with_line(self, code: Option<u32>, line: Line) -> Self
        ensures { result ≡ filled self code line }
    {
        if lies_in(code, line.number) {
            Control {
                fetched: Some(line),
                asked: None,
                ..self
            }
        } else {
            Control {
                loaded: Some(line),
                asked: None,
                ..self
            }
        }
    }

    // The turn passes, and the lines are dropped.
    pub(crate) fn passed(self) -> Self
        requires { (self.count ≤ 4) × (self.turn < 4) }
        ensures value { result ≡ turned self }
        ensures within { result.turn < 4 }
    {
        let next = self.turn + 1;
        Control {
            turn: if next < self.count { next } else { 0 },
            asked: None,
            fetched: None,
            loaded: None,
            ..self
        }
    }
}
