// The operands of a line.
use crate::fault::{Expected, Unread};
use crate::reader::{Reader, Term};
use crate::symbols::{Meaning, Mention, Symbols};
use layout::statement::{Operand, Part, Sum};
use lexicon::register::register_of;

// Whether a sum may have labels, whose values are not known before the end.
#[derive(Clone, Copy, PartialEq, Eq)]
enum Labels {
    Allowed,
    Refused,
}

const ZERO: Sum = Sum {
    plus: None,
    minus: None,
    number: 0,
};

// A sum with one term more, added or subtracted; none where it has such a label already.
fn with_term(sum: Sum, meaning: Meaning, negative: bool) -> Option<Sum> {
    match (meaning, negative) {
        (Meaning::Constant(n), false) => Some(Sum {
            number: sum.number.wrapping_add(n),
            ..sum
        }),
        (Meaning::Constant(n), true) => Some(Sum {
            number: sum.number.wrapping_sub(n),
            ..sum
        }),
        (Meaning::Label(symbol), false) if sum.plus.is_none() => Some(Sum {
            plus: Some(symbol),
            ..sum
        }),
        (Meaning::Label(symbol), true) if sum.minus.is_none() => Some(Sum {
            minus: Some(symbol),
            ..sum
        }),
        (Meaning::Label(_), _) => None,
    }
}

// The line that is read, its number, and the names of the source.
#[derive(Drop)]
pub(crate) struct Operands<'a> {
    pub reader: Reader<'a>,
    pub line: usize,
    pub symbols: Symbols<'a>,
}

impl<'a> Operands<'a> {
    // What a name stands for in a sum.
    fn named(&mut self, name: &'a [u8], labels: Labels, column: usize) -> Result<Meaning, Unread> {
        if register_of(name).is_some() {
            return Err(Unread::At(column, Expected::Value));
        }
        if labels == Labels::Allowed {
            return self.symbols.refer(name);
        }
        match self.symbols.meaning_of(name) {
            Some(Meaning::Constant(value)) => Ok(Meaning::Constant(value)),
            _ => Err(Unread::At(column, Expected::Constant)),
        }
    }

    // What a term of a sum stands for.
    fn meaning(
        &mut self,
        term: Term<'a>,
        labels: Labels,
        column: usize,
    ) -> Result<Meaning, Unread> {
        match term {
            Term::Number(n) => Ok(Meaning::Constant(n)),
            Term::Name(name) => self.named(name, labels, column),
            _ if labels == Labels::Refused => Err(Unread::At(column, Expected::Constant)),
            Term::Before(n) => {
                let symbol = self.symbols.local_before(n);
                let symbol = symbol.ok_or(Unread::At(column, Expected::LocalBefore))?;
                Ok(Meaning::Label(symbol))
            }
            Term::After(n) => Ok(Meaning::Label(self.symbols.local_after(n)?)),
        }
    }

    // One term of a sum, with the sum before it.
    fn add_term(&mut self, labels: Labels, sum: Sum, negative: bool) -> Result<Sum, Unread> {
        let column = self.reader.column();
        let term = self.reader.term()?;
        let meaning = self.meaning(term, labels, column)?;
        if let Meaning::Label(symbol) = meaning {
            let line = self.line;
            self.symbols.mention(Mention {
                symbol,
                line,
                column,
            })?;
        }
        with_term(sum, meaning, negative).ok_or(Unread::At(column, Expected::OneLabel))
    }

    // Terms with plus and minus between them.
    fn terms(&mut self, labels: Labels) -> Result<Sum, Unread> {
        let mut sum = ZERO;
        let mut negative = self.reader.take(b'-');
        // counted: no contract says that each term takes a byte
        for _ in 0..u64::MAX {
            sum = self.add_term(labels, sum, negative)?;
            negative = self.reader.take(b'-');
            if !negative && !self.reader.take(b'+') {
                break;
            }
        }
        Ok(sum)
    }

    // A number that is known here.
    pub(crate) fn constant(&mut self) -> Result<u32, Unread> {
        Ok(self.terms(Labels::Refused)?.number)
    }

    // A part of a sum.
    pub(crate) fn sum(&mut self, part: Part) -> Result<Operand, Unread> {
        let sum = self.terms(Labels::Allowed)?;
        Ok(Operand { part, sum })
    }

    // A value: a sum, or its high or low part.
    pub(crate) fn value(&mut self) -> Result<Operand, Unread> {
        let column = self.reader.column();
        if !self.reader.take(b'%') {
            return self.sum(Part::Whole);
        }
        let part = match self.reader.word() {
            b"hi" => Part::High,
            b"lo" => Part::Low,
            _ => return Err(Unread::At(column, Expected::Value)),
        };
        self.reader.expect(b'(', Expected::Opening)?;
        let operand = self.sum(part)?;
        self.reader.expect(b')', Expected::Closing)?;
        Ok(operand)
    }

    // An offset and a register in brackets; the offset may be left out.
    pub(crate) fn address(&mut self) -> Result<(Operand, usize), Unread> {
        let offset = if self.reader.is_next(b'(') {
            zero()
        } else {
            self.value()?
        };
        Ok((offset, self.reader.base()?))
    }
}

// The number 0 as a value.
pub(crate) fn zero() -> Operand {
    Operand {
        part: Part::Whole,
        sum: ZERO,
    }
}
