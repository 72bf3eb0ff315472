// A line of a source, read from left to right; blanks before what is read are passed over.
use crate::fault::{Expected, Unread};
use lexicon::literal::number;
use lexicon::register::register_of;

// What may stand in a sum.
#[derive(Clone, Copy)]
pub(crate) enum Term<'a> {
    Number(u32),
    Name(&'a [u8]),
    // the last local label of this number before here, as 1b
    Before(u32),
    // the next one after here, as 1f
    After(u32),
}

#[derive(Clone, Copy)]
pub(crate) struct Reader<'a> {
    rest: &'a [u8],
    // where the rest begins, counted from 1
    column: usize,
}

fn is_blank(byte: u8) -> bool {
    matches!(byte, b' ' | b'\t' | b'\r')
}

fn is_of_name(byte: u8) -> bool {
    byte.is_ascii_alphanumeric() || matches!(byte, b'_' | b'.' | b'$')
}

// A local label as it is referred to: digits, then b or f.
fn local<'a>(word: &'a [u8]) -> Option<Term<'a>> {
    match word {
        [digits @ .., b'b'] => Some(Term::Before(number(digits)?)),
        [digits @ .., b'f'] => Some(Term::After(number(digits)?)),
        _ => None,
    }
}

impl<'a> Reader<'a> {
    // A line, up to a comment.
    pub(crate) fn new(line: &'a [u8]) -> Self {
        Reader {
            rest: line.split(|byte| *byte == b'#').next().unwrap_or(line),
            column: 1,
        }
    }

    // Passes the bytes that come next and are of a kind.
    fn take_while<F: Fn(u8) -> bool>(&mut self, is_of_kind: F) -> &'a [u8]
        requires { F.IsAlwaysCallable is_of_kind }
    {
        let rest = self.rest;
        let count = rest.iter().take_while(|byte| is_of_kind(**byte)).count();
        let Some((taken, rest)) = rest.split_at_checked(count) else {
            return rest;
        };
        self.rest = rest;
        self.column = self.column.saturating_add(count);
        taken
    }

    // The next byte that is not blank.
    fn peek(&mut self) -> Option<u8> {
        let _ = self.take_while(is_blank);
        self.rest.first().copied()
    }

    // Where the next thing stands, counted from 1.
    pub(crate) fn column(&mut self) -> usize {
        let _ = self.peek();
        self.column
    }

    pub(crate) fn at_end(&mut self) -> bool {
        self.peek().is_none()
    }

    // A fault at the next thing.
    pub(crate) fn fault<T>(&mut self, expected: Expected) -> Result<T, Unread> {
        Err(Unread::At(self.column(), expected))
    }

    pub(crate) fn is_next(&mut self, byte: u8) -> bool {
        self.peek() == Some(byte)
    }

    // Passes this byte, if it is next.
    pub(crate) fn take(&mut self, byte: u8) -> bool {
        if !self.is_next(byte) {
            return false;
        }
        if let Some((_, rest)) = self.rest.split_first() {
            self.rest = rest;
            self.column = self.column.saturating_add(1);
        }
        true
    }

    pub(crate) fn expect(&mut self, byte: u8, expected: Expected) -> Result<(), Unread> {
        if self.take(byte) {
            Ok(())
        } else {
            self.fault(expected)
        }
    }

    pub(crate) fn comma(&mut self) -> Result<(), Unread> {
        self.expect(b',', Expected::Comma)
    }

    // The letters, digits, underscores, dots and dollars that come next; there may be none.
    pub(crate) fn word(&mut self) -> &'a [u8] {
        let _ = self.peek();
        self.take_while(is_of_name)
    }

    // A name that begins with no digit.
    pub(crate) fn name(&mut self) -> Option<&'a [u8]> {
        if self
            .peek()
            .is_none_or(|byte| byte.is_ascii_digit() || !is_of_name(byte))
        {
            return None;
        }
        Some(self.word())
    }

    pub(crate) fn register(&mut self) -> Result<usize, Unread> {
        let column = self.column();
        register_of(self.word()).ok_or(Unread::At(column, Expected::Register))
    }

    // A register, if the next word is one's name.
    pub(crate) fn take_register(&mut self) -> Option<usize> {
        let mut ahead = *self;
        let register = register_of(ahead.word())?;
        *self = ahead;
        Some(register)
    }

    // A register in brackets.
    pub(crate) fn base(&mut self) -> Result<usize, Unread> {
        self.expect(b'(', Expected::Opening)?;
        let register = self.register()?;
        self.expect(b')', Expected::Closing)?;
        Ok(register)
    }

    // A number, a name, or a local label.
    pub(crate) fn term(&mut self) -> Result<Term<'a>, Unread> {
        let column = self.column();
        if let Some(name) = self.name() {
            return Ok(Term::Name(name));
        }
        let word = self.word();
        if word.is_empty() {
            return Err(Unread::At(column, Expected::Value));
        }
        number(word)
            .map(|n| Term::Number(n))
            .or_else(|| local(word))
            .ok_or(Unread::At(column, Expected::Number))
    }
}
