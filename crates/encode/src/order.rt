// The marks for order of an atomic operation's word.
ghost use Rattle.std.specs.Prelude.{◌≡◌};
ghost use Rattle.encode.specs.Encode.{with_order};
ghost use Rattle.encode.specs.Laws.{Marked, SameAmo};

use words::word::bits;

// Whether later accesses wait for the operation, and whether it waits for earlier ones.
#[derive(Clone, Copy, PartialEq, Eq, Debug, Default)]
pub struct Order {
    pub acquire: bool,
    pub release: bool,
}

fn with_marks(word: u32, order: Order) -> u32
    ensures { result ≡ with_order word order }
{
    let marks = u32::from(order.acquire) * 2 + u32::from(order.release);
    word - (bits(word, 25, 2) << 25) + (marks << 25)
}

// The word with these marks in the place of those that it has.
pub fn ordered(word: u32, order: Order) -> u32
    ensures value { result ≡ with_order word order }
    ensures marked { Marked order result }
    ensures same { SameAmo word result }
{
    with_marks(word, order)
}
