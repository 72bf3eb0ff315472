// Where statements stand.
ghost use Rattle.std.specs.Prelude.{◌≡◌, ◌≤◌};
ghost use Rattle.layout.specs.Layout.{aligned, count, end, next, placed, within};
ghost use Rattle.layout.specs.Laws.{Enough};

use crate::fault::Fault;
use crate::statement::{Statement, Width};

impl Width {
    // How many bytes it has.
    pub(crate) fn count(self) -> usize
        ensures { result ≡ count self }
    {
        match self {
            Width::Byte => 1,
            Width::Half => 2,
            Width::Word => 4,
        }
    }
}

// The first multiple of 2^bits that is not below here.
fn aligned(here: u32, bits: u32) -> u64
    requires { bits ≤ 20 }
    ensures { result ≡ aligned here bits }
{
    let unit = 1u64 << bits;
    let over = here as u64 % unit;
    if over == 0 {
        here as u64
    } else {
        here as u64 + (unit - over)
    }
}

// An address, if memory goes so far.
fn within(size: u32, address: u64) -> Result<u32, Fault>
    ensures { result ≡ within size address }
{
    if address > size as u64 {
        return Err(Fault::Outside);
    }
    Ok(address as u32)
}

// The address after a statement, or what keeps it from standing here.
pub(crate) fn placed(size: u32, here: u32, statement: Statement) -> Result<u32, Fault>
    ensures { result ≡ placed size here statement }
{
    match statement {
        Statement::Label { .. } => Ok(here),
        Statement::Code { .. } => {
            if here % 4 != 0 {
                return Err(Fault::Misaligned);
            }
            within(size, here as u64 + 4)
        }
        Statement::Data { width, .. } => within(size, here as u64 + width.count() as u64),
        Statement::Align { bits } => {
            if bits > 20 {
                return Err(Fault::Outside);
            }
            within(size, aligned(here, bits))
        }
        Statement::Origin { address } => {
            if address < here {
                return Err(Fault::Backwards);
            }
            within(size, address as u64)
        }
    }
}

// The address of what follows a statement; one that cannot stand here takes no room.
pub(crate) fn next(size: u32, here: u32, statement: Statement) -> u32
    ensures value { result ≡ next size here statement }
    ensures inside { here ≤ size → result ≤ size }
{
    placed(size, here, statement).unwrap_or(here)
}

#[tactic(auto, unfolding(crate::specs::Layout::end))]
fn end(statements: &[Statement], size: u32) -> u32
    ensures { result ≡ end size 0 statements.now }
{
    statements
        .iter()
        .fold(0, |here, statement| next(size, here, *statement))
}

// The address after the last statement, in a memory of so many bytes; a smaller memory that goes so far is enough.
pub fn extent(statements: &[Statement], size: u32) -> u32
    ensures value { result ≡ end size 0 statements.now }
    ensures enough { Enough size statements.now result }
{
    end(statements, size)
}
