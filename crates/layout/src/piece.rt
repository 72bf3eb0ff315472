// The bytes of a statement, and where they go.
ghost use Rattle.std.specs.Prelude.{◌≡◌, ◌+◌, ◌-◌, ◌≤◌, length, take, IfOk};
ghost use Rattle.std.specs.Result.{result_err};
ghost use Rattle.layout.specs.Layout.{bytes_in, code, count, filler, marked, narrow, outcome, padding, stored, written};
ghost use Rattle.layout.specs.Pieces.{first_bytes};

use crate::fault::Fault;
use crate::place::placed;
use crate::statement::{Statement, Width};
use crate::value::Place;
use encode::encoding::encoded;
use encode::order::{Order, ordered};
use rv32::instruction::Instruction;

// An AMO's word has the marks of its order.
fn marked(instruction: Instruction, order: Order, word: u32) -> u32
    ensures { result ≡ marked instruction order word }
{
    match instruction {
        Instruction::Amo { .. } => ordered(word, order),
        _ => word,
    }
}

fn code(instruction: Instruction, order: Order) -> Result<[u8; 4], Fault>
    ensures { result ≡ code instruction order }
{
    let word = encoded(instruction)?;
    Ok(marked(instruction, order, word).to_le_bytes())
}

impl Width {
    // Whether a word is a number of so many bytes, with or without a sign.
    fn holds(self, x: u32) -> bool
        ensures { result ≡ narrow self x }
    {
        match self {
            Width::Byte => x < 0x100 || x >= 0xffff_ff80,
            Width::Half => x < 0x1_0000 || x >= 0xffff_8000,
            Width::Word => true,
        }
    }
}

// A word's bytes, of which the width takes the first ones.
fn stored(width: Width, x: u32) -> Result<[u8; 4], Fault>
    ensures { first_bytes (count width) result ≡ stored width x }
{
    if width.holds(x) {
        Ok(x.to_le_bytes())
    } else {
        Err(Fault::TooWide)
    }
}

// Writes bytes from an address on.
fn put(memory: &mut [u8], at: usize, bytes: &[u8])
    requires { at + length bytes.now ≤ length memory.old }
    ensures { memory.new ≡ written at bytes.now memory.old }
{
    memory[at..at + bytes.len()].copy_from_slice(bytes);
}

// The byte that lies between statements at an address: each whole word of them is a NOP.
fn filler(address: usize) -> u8
    ensures { result ≡ filler address }
{
    if address % 4 == 0 { 0x13 } else { 0 }
}

fn pad(memory: &mut [u8], from: usize, to: usize)
    requires { (from ≤ to) × (to ≤ length memory.old) }
    ensures { memory.new ≡ written from (padding from (to - from)) memory.old }
{
    // a byte follows from its address, so no plainer by `iter_mut`
    for at in from..to {
        memory[at] = filler(at);
    }
}

// Writes a statement's bytes to where it stands, if it has no fault.
#[tactic(auto, unfolding(crate::specs::Layout::written))]
pub(crate) fn write(
    memory: &mut [u8],
    size: u32,
    values: &[u32],
    here: u32,
    statement: Statement,
) -> Result<(), Fault>
    requires { (length memory.old ≡ size) × (here ≤ size) }
    ensures value { result_err result ≡ result_err (outcome size values.now here statement) }
    ensures after { memory.new ≡ written here (bytes_in (outcome size values.now here statement)) memory.old }
{
    let end = placed(size, here, statement)?;
    let at = here as usize;
    let place = Place { values, here };
    match statement {
        Statement::Label { .. } | Statement::Origin { .. } => {}
        Statement::Code {
            instruction,
            order,
            operand,
        } => put(
            memory,
            at,
            &code(place.with_operand(instruction, operand), order)?,
        ),
        Statement::Data { width, operand } => put(
            memory,
            at,
            &stored(width, place.value(operand))?[..width.count()],
        ),
        Statement::Align { .. } => pad(memory, at, end as usize),
    }
    Ok(())
}
