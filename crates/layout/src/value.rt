// The labels' values, and what operands come to.
ghost use Rattle.std.specs.Prelude.{◌≡◌};
ghost use Rattle.layout.specs.Layout.{filled, high, label_value, named, part_of, sum_of, value_of, with_operand};

use crate::statement::{Operand, Part, Statement, Sum};
use rv32::instruction::Instruction;
use words::word::sign_extended;

// A label's value, if the statement is a label, is the address here.
pub(crate) fn name(values: &mut [u32], here: u32, statement: Statement)
    ensures { values.new ≡ named here statement values.old }
{
    match statement {
        // not by `get_mut`: a proof would know no value afterwards
        Statement::Label { symbol } if symbol < values.len() => values[symbol] = here,
        _ => {}
    }
}

// What the value of an operand depends on: the labels' values, and where its statement stands.
#[derive(Clone, Copy)]
pub(crate) struct Place<'a> {
    pub(crate) values: &'a [u32],
    pub(crate) here: u32,
}

impl Place<'_> {
    // A label's value; 0 for none.
    fn label(self, symbol: Option<usize>) -> u32
        ensures { result ≡ label_value self.entry.values.now symbol }
    {
        symbol.map_or(0, |k| self.values.get(k).copied().unwrap_or(0))
    }

    fn sum(self, terms: Sum) -> u32
        ensures { result ≡ sum_of self.entry.values.now terms }
    {
        self.label(terms.plus)
            .wrapping_sub(self.label(terms.minus))
            .wrapping_add(terms.number)
    }

    pub(crate) fn value(self, operand: Operand) -> u32
        ensures { result ≡ value_of self.entry.values.now self.entry.here operand }
    {
        part_of(operand.part, self.here, self.sum(operand.sum))
    }

    // The instruction with its operand's value, if it has an operand.
    pub(crate) fn with_operand(
        self,
        instruction: Instruction,
        operand: Option<Operand>,
    ) -> Instruction
        ensures { result ≡ with_operand self.entry.values.now self.entry.here instruction operand }
    {
        match operand {
            Some(o) => filled(instruction, self.value(o)),
            None => instruction,
        }
    }
}

// What goes with the low 12 bits.
fn high(x: u32) -> u32
    ensures { result ≡ high x }
{
    let rounded = x.wrapping_add(0x800);
    rounded - rounded % 0x1000
}

fn part_of(part: Part, here: u32, x: u32) -> u32
    ensures { result ≡ part_of part here x }
{
    match part {
        Part::Whole => x,
        Part::High => high(x),
        Part::Low => sign_extended(x, 12),
        Part::Relative => x.wrapping_sub(here),
        Part::RelativeHigh => high(x.wrapping_sub(here)),
        Part::RelativeLow => sign_extended(x.wrapping_sub(here.wrapping_sub(4)), 12),
    }
}

// The instruction with another immediate, if it has one.
fn filled(instruction: Instruction, x: u32) -> Instruction
    ensures { result ≡ filled instruction x }
{
    match instruction {
        Instruction::Lui { rd, .. } => Instruction::Lui { rd, value: x },
        Instruction::Auipc { rd, .. } => Instruction::Auipc { rd, offset: x },
        Instruction::Jal { rd, .. } => Instruction::Jal { rd, offset: x },
        Instruction::Jalr { rd, rs1, .. } => Instruction::Jalr { rd, rs1, offset: x },
        Instruction::Branch { kind, rs1, rs2, .. } => Instruction::Branch {
            kind,
            rs1,
            rs2,
            offset: x,
        },
        Instruction::Load { kind, rd, rs1, .. } => Instruction::Load {
            kind,
            rd,
            rs1,
            offset: x,
        },
        Instruction::Store { kind, rs1, rs2, .. } => Instruction::Store {
            kind,
            rs1,
            rs2,
            offset: x,
        },
        Instruction::OpImm {
            operation,
            rd,
            rs1,
            ..
        } => Instruction::OpImm {
            operation,
            rd,
            rs1,
            value: x,
        },
        Instruction::Op { .. }
        | Instruction::Amo { .. }
        | Instruction::Fence
        | Instruction::Ecall
        | Instruction::Ebreak
        | Instruction::Mret
        | Instruction::Illegal => instruction,
    }
}
