// The formats of an instruction word, put together from operands that are tested first.
ghost use Rattle.std.specs.Prelude.{◌≡◌, [], ◌∷◌, nat_lt};
ghost use Rattle.encode.specs.Encode.{b_type, branch_fault, first, Gives, i_type, immediate_fault, is_offset, j_type, jump_fault, r_type, register_fault, s_type, u_type, unless, upper_fault};
ghost use Rattle.encode.specs.Fields.{GivesField, second_fault, second_number};

use crate::field::{Field, Funct3, Funct7, Opcode, Register};
use crate::misfit::Misfit;
use words::word::{bits, sign_extended};

// A number of five bits.
fn five_bits(x: u64, misfit: Misfit) -> Result<Field<5>, Misfit>
    ensures { GivesField (unless (nat_lt x 32) misfit) x result }
{
    if x < 32 {
        Ok(Field { number: x as u32 })
    } else {
        Err(misfit)
    }
}

fn register(n: usize) -> Result<Register, Misfit>
    ensures { GivesField (register_fault n) n result }
{
    five_bits(n as u64, Misfit::Register)
}

fn immediate(x: u32) -> Result<u32, Misfit>
    ensures { Gives (immediate_fault x) x result }
{
    if sign_extended(x, 12) == x {
        Ok(x)
    } else {
        Err(Misfit::Immediate)
    }
}

fn upper(x: u32) -> Result<u32, Misfit>
    ensures { Gives (upper_fault x) x result }
{
    if bits(x, 12, 20) << 12 == x {
        Ok(x)
    } else {
        Err(Misfit::Upper)
    }
}

// An even number of `size` bits with its sign extended.
fn even_extended(x: u32, size: u32, misfit: Misfit) -> Result<u32, Misfit>
    ensures { Gives (unless (is_offset size x) misfit) x result }
{
    if x % 2 == 0 && sign_extended(x, size) == x {
        Ok(x)
    } else {
        Err(misfit)
    }
}

// What stands where format R has its second source.
#[derive(Clone, Copy)]
pub(crate) enum Second {
    Register(usize),
    // the amount of a shift
    Amount(u32),
}

impl Second {
    fn field(self) -> Result<Field<5>, Misfit>
        ensures { GivesField (second_fault self) (second_number self) result }
    {
        match self {
            Second::Register(n) => register(n),
            Second::Amount(x) => five_bits(x as u64, Misfit::Shift),
        }
    }
}

// The fields of format R, each in its place.
fn joined(
    funct7: Funct7,
    rs2: Register,
    rs1: Register,
    funct3: Funct3,
    rd: Register,
    opcode: Opcode,
) -> u32
    ensures { result ≡ r_type funct7.number rs2.number rs1.number funct3.number rd.number opcode.number }
{
    (funct7.number << 25)
        + (rs2.number << 20)
        + (rs1.number << 15)
        + (funct3.number << 12)
        + (rd.number << 7)
        + opcode.number
}

pub(crate) fn r_type(
    funct7: Funct7,
    second: Second,
    rs1: usize,
    funct3: Funct3,
    rd: usize,
    opcode: Opcode,
) -> Result<u32, Misfit>
    ensures { Gives (first (register_fault rd ∷ register_fault rs1 ∷ second_fault second ∷ [])) (r_type funct7.number (second_number second) rs1 funct3.number rd opcode.number) result }
{
    let d = register(rd)?;
    let s = register(rs1)?;
    let t = second.field()?;
    Ok(joined(funct7, t, s, funct3, d, opcode))
}

pub(crate) fn i_type(
    value: u32,
    rs1: usize,
    funct3: Funct3,
    rd: usize,
    opcode: Opcode,
) -> Result<u32, Misfit>
    ensures { Gives (first (register_fault rd ∷ register_fault rs1 ∷ immediate_fault value ∷ [])) (i_type value rs1 funct3.number rd opcode.number) result }
{
    let d = register(rd)?;
    let s = register(rs1)?;
    let x = immediate(value)?;
    Ok(
        (bits(x, 0, 12) << 20)
            + (s.number << 15)
            + (funct3.number << 12)
            + (d.number << 7)
            + opcode.number,
    )
}

pub(crate) fn s_type(
    offset: u32,
    rs2: usize,
    rs1: usize,
    funct3: Funct3,
    opcode: Opcode,
) -> Result<u32, Misfit>
    ensures { Gives (first (register_fault rs1 ∷ register_fault rs2 ∷ immediate_fault offset ∷ [])) (s_type offset rs2 rs1 funct3.number opcode.number) result }
{
    let s = register(rs1)?;
    let t = register(rs2)?;
    let x = immediate(offset)?;
    Ok(joined(
        Field::of_bits(x, 5),
        t,
        s,
        funct3,
        Field::of_bits(x, 0),
        opcode,
    ))
}

pub(crate) fn b_type(
    offset: u32,
    rs2: usize,
    rs1: usize,
    funct3: Funct3,
    opcode: Opcode,
) -> Result<u32, Misfit>
    ensures { Gives (first (register_fault rs1 ∷ register_fault rs2 ∷ branch_fault offset ∷ [])) (b_type offset rs2 rs1 funct3.number opcode.number) result }
{
    let s = register(rs1)?;
    let t = register(rs2)?;
    let x = even_extended(offset, 13, Misfit::BranchOffset)?;
    let high = Field {
        number: (bits(x, 12, 1) << 6) + bits(x, 5, 6),
    };
    let low = Field {
        number: (bits(x, 1, 4) << 1) + bits(x, 11, 1),
    };
    Ok(joined(high, t, s, funct3, low, opcode))
}

pub(crate) fn u_type(value: u32, rd: usize, opcode: Opcode) -> Result<u32, Misfit>
    ensures { Gives (first (register_fault rd ∷ upper_fault value ∷ [])) (u_type value rd opcode.number) result }
{
    let d = register(rd)?;
    let x = upper(value)?;
    Ok((bits(x, 12, 20) << 12) + (d.number << 7) + opcode.number)
}

pub(crate) fn j_type(offset: u32, rd: usize, opcode: Opcode) -> Result<u32, Misfit>
    ensures { Gives (first (register_fault rd ∷ jump_fault offset ∷ [])) (j_type offset rd opcode.number) result }
{
    let d = register(rd)?;
    let x = even_extended(offset, 21, Misfit::JumpOffset)?;
    let high = (bits(x, 20, 1) << 31) + (bits(x, 1, 10) << 21);
    let low = (bits(x, 11, 1) << 20) + (bits(x, 12, 8) << 12);
    Ok(high + low + (d.number << 7) + opcode.number)
}
