// Numbers as they are written, and the two parts of a number that two instructions load.
ghost use Rattle.std.specs.Prelude.{◌≡◌, ◌≤◌};
ghost use Rattle.lexicon.specs.Literal.{Splits, digits, number_of, with_digit};

use words::word::sign_extended;

// A number with one digit more, to a base; none where the byte is no digit of it, or the number takes more than 32 bits.
fn with_digit(number: Option<u32>, byte: u8, base: u32) -> Option<u32>
    requires { (2 ≤ base) × (base ≤ 16) }
    ensures { result ≡ with_digit base number byte }
{
    let digit = char::from(byte).to_digit(base)?;
    number?.checked_mul(base)?.checked_add(digit)
}

// The number that digits to a base are.
fn in_base(text: &[u8], base: u32) -> Option<u32>
    requires { (2 ≤ base) × (base ≤ 16) }
    ensures { result ≡ digits base text.now }
{
    if text.is_empty() {
        return None;
    }
    text.iter()
        .fold(Some(0), |number, byte| with_digit(number, *byte, base))
}

// The number that a text is: decimal digits, or 0x and hexadecimal digits. None where it is neither, or takes more than 32 bits.
pub fn number(text: &[u8]) -> Option<u32>
    ensures { result ≡ number_of text.now }
{
    match text {
        [b'0', b'x' | b'X', digits @ ..] => in_base(digits, 16),
        _ => in_base(text, 10),
    }
}

// A number as what LUI loads and what ADDI then adds.
pub fn split(value: u32) -> (u32, u32)
    ensures { Splits value result.0 result.1 }
{
    let low = sign_extended(value % 4096, 12);
    (value.wrapping_sub(low), low)
}
