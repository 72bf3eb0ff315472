// Fields of a word, its bytes and halves, and sign extension.
ghost use Rattle.std.specs.Prelude.{◌≡◌, ◌+◌, ◌<◌, ◌≤◌};
ghost use Rattle.words.specs.Laws.{ExtendedSame, FieldReplaced, FourBytes, TwoHalves};
ghost use Rattle.words.specs.Word.{byte_at, extend, field, half_at, replace, with_byte, with_half};

// `size` bits of a word from bit `low`.
pub fn bits(word: u32, low: u32, size: u32) -> u32
    ensures { result ≡ field word low size }
{
    if low >= 32 {
        0
    } else if size >= 32 {
        word >> low
    } else {
        (word >> low) % (1 << size)
    }
}

// The low `size` bits of x as a word of the same sign.
pub fn sign_extended(x: u32, size: u32) -> u32
    ensures { result ≡ extend size x }
{
    if size == 0 {
        return 0;
    }
    if size >= 32 {
        return x;
    }
    let low = bits(x, 0, size);
    let half = 1 << (size - 1);
    if low < half {
        low
    } else {
        (low - half).wrapping_sub(half)
    }
}

// The byte of a word that an address is of, low byte first.
pub fn byte_at(word: u32, address: u32) -> u32
    ensures { result ≡ byte_at word address }
{
    bits(word, 8 * (address % 4), 8)
}

// The half of a word that an address is of.
pub fn half_at(word: u32, address: u32) -> u32
    ensures { result ≡ half_at word address }
{
    bits(word, 16 * (address / 2 % 2), 16)
}

// `size` bits from bit `low` replaced by the low bits of x.
fn replaced(word: u32, low: u32, size: u32, x: u32) -> u32
    requires { (low + size ≤ 32) × ((low < 32) × (size < 32)) }
    ensures { result ≡ replace word low size x }
{
    word - (bits(word, low, size) << low) + (bits(x, 0, size) << low)
}

// The word with that byte replaced by the low bits of x.
pub fn with_byte(word: u32, address: u32, x: u32) -> u32
    ensures { result ≡ with_byte word address x }
{
    replaced(word, 8 * (address % 4), 8, x)
}

// The word with that half replaced by the low bits of x.
pub fn with_half(word: u32, address: u32, x: u32) -> u32
    ensures { result ≡ with_half word address x }
{
    replaced(word, 16 * (address / 2 % 2), 16, x)
}

// A word is its four bytes, or its two halves, low byte first; what is written of it is there, and the rest stays; extension keeps the bits.
pub fn parts_of_a_word()
    ensures { (FourBytes) × ((TwoHalves) × ((FieldReplaced) × (ExtendedSame))) }
{}
