// A memory, written out as bytes.
ghost use Rattle.std.specs.Prelude.{◌≡◌, ◌+◌, ◌*◌, ◌/◌, ◌≤◌, ◌++◌, length, take, drop, IfOk, OnErr, OnOk};
ghost use Rattle.image.specs.Memory.{bytes_of, image};
ghost use Rattle.image.specs.Store.{store_bytes_rule, store_rule, Room, stored, stored_bytes};

// Why a memory is not written out.
#[derive(Clone, Copy, PartialEq, Eq, Debug)]
pub enum StoreFault {
    NoSuchCores,
    NoWholeLines,
    NoRoom,
}

// How many bytes so many words take.
fn stored_length(cores: usize, words: usize, room: usize) -> Result<usize, StoreFault>
    ensures value { result ≡ store_rule cores words room }
    ensures fits { IfOk result (λ n. Room cores words room n) }
{
    if !(1..=4).contains(&cores) {
        return Err(StoreFault::NoSuchCores);
    }
    if words % 8 != 0 || !(8..=524288).contains(&words) {
        return Err(StoreFault::NoWholeLines);
    }
    let length = 9 + 4 * words;
    if room < length {
        return Err(StoreFault::NoRoom);
    }
    Ok(length)
}

// Writes the first nine bytes.
fn write_front(bytes: &mut [u8], cores: u8, lines: u32)
    requires { 9 ≤ length bytes.old }
    ensures { bytes.new ≡ image cores lines (drop 9 bytes.old) }
{
    let [a, b, c, d] = lines.to_le_bytes();
    bytes[0..9].copy_from_slice(&[b'C', b'H', b'I', b'P', cores, a, b, c, d]);
}

// Writes the front of a memory of so many words, and says how many bytes the memory takes. A refusal leaves the bytes as they were.
fn begin(cores: usize, words: usize, bytes: &mut [u8]) -> Result<usize, StoreFault>
    ensures value { result ≡ store_rule cores words (length bytes.old) }
    ensures fits { IfOk result (λ n. Room cores words (length bytes.old) n) }
    ensures front { OnOk result (bytes.new ≡ image cores (words / 8) (drop 9 bytes.old)) }
    ensures same { OnErr result (bytes.new ≡ bytes.old) }
{
    let length = stored_length(cores, words, bytes.len())?;
    write_front(bytes, cores as u8, (words / 8) as u32);
    Ok(length)
}

// Writes words from the tenth byte on.
fn write_words(memory: &[u32], bytes: &mut [u8])
    requires { 9 + 4 * length memory.now ≤ length bytes.old }
    ensures { bytes.new ≡ take 9 bytes.old ++ bytes_of memory.now ++ drop (9 + 4 * length memory.now) bytes.old }
{
    for (i, word) in memory.iter().enumerate() {
        bytes[9 + 4 * i..13 + 4 * i].copy_from_slice(&word.to_le_bytes());
    }
}

// Writes bytes from the tenth byte on.
fn write_bytes(memory: &[u8], bytes: &mut [u8])
    requires { 9 + length memory.now ≤ length bytes.old }
    ensures { bytes.new ≡ take 9 bytes.old ++ memory.now ++ drop (9 + length memory.now) bytes.old }
{
    bytes[9..9 + memory.len()].copy_from_slice(memory);
}

// Writes a memory out at the front of lent bytes, and says how many it took. A refusal leaves them as they were.
pub fn store(cores: usize, memory: &[u32], bytes: &mut [u8]) -> Result<usize, StoreFault>
    ensures value { result ≡ store_rule cores (length memory.now) (length bytes.old) }
    ensures after { bytes.new ≡ stored result cores memory.now bytes.old }
{
    let length = begin(cores, memory.len(), bytes)?;
    write_words(memory, bytes);
    Ok(length)
}

// The same for a memory that is given as bytes, low byte of each word first.
pub fn store_bytes(cores: usize, memory: &[u8], bytes: &mut [u8]) -> Result<usize, StoreFault>
    ensures value { result ≡ store_bytes_rule cores (length memory.now) (length bytes.old) }
    ensures after { bytes.new ≡ stored_bytes result cores memory.now bytes.old }
{
    if memory.len() % 4 != 0 {
        return Err(StoreFault::NoWholeLines);
    }
    let length = begin(cores, memory.len() / 4, bytes)?;
    write_bytes(memory, bytes);
    Ok(length)
}
