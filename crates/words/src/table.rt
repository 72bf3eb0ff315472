// Tables in lent words: values that take so many words each, one after another.
ghost use Rattle.std.specs.Prelude.{◌≡◌, ℕ, ◌+◌, ◌*◌, ◌≤◌, List, length};
ghost use Rattle.words.specs.Parts.{put, table};

// A kind of table, by what its values are, and how one lies in the words of its place.
pub trait Table {
    type Value;

    // how many words a place has
    const SIZE: usize;

    ghost SIZE: { ℕ };

    // What contracts know a value by, which may depend on its place.
    ghost Meaning: { Type 0 };

    ghost means: { ℕ → Self.Value → Meaning };

    // what the words of a place mean
    ghost said: { ℕ → List ℕ → Meaning };

    fn read(block: &[u32]) -> Self::Value
        requires { length block.now ≡ SIZE }
        ensures { (k : ℕ) → means k result ≡ said k block.now };

    fn write(block: &mut [u32], value: Self::Value)
        requires { length block.old ≡ SIZE }
        ensures { (k : ℕ) → said k block.new ≡ means k value };
}

// What place k of a table has.
pub fn at<T: Table>(words: &[u32], k: usize) -> T::Value
    requires { T.SIZE * k + T.SIZE ≤ length words.now }
    ensures { T.means k result ≡ table T.SIZE T.said words.now k }
{
    let from = T::SIZE * k;
    T::read(&words[from..from + T::SIZE])
}

// Place k has this from now on, and all others have what they had.
pub fn put_at<T: Table>(words: &mut [u32], k: usize, value: T::Value)
    requires { T.SIZE * k + T.SIZE ≤ length words.old }
    ensures { table T.SIZE T.said words.new ≡ put (table T.SIZE T.said words.old) k (T.means k value) }
{
    let start = T::SIZE * k;
    T::write(&mut words[start..start + T::SIZE], value);
}
