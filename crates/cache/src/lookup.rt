// A core's cache in 640 lent words: where a line is, a word of it, what an instruction lacks, a store, and the slot for a line that comes.
ghost use Rattle.std.specs.Prelude.{◌≡◌, ℕ, suc, ◌/◌, ◌%◌, true, List, length, IfSome, slice_set};
ghost use Rattle.cache.specs.Slots.{cached, goes_first, chosen, find, found, has, holds, home, seek, words};
ghost use Rattle.cache.specs.Words.{found_of, holding, lack_of, slot_of, slots_of, stored_at, stored_in};

use crate::content::Tags;
use crate::index::SlotIndex;
use crate::slot::{Access, Lack, Slot};
use rv32::core_state::Need;
use words::table::at;

// What a slot has, without its words.
pub fn slot_at(cache: &[u32; 640], i: SlotIndex) -> Slot
    ensures { holding result (words (slots_of cache.now i)) ≡ slots_of cache.now i }
{
    at::<Tags>(cache, i.number())
}

// The slot that has the line.
pub fn find(cache: &[u32; 640], line: u32) -> Option<SlotIndex>
    ensures value { found_of result ≡ find (slots_of cache.now) 0 line }
    ensures there { IfSome result (λ i. has (slots_of cache.now i) line ≡ true) }
{
    // Two tests: that a search of an array finds the first of two was not proved.
    let [first, second] = SlotIndex::both_for(line);
    if slot_at(cache, first).has(line) {
        Some(first)
    } else if slot_at(cache, second).has(line) {
        Some(second)
    } else {
        None
    }
}

// The word of that number, where its line is in the cache; else 0.
pub fn word(cache: &[u32; 640], number: u32) -> u32
    ensures { result ≡ cached (slots_of cache.now) 0 number }
{
    // A match: a closure that reads the cache does not know that the slot was found.
    match find(cache, number / 8) {
        Some(i) => cache[10 * i.number() + 2 + (number % 8) as usize],
        None => 0,
    }
}

// Whether the cache has what an instruction needs, or what it lacks.
pub fn require(cache: &[u32; 640], need: Need) -> Result<(), Lack>
    ensures { lack_of result ≡ seek (slots_of cache.now) 0 need }
{
    let (line, access, there) = match need {
        Need::Nothing => return Ok(()),
        Need::Read(number) => {
            let line = number / 8;
            (line, Access::Read, find(cache, line).is_some())
        }
        Need::Write(number) => {
            let line = number / 8;
            (
                line,
                Access::Write,
                find(cache, line).is_some_and(|i| slot_at(cache, i).owns(line)),
            )
        }
    };
    if there {
        Ok(())
    } else {
        Err(Lack { line, access })
    }
}

// A word of a slot that has its line: from now on it is the value, and the slot is owned and dirty.
fn store_in(block: &mut [u32], number: u32, value: u32)
    requires { (length block.old ≡ 10) × (has (slot_of block.old) (number / 8) ≡ true) }
    ensures { slot_of block.new ≡ holds (number / 8) true true (slice_set (words (slot_of block.old)) (number % 8) value) }
{
    block[0] = 3;
    block[2 + (number % 8) as usize] = value;
}

// The same of a slot of the cache: the line is a part of the lent cache, lent on to be written.
fn store_at(cache: &mut [u32; 640], i: SlotIndex, number: u32, value: u32)
    requires { has (slots_of cache.old i) (number / 8) ≡ true }
    ensures { slots_of cache.new ≡ stored_at (found i) number value (slots_of cache.old) }
{
    let from = 10 * i.number();
    store_in(&mut cache[from..from + 10], number, value);
}

// The word of that number is the value from now on, where its line is in the cache.
pub fn store(cache: &mut [u32; 640], number: u32, value: u32)
    ensures value { slots_of cache.new ≡ stored_in (slots_of cache.old) 0 number value }
    ensures long { length cache.new ≡ 640 }
{
    if let Some(i) = find(cache, number / 8) {
        store_at(cache, i, number, value);
    }
}

// Whether a line that comes goes to the first of its two slots: to one that is empty; else not to that of the line from which the
// instruction is fetched; else by the way given.
fn goes_first(here: Slot, next: Slot, code_line: u32, way: bool) -> bool
    ensures { (v w : List ℕ) → result ≡ goes_first (holding here v) (holding next w) code_line way }
{
    here.is_empty() || !next.is_empty() && !here.has(code_line) && (next.has(code_line) || way)
}

// The slot for a line that is lacked: where it is already, to read; or one of its two.
pub fn place_for(cache: &[u32; 640], line: u32, code_line: u32, way: bool) -> SlotIndex
    ensures { result ≡ chosen (find (slots_of cache.now) 0 line) 0 line (goes_first (slots_of cache.now (home 0 line)) (slots_of cache.now (suc (home 0 line))) code_line way) }
{
    if let Some(i) = find(cache, line) {
        return i;
    }
    let [first, second] = SlotIndex::both_for(line);
    if goes_first(
        slot_at(cache, first),
        slot_at(cache, second),
        code_line,
        way,
    ) {
        first
    } else {
        second
    }
}
