// A listener that keeps all that it hears.
ghost use Rattle.std.specs.Prelude.{◌≡◌, ℕ, ◌+◌, ◌≤◌, List, [], ◌∷◌, ◌++◌, map, length, vec_len, vec_capacity, slice_index};
ghost use Rattle.cores.specs.Ports.{event_of, said_at, somes};
ghost use Rattle.system.specs.Record.{pair_of, recorded};

use crate::listener::{Listener, Unheard};
use cores::port::{Event, Out};
use std::alloc::Global;

// A word that a core has said.
#[derive(Clone, Copy)]
pub struct Said {
    pub core: usize,
    pub word: u32,
}

// The words said and the events done, and how many of these fell in each cycle: the events lie in one row, since the machines do them as one.
#[derive(Drop)]
pub struct Recorder {
    pub said: Vec<Said>,
    pub did: Vec<Event>,
    pub counts: Vec<u8>,
}

// Word i, or 0 past the end.
fn word_at(words: &[u32], i: usize) -> u32
    ensures { result ≡ slice_index words.now i }
{
    words.get(i).copied().unwrap_or(0)
}

// What core k has said, if it has, goes to the end of the words.
fn note_word(said: &mut Vec<Said>, words: &[u32], k: usize)
    requires { (k ≤ 3) × (vec_len said.old + 1 ≤ vec_capacity said.old) }
    ensures items { map pair_of said.new.items ≡ map pair_of said.old.items ++ said_at words.now k }
    ensures len { vec_len said.new ≤ vec_len said.old + 1 }
    ensures cap { vec_capacity said.new ≡ vec_capacity said.old }
{
    if word_at(words, 2 * k) != 0 {
        said.push_reserved(Said {
            core: k,
            word: word_at(words, 2 * k + 1),
        });
    }
}

// An event, if there is one, goes to the end of those done.
fn note_event(did: &mut Vec<Event>, place: Option<Event>)
    requires { vec_len did.old + 1 ≤ vec_capacity did.old }
    ensures items { map event_of did.new.items ≡ map event_of did.old.items ++ somes event_of (place ∷ []) }
    ensures len { vec_len did.new ≤ vec_len did.old + 1 }
    ensures cap { vec_capacity did.new ≡ vec_capacity did.old }
{
    if let Some(event) = place {
        did.push_reserved(event);
    }
}

// The events of a row go to the end of those done.
fn note_events(did: &mut Vec<Event>, row: &[Option<Event>])
    requires { vec_len did.old + length row.now ≤ vec_capacity did.old }
    ensures { map event_of did.new.items ≡ map event_of did.old.items ++ somes event_of row.now }
{
    for place in row {
        note_event(did, *place);
    }
}

impl Recorder {
    // A recorder that has heard nothing.
    pub fn new(heap: Global) -> Self
        ensures { (result.said.items ≡ []) × ((result.did.items ≡ []) × (result.counts.items ≡ [])) }
    {
        Recorder {
            said: Vec::new(heap),
            did: Vec::new(heap),
            counts: Vec::new(heap),
        }
    }
}

impl Listener for Recorder {
    ghost heard = { recorded };

    fn hear(&mut self, out: &Out, words: &[u32]) -> Result<(), Unheard> {
        self.said.reserve(4)?;
        self.did.reserve(8)?;
        self.counts.reserve(1)?;
        let before = self.did.len();
        note_word(&mut self.said, words, 0);
        note_word(&mut self.said, words, 1);
        note_word(&mut self.said, words, 2);
        note_word(&mut self.said, words, 3);
        note_events(&mut self.did, &out.did);
        let count = self.did.len().saturating_sub(before).min(255) as u8;
        self.counts.push_reserved(count);
        Ok(())
    }
}
