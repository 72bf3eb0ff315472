// What each core is asked for, in lent words.
ghost use Rattle.std.specs.Prelude.{◌≡◌, ◌<◌, not, length};
ghost use Rattle.link.specs.Messages as messages;
ghost use Rattle.link.specs.Messages.{all_unasked, is_unasked};
ghost use Rattle.link.specs.Words.{probe_in, probe_of, probes_of};

use cache::index::SlotIndex;
use cache::slot::Access;
use words::table::{Table, at};

// A core is to let go of a line in a slot of its cache: wholly, where another wants to write it, or of writing it, where another wants to read it.
#[derive(Clone, Copy)]
pub struct Probe {
    pub slot: SlotIndex,
    pub line: u32,
    pub access: Access,
}

// What each core is asked for.
pub struct Probes;

impl Table for Probes {
    type Value = Option<Probe>;

    const SIZE: usize = 3;

    ghost SIZE = { 3 };

    ghost Meaning = { messages.Probe };

    ghost means = { probe_of };

    ghost said = { λ k words. probe_of k (probe_in words) };

    fn read(block: &[u32]) -> Option<Probe> {
        let access = match block[0] {
            0 => return None,
            1 => Access::Read,
            _ => Access::Write,
        };
        Some(Probe {
            slot: SlotIndex::from(block[1]),
            line: block[2],
            access,
        })
    }

    fn write(block: &mut [u32], probe: Option<Probe>) {
        match probe {
            Some(Probe { slot, line, access }) => {
                let kind = match access {
                    Access::Read => 1,
                    Access::Write => 2,
                };
                block.copy_from_slice(&[kind, slot.number() as u32, line]);
            }
            None => block[0] = 0,
        }
    }
}

// Whether core k is asked for something.
pub fn is_asked(probes: &[u32], k: usize) -> bool
    requires { (k < 4) × (length probes.now ≡ 12) }
    ensures { result ≡ not (is_unasked (probes_of probes.now k)) }
{
    at::<Probes>(probes, k).is_some()
}

// Whether no core is asked for anything.
pub fn nobody_asked(probes: &[u32]) -> bool
    requires { length probes.now ≡ 12 }
    ensures { result ≡ all_unasked (probes_of probes.now) }
{
    (0..4).all(|k| !is_asked(probes, k))
}
