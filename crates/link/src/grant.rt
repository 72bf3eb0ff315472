// What each core is granted, in lent words.
ghost use Rattle.std.specs.Prelude.{◌≡◌, ℕ, ◌<◌, not, length};
ghost use Rattle.link.specs.Messages as messages;
ghost use Rattle.link.specs.Messages.{is_quiet};
ghost use Rattle.link.specs.Words.{grant_in, grant_of, grants_of};

use cache::content::Slots;
use cache::index::SlotIndex;
use cache::slot::Content;
use words::table::{Table, at};

// A slot of a core's cache gets this, with its words.
#[derive(Clone, Copy)]
pub struct Grant {
    pub slot: SlotIndex,
    pub content: Content,
}

// What each core is granted.
pub struct Grants;

impl Table for Grants {
    type Value = Option<Grant>;

    const SIZE: usize = 12;

    ghost SIZE = { 12 };

    ghost Meaning = { messages.Grant };

    ghost means = { grant_of };

    ghost said = { grant_in };

    fn read(block: &[u32]) -> Option<Grant> {
        if block[0] == 0 {
            return None;
        }
        Some(Grant {
            slot: SlotIndex::from(block[1]),
            content: Slots::read(&block[2..12]),
        })
    }

    fn write(block: &mut [u32], grant: Option<Grant>) {
        match grant {
            Some(Grant { slot, content }) => {
                block[0..2].copy_from_slice(&[1, slot.number() as u32]);
                Slots::write(&mut block[2..12], content);
            }
            None => block[0] = 0,
        }
    }
}

// Whether core k is granted something.
pub fn has_grant(grants: &[u32], k: usize) -> bool
    requires { (k < 4) × (length grants.now ≡ 48) }
    ensures { result ≡ not (is_quiet (grants_of grants.now k)) }
{
    at::<Grants>(grants, k).is_some()
}
