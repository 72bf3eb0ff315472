// The regions that cores and directory have in common: what is on its way to each core, requests, entries, and the slots of the caches.
// One function reads and one writes each region, named for what lies there: that only that part of the state changes is proved of each by itself.
ghost use Rattle.std.specs.Prelude.{◌≡◌, ◌+◌, ◌*◌, ◌<◌, not, length};
ghost use Rattle.cores.specs.Put.{put};
ghost use Rattle.cache.specs.Own.{Own};
ghost use Rattle.cache.specs.Slots.{has, is_empty, words};
ghost use Rattle.cache.specs.Words.{content_of, holding, is_write, slots_of, stored_in};
ghost use Rattle.link.specs.Messages.{all_unasked, is_quiet, is_unasked};
ghost use Rattle.link.specs.Words.{grant_of, probe_of};
ghost use Rattle.directory.specs.Directory.{free, keeps, question, unhurried};
ghost use Rattle.directory.specs.Words.{entry_of, request_of};
ghost use Rattle.cached.specs.Layout.{state_of, with_entries, with_grants, with_asked, with_requests, with_slots};

use crate::state::Chip;
use cache::content::{Slots, Tags};
use cache::index::SlotIndex;
use cache::slot::{Access, Content, Slot};
use directory::entry::{Entries, Entry};
use directory::request::{Request, Requests};
use link::grant::{Grant, Grants};
use link::probe::{Probe, Probes};
use words::table::{at, put_at};

// The grant on its way to core k.
pub(crate) fn grant(chip: &Chip, k: usize) -> Option<Grant>
    requires { k < 4 }
    ensures { grant_of k result ≡ (state_of chip.now).lines.coming k }
{
    at::<Grants>(&chip[157..205], k)
}

pub(crate) fn set_grant(chip: &mut Chip, k: usize, grant: Option<Grant>)
    requires { k < 4 }
    ensures { state_of chip.new ≡ with_grants (state_of chip.old) (put (state_of chip.old).lines.coming k (grant_of k grant)) }
{
    put_at::<Grants>(&mut chip[157..205], k, grant);
}

pub(crate) fn has_grant(chip: &Chip, k: usize) -> bool
    requires { k < 4 }
    ensures { result ≡ not (is_quiet ((state_of chip.now).lines.coming k)) }
{
    link::grant::has_grant(&chip[157..205], k)
}

// The probe on its way to core k.
pub(crate) fn probe(chip: &Chip, k: usize) -> Option<Probe>
    requires { k < 4 }
    ensures { probe_of k result ≡ (state_of chip.now).hints.probe k }
{
    at::<Probes>(&chip[205..217], k)
}

pub(crate) fn set_probe(chip: &mut Chip, k: usize, probe: Option<Probe>)
    requires { k < 4 }
    ensures { state_of chip.new ≡ with_asked (state_of chip.old) (put (state_of chip.old).hints.probe k (probe_of k probe)) }
{
    put_at::<Probes>(&mut chip[205..217], k, probe);
}

pub(crate) fn is_asked(chip: &Chip, k: usize) -> bool
    requires { k < 4 }
    ensures { result ≡ not (is_unasked ((state_of chip.now).hints.probe k)) }
{
    link::probe::is_asked(&chip[205..217], k)
}

// Whether no core is asked anything.
pub(crate) fn nobody_asked(chip: &Chip) -> bool
    ensures { result ≡ all_unasked (state_of chip.now).hints.probe }
{
    link::probe::nobody_asked(&chip[205..217])
}

// What core k has asked for.
pub(crate) fn request(chip: &Chip, k: usize) -> Option<Request>
    requires { k < 4 }
    ensures { request_of k result ≡ (state_of chip.now).lines.request k }
{
    at::<Requests>(&chip[217..237], k)
}

pub(crate) fn set_request(chip: &mut Chip, k: usize, request: Option<Request>)
    requires { k < 4 }
    ensures { state_of chip.new ≡ with_requests (state_of chip.old) (put (state_of chip.old).lines.request k (request_of k request)) }
{
    put_at::<Requests>(&mut chip[217..237], k, request);
}

// Whether no request for the line is under way.
pub(crate) fn is_unhurried(chip: &Chip, line: u32) -> bool
    ensures { result ≡ unhurried (state_of chip.now).lines.request line 4 }
{
    directory::request::is_unhurried(&chip[217..237], line)
}

// What the directory knows of a slot of core k from now on.
pub(crate) fn set_entry(chip: &mut Chip, k: usize, slot: SlotIndex, entry: Entry)
    requires { k < 4 }
    ensures { state_of chip.new ≡ with_entries (state_of chip.old) (put (state_of chip.old).lines.entry (64 * k + slot) (entry_of entry)) }
{
    put_at::<Entries>(&mut chip[237..749], 64 * k + slot.number(), entry);
}

// Whether core j has the line.
pub(crate) fn keeps(chip: &Chip, line: u32, j: usize) -> bool
    requires { j < 4 }
    ensures { result ≡ keeps (state_of chip.now).lines.entry line j }
{
    directory::entry::keeps(&chip[237..749], line, j)
}

// Whether nobody has the line.
pub(crate) fn is_free(chip: &Chip, line: u32) -> bool
    ensures { result ≡ free (state_of chip.now).lines.entry line 4 }
{
    directory::entry::is_free(&chip[237..749], line)
}

// The probe to core j for the line.
pub(crate) fn probe_for(chip: &Chip, line: u32, access: Access, j: usize) -> Option<Probe>
    requires { j < 4 }
    ensures { probe_of j result ≡ question (state_of chip.now).lines.entry line (is_write access) j }
{
    directory::entry::probe_for(&chip[237..749], line, access, j)
}

// What a slot of core k has.
pub(crate) fn content(chip: &Chip, k: usize, slot: SlotIndex) -> Content
    requires { k < 4 }
    ensures { content_of result ≡ (state_of chip.now).lines.slot (64 * k + slot) }
{
    at::<Slots>(&chip[749..3309], 64 * k + slot.number())
}

pub(crate) fn set_content(chip: &mut Chip, k: usize, slot: SlotIndex, content: Content)
    requires { k < 4 }
    ensures { state_of chip.new ≡ with_slots (state_of chip.old) (put (state_of chip.old).lines.slot (64 * k + slot) (content_of content)) }
{
    put_at::<Slots>(&mut chip[749..3309], 64 * k + slot.number(), content);
}

// What a slot of core k has, without the words of its line.
fn tag(chip: &Chip, k: usize, slot: SlotIndex) -> Slot
    requires { k < 4 }
    ensures { holding result (words ((state_of chip.now).lines.slot (64 * k + slot))) ≡ (state_of chip.now).lines.slot (64 * k + slot) }
{
    at::<Tags>(&chip[749..3309], 64 * k + slot.number())
}

// Whether a slot of core k has the line, to read at least.
pub(crate) fn has(chip: &Chip, k: usize, slot: SlotIndex, line: u32) -> bool
    requires { k < 4 }
    ensures { result ≡ has ((state_of chip.now).lines.slot (64 * k + slot)) line }
{
    tag(chip, k, slot).has(line)
}

// Whether a slot of core k is empty.
pub(crate) fn is_empty(chip: &Chip, k: usize, slot: SlotIndex) -> bool
    requires { k < 4 }
    ensures { result ≡ is_empty ((state_of chip.now).lines.slot (64 * k + slot)) }
{
    tag(chip, k, slot).is_empty()
}

// The words of core k's own cache.
pub(crate) fn cache(chip: &Chip, k: usize) -> &[u32; 640]
    requires { k < 4 }
    ensures { Own k (state_of chip.now).lines.slot (slots_of result.now) }
{
    chip[749 + 640 * k..1389 + 640 * k].as_array().unwrap()
}

// The words of a core's cache, lent on to be written as an array.
fn store_own(words: &mut [u32], number: u32, value: u32)
    requires { length words.old ≡ 640 }
    ensures { slots_of words.new ≡ stored_in (slots_of words.old) 0 number value }
{
    cache::lookup::store(words.as_mut_array().unwrap(), number, value);
}

// Core k stores a word into its own cache.
pub(crate) fn store(chip: &mut Chip, k: usize, number: u32, value: u32)
    requires { k < 4 }
    ensures { state_of chip.new ≡ with_slots (state_of chip.old) (stored_in (state_of chip.old).lines.slot k number value) }
{
    store_own(&mut chip[749 + 640 * k..1389 + 640 * k], number, value);
}
