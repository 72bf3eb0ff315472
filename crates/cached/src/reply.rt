// What comes to a core, and what it replies: grants are taken, probes are answered, and the last reply goes on to the core that asked.
ghost use Rattle.std.specs.Prelude.{◌≡◌, ◌+◌, ◌*◌, ◌<◌, true, false};
ghost use Rattle.cores.specs.Loop.{each, silent};
ghost use Rattle.cache.specs.Words.{content_of, is_write};
ghost use Rattle.link.specs.Messages.{filled};
ghost use Rattle.link.specs.Words.{grant_of};
ghost use Rattle.cached.specs.Layout.{state_of, with_slots};
ghost use Rattle.cached.specs.Lines.{grants, releases};
ghost use Rattle.cached.specs.Puts.{all_writes, lets_go_of, only_writes};
ghost use Rattle.cached.specs.Replied.{replies};
ghost use Rattle.cached.specs.Rv.{rv};
ghost use Rattle.cached.specs.Soc.{answer_probe, downgrade, hand_on, lets_go, release, requeue, requeue_lead, share_on, take_due, with_lines_of};

use crate::regions::*;
use crate::state::{Chip, control, is_due, is_on};
use cache::index::SlotIndex;
use cache::slot::{Access, Content, Slot};
use cores::port::Line;
use directory::entry::Entry;
use directory::request::{Request, Stage};
use link::grant::Grant;
use link::probe::Probe;

// A slot of core k is empty from now on, and the directory hears of it.
fn empty_slot(chip: &mut Chip, k: usize, slot: SlotIndex)
    requires { k < 4 }
    ensures { state_of chip.new ≡ with_lines_of rv (releases (64 * k + slot) (state_of chip.old).lines) (state_of chip.old) }
{
    set_content(
        chip,
        k,
        slot,
        Content {
            slot: Slot::Empty,
            words: [0; 8],
        },
    );
    set_entry(chip, k, slot, Entry::Nobody);
}

// A slot of core k is handed back: the line that goes to memory, if it is dirty.
pub(crate) fn release(chip: &mut Chip, k: usize, slot: SlotIndex) -> Option<Line>
    requires { k < 4 }
    ensures { (state_of chip.new, only_writes result) ≡ release rv (64 * k + slot) (state_of chip.old) }
{
    let content = content(chip, k, slot);
    empty_slot(chip, k, slot);
    content.written()
}

// A slot of core k may only be read from now on: the line that goes to memory, if it is dirty.
fn downgrade(chip: &mut Chip, k: usize, slot: SlotIndex) -> Option<Line>
    requires { k < 4 }
    ensures { (state_of chip.new, only_writes result) ≡ downgrade rv (64 * k + slot) (state_of chip.old) }
{
    let content = content(chip, k, slot);
    let lowered = content.lowered();
    set_content(chip, k, slot, lowered);
    set_entry(chip, k, slot, Entry::from(lowered.slot));
    content.written()
}

// Core k is granted what it asked for.
pub(crate) fn grant_line(chip: &mut Chip, k: usize, slot: SlotIndex, content: Content)
    requires { k < 4 }
    ensures { state_of chip.new ≡ with_lines_of rv (grants k (64 * k + slot) (content_of content) (state_of chip.old).lines) (state_of chip.old) }
{
    set_grant(chip, k, Some(Grant { slot, content }));
    set_entry(chip, k, slot, Entry::from(content.slot));
    set_request(chip, k, None);
}

// What core k is granted goes into the slot that it is for.
fn fill_slot(chip: &mut Chip, k: usize, grant: Option<Grant>)
    requires { k < 4 }
    ensures { state_of chip.new ≡ with_slots (state_of chip.old) (filled (grant_of k grant) (state_of chip.old).lines.slot) }
{
    if let Some(Grant { slot, content }) = grant {
        set_content(chip, k, slot, content);
    }
}

// Core k takes its grant, if that is due.
fn take_due(chip: &mut Chip, k: usize)
    requires { k < 4 }
    ensures { (state_of chip.new, silent) ≡ take_due rv k (state_of chip.old) }
{
    if !is_due(chip, k) {
        return;
    }
    let grant = grant(chip, k);
    fill_slot(chip, k, grant);
    set_grant(chip, k, None);
}

// A request of core j that is probing waits for its start again.
fn requeue(chip: &mut Chip, j: usize)
    requires { j < 4 }
    ensures { (state_of chip.new, silent) ≡ requeue rv j ((state_of chip.old).lines.request j) (state_of chip.old) }
{
    let Some(
        request @ Request {
            stage: Stage::Probing,
            ..
        },
    ) = request(chip, j)
    else {
        return;
    };
    set_request(
        chip,
        j,
        Some(Request {
            stage: Stage::Queued,
            ..request
        }),
    );
}

// A request for which nobody is asked any more, and that still probes, waits for its start again.
fn requeue_lead(chip: &mut Chip)
    ensures { (state_of chip.new, silent) ≡ requeue_lead rv (state_of chip.old) }
{
    if !nobody_asked(chip) {
        return;
    }
    let lead = control(chip).lead;
    requeue(chip, lead);
}

// The last reply to core j's probes: core k hands the line back, and it goes on to core j, which waits for it, if nobody has it any more.
fn hand_on(chip: &mut Chip, k: usize, slot: SlotIndex, line: u32, j: usize) -> Option<Line>
    requires { (k < 4) × (j < 4) }
    ensures { (state_of chip.new, only_writes result) ≡ hand_on rv (64 * k + slot) line j ((state_of chip.old).lines.request j) (state_of chip.old) }
{
    let Some(
        Request {
            line: asked,
            slot: place,
            stage: Stage::Probing,
            ..
        },
    ) = request(chip, j)
    else {
        return release(chip, k, slot);
    };
    let content = content(chip, k, slot);
    empty_slot(chip, k, slot);
    if asked == line && is_free(chip, line) {
        grant_line(chip, j, place, content.raised());
        return None;
    }
    requeue(chip, j);
    content.written()
}

// The last reply to core j's probes: core k may only read the line from now on, and so may core j, which waits for it to read.
fn share_on(chip: &mut Chip, k: usize, slot: SlotIndex, line: u32, j: usize) -> Option<Line>
    requires { (k < 4) × (j < 4) }
    ensures { (state_of chip.new, only_writes result) ≡ share_on rv (64 * k + slot) line j ((state_of chip.old).lines.request j) (state_of chip.old) }
{
    let Some(
        Request {
            line: asked,
            access,
            slot: place,
            stage: Stage::Probing,
        },
    ) = request(chip, j)
    else {
        return downgrade(chip, k, slot);
    };
    let words = content(chip, k, slot).line_words();
    let written = downgrade(chip, k, slot);
    if asked == line && matches!(access, Access::Read) {
        grant_line(chip, j, place, Content::shared(line, words));
        return written;
    }
    requeue(chip, j);
    written
}

// Core k hands back a line that another wants to write; if it is the last to do so, the request that asked has the line.
fn invalidate(chip: &mut Chip, k: usize, slot: SlotIndex, line: u32) -> Option<Line>
    requires { k < 4 }
    ensures { (state_of chip.new, only_writes result) ≡ lets_go rv (64 * k + slot) line true (state_of chip.old) }
{
    let lead = control(chip).lead;
    if !nobody_asked(chip) {
        return release(chip, k, slot);
    }
    if !is_on(chip, lead) {
        return release(chip, k, slot);
    }
    hand_on(chip, k, slot, line, lead)
}

// Core k may only read a line that another wants to read; if it is the last to do so, the request that asked has the line.
fn share(chip: &mut Chip, k: usize, slot: SlotIndex, line: u32) -> Option<Line>
    requires { k < 4 }
    ensures { (state_of chip.new, only_writes result) ≡ lets_go rv (64 * k + slot) line false (state_of chip.old) }
{
    let lead = control(chip).lead;
    if !nobody_asked(chip) {
        return downgrade(chip, k, slot);
    }
    share_on(chip, k, slot, line, lead)
}

// Core k lets go of a line, as it is asked to; if it is the last to do so, the request that asked has the line.
fn let_go(chip: &mut Chip, k: usize, probe: Probe) -> Option<Line>
    requires { k < 4 }
    ensures { (state_of chip.new, only_writes result) ≡ lets_go_of k probe (state_of chip.old) }
{
    let Probe { slot, line, access } = probe;
    match access {
        Access::Write => invalidate(chip, k, slot, line),
        Access::Read => share(chip, k, slot, line),
    }
}

// Core k lets go of the line that it is asked for, if it still has it.
fn reply_to(chip: &mut Chip, k: usize, probe: Probe) -> Option<Line>
    requires { k < 4 }
    ensures { (state_of chip.new, only_writes result) ≡ replies k probe (state_of chip.old) }
{
    if !has(chip, k, probe.slot, probe.line) {
        return None;
    }
    let_go(chip, k, probe)
}

// Core k answers its probe, if its grant was not due.
fn answer_probe(chip: &mut Chip, k: usize) -> Option<Line>
    requires { k < 4 }
    ensures { (state_of chip.new, only_writes result) ≡ answer_probe rv k (state_of chip.old) }
{
    if is_due(chip, k) {
        return None;
    }
    let Some(probe) = probe(chip, k) else {
        return None;
    };
    set_probe(chip, k, None);
    let written = reply_to(chip, k, probe);
    requeue_lead(chip);
    written
}

// Each core takes its grant, if that is due.
pub(crate) fn take_all(chip: &mut Chip)
    ensures { (state_of chip.new, silent) ≡ each (take_due rv) 4 (state_of chip.old) }
{
    for k in 0..4 {
        take_due(chip, k);
    }
}

// Each core answers its probe, if its grant was not due: the lines that are written, by core.
pub(crate) fn answer_all(chip: &mut Chip) -> [Option<Line>; 4]
    ensures { (state_of chip.new, all_writes result) ≡ each (answer_probe rv) 4 (state_of chip.old) }
{
    // A loop, as a closure that lends the chip on tells nothing of what it leaves there.
    let mut written = [None; 4];
    for k in 0..4 {
        written[k] = answer_probe(chip, k);
    }
    written
}
