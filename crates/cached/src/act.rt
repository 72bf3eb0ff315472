// Each core acts: it takes an interrupt, does its instruction, or asks for a line; one that has stopped hands back its slots.
ghost use Rattle.std.specs.Prelude.{◌≡◌, ◌+◌, ◌*◌, ◌<◌, ◌&&◌, MatchResult};
ghost use Rattle.rv32.specs.Execute.{did, one};
ghost use Rattle.cache.specs.Slots.{cached, lacks, line_of, ready};
ghost use Rattle.link.specs.Messages.{is_quiet};
ghost use Rattle.directory.specs.Directory.{is_idle};
ghost use Rattle.cache.specs.Words.{is_write};
ghost use Rattle.cached.specs.Kind.{code};
ghost use Rattle.cached.specs.Layout.{state_of};
ghost use Rattle.cached.specs.Lines.{lines_after};
ghost use Rattle.cached.specs.Puts.{acted, only_writes};
ghost use Rattle.cached.specs.Rv.{rv};
ghost use Rattle.cached.specs.Soc.{act, attempt, execute, lacked, may_send, place_for, run_core, send_request, sweep_slot, take_interrupt, with_lines_of, write_back};

use crate::attempt::attempt;
use crate::control::Acted;
use crate::regions::*;
use crate::reply::release;
use crate::state::*;
use cache::index::SlotIndex;
use cache::lookup::place_for as slot_for;
use cache::slot::Lack;
use cores::port::{Event, Line};
use directory::request::{Request, Stage};
use rv32::core_state::{Core, Effect};

// Core k may send a message: it has answered nothing in this cycle, and nothing is asked of it.
fn may_send(chip: &Chip, k: usize) -> bool
    requires { k < 4 }
    ensures { result ≡ may_send rv (state_of chip.now) k }
{
    is_due(chip, k) && !is_asked(chip, k)
}

// What core k's next instruction does, or the line that it lacks, by its own registers and its own cache.
fn effect_at(chip: &Chip, k: usize) -> Result<Effect, Lack>
    requires { k < 4 }
    ensures { MatchResult result (λ e. (lacked rv (state_of chip.now) k ≡ ready) × (did e ≡ one (state_of chip.now).size ((state_of chip.now).cpu k) (cached (state_of chip.now).lines.slot k))) (λ l. lacked rv (state_of chip.now) k ≡ lacks l.line (is_write l.access)) }
{
    attempt(core(chip, k), cache(chip, k), control(chip).size)
}

// The line of the instruction that a core fetches next; 0 where it fetches none.
fn code_line(core: Core, size: u32) -> u32
    ensures { result ≡ line_of (code rv size core) }
{
    core.fetches(size).map_or(0, |number| number / 8)
}

// The slot of core k's cache that a line is asked for.
fn place_for(chip: &Chip, k: usize, line: u32) -> SlotIndex
    requires { k < 4 }
    ensures { 64 * k + result ≡ place_for rv (state_of chip.now) k line }
{
    let shared = control(chip);
    let code = code_line(core(chip, k), shared.size);
    slot_for(cache(chip, k), line, code, shared.way)
}

// Core k's cache after an instruction: a word that it stores is in it.
fn store_effect(chip: &mut Chip, k: usize, effect: Effect)
    requires { k < 4 }
    ensures { state_of chip.new ≡ with_lines_of rv (lines_after k (did effect) (state_of chip.old).lines) (state_of chip.old) }
{
    if let Effect::Stores { number, value, .. } = effect {
        store(chip, k, number, value);
    }
}

// The instruction of core k is done.
fn execute(chip: &mut Chip, k: usize, effect: Effect) -> Acted
    requires { k < 4 }
    ensures { (state_of chip.new, acted k result) ≡ execute rv k (did effect) (state_of chip.old) }
{
    store_effect(chip, k, effect);
    let before = core(chip, k);
    set_core(chip, k, effect.core(before));
    set_on(chip, k, effect.goes_on());
    Acted {
        said: effect.said(),
        did: Some(Event::Step(k)),
        ..Acted::default()
    }
}

// Core k takes an interrupt.
fn take_interrupt(chip: &mut Chip, k: usize) -> Acted
    requires { k < 4 }
    ensures { (state_of chip.new, acted k result) ≡ take_interrupt rv k (state_of chip.old) }
{
    let before = core(chip, k);
    set_core(chip, k, before.interrupted());
    set_on(chip, k, true);
    Acted {
        did: Some(Event::Interrupt(k)),
        ..Acted::default()
    }
}

// Core k asks for a line, for this slot, and hands back what the slot has in the same message.
fn send_request(chip: &mut Chip, k: usize, lack: Lack, slot: SlotIndex) -> Acted
    requires { k < 4 }
    ensures { (state_of chip.new, acted k result) ≡ send_request rv k lack.line (is_write lack.access) (64 * k + slot) (state_of chip.old) }
{
    let wrote = release(chip, k, slot);
    let request = Request {
        line: lack.line,
        access: lack.access,
        slot,
        stage: Stage::Queued,
    };
    set_request(chip, k, Some(request));
    Acted {
        wrote,
        ..Acted::default()
    }
}

// Core k may ask for a line: it may send, has not asked for one already, and none is on its way.
fn may_ask(chip: &Chip, k: usize) -> bool
    requires { k < 4 }
    ensures { result ≡ (may_send rv (state_of chip.now) k && (is_idle ((state_of chip.now).lines.request k) && is_quiet ((state_of chip.now).lines.coming k))) }
{
    may_send(chip, k) && request(chip, k).is_none() && !has_grant(chip, k)
}

// Core k does its instruction; or asks for the line that it lacks, where it may send, has not asked for one already, and none is on its way.
fn attempt_next(chip: &mut Chip, k: usize) -> Acted
    requires { k < 4 }
    ensures { (state_of chip.new, acted k result) ≡ attempt rv k (lacked rv (state_of chip.old) k) (state_of chip.old) }
{
    match effect_at(chip, k) {
        Ok(effect) => execute(chip, k, effect),
        Err(lack) => {
            if may_ask(chip, k) {
                let slot = place_for(chip, k, lack.line);
                send_request(chip, k, lack, slot)
            } else {
                Acted::default()
            }
        }
    }
}

// Core k, which goes, takes an interrupt if its line is up and they are let; else it tries its instruction.
fn run_core(chip: &mut Chip, k: usize, up: bool) -> Acted
    requires { k < 4 }
    ensures { (state_of chip.new, acted k result) ≡ run_core rv k up (state_of chip.old) }
{
    if up && core(chip, k).lets {
        take_interrupt(chip, k)
    } else {
        attempt_next(chip, k)
    }
}

// A slot of core k is handed back, if it has something.
fn write_back(chip: &mut Chip, k: usize, slot: SlotIndex) -> Option<Line>
    requires { k < 4 }
    ensures { (state_of chip.new, only_writes result) ≡ write_back rv (64 * k + slot) (state_of chip.old) }
{
    if is_empty(chip, k, slot) {
        return None;
    }
    release(chip, k, slot)
}

// Core k, which has stopped, hands back a slot, and the next one the next time, if it may send.
fn sweep_slot(chip: &mut Chip, k: usize) -> Acted
    requires { k < 4 }
    ensures { (state_of chip.new, acted k result) ≡ sweep_slot rv k (state_of chip.old) }
{
    if !may_send(chip, k) {
        return Acted::default();
    }
    let slot = sweep(chip, k);
    let wrote = write_back(chip, k, slot);
    set_sweep(chip, k, slot.next());
    Acted {
        wrote,
        ..Acted::default()
    }
}

// Core k acts, with its interrupt line up or down.
pub(crate) fn act(chip: &mut Chip, k: usize, up: bool) -> Acted
    requires { k < 4 }
    ensures { (state_of chip.new, acted k result) ≡ act rv (λ _. up) k (state_of chip.old) }
{
    if !is_on(chip, k) {
        return sweep_slot(chip, k);
    }
    if k < control(chip).count {
        run_core(chip, k, up)
    } else {
        Acted::default()
    }
}
