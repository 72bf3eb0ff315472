// One request is started, the first in the order of turns that can be; and the turn passes.
ghost use Rattle.std.specs.Prelude.{◌≡◌, ◌<◌};
ghost use Rattle.cores.specs.Ports.{event_of, somes};
ghost use Rattle.directory.specs.Directory.{question};
ghost use Rattle.cache.specs.Words.{is_write};
ghost use Rattle.cached.specs.Layout.{state_of, with_asked};
ghost use Rattle.cached.specs.Puts.{is_step, only_asks};
ghost use Rattle.cached.specs.Rv.{rv};
ghost use Rattle.cached.specs.Soc.{around, can_start, next_start, start_at, start_next, stepped, turn_after, with_hints, with_turn};

use crate::control::Control;
use crate::regions::*;
use crate::state::{Chip, control, is_on, set_control};
use cache::slot::Access;
use cores::port::Event;
use directory::request::{Request, Stage};

// Core t, or the first if there are only so many.
fn around(count: usize, t: usize) -> usize
    ensures { result ≡ around count t }
{
    if t < count { t } else { 0 }
}

// Whether the request of core k can be started.
fn can_start(chip: &Chip, k: usize) -> bool
    requires { k < 4 }
    ensures { result ≡ can_start rv (state_of chip.now) k }
{
    let Some(
        Request {
            line,
            stage: Stage::Queued,
            ..
        },
    ) = request(chip, k)
    else {
        return false;
    };
    let turn = control(chip).turn;
    is_on(chip, k)
        && is_unhurried(chip, line)
        && (is_free(chip, line) || nobody_asked(chip) && (k == turn || !keeps(chip, line, turn)))
}

// The first core, from that on whose turn it is, whose request can be started; or the last of them.
fn next_start(chip: &Chip) -> usize
    ensures value { result ≡ next_start rv (state_of chip.now) }
    ensures within { result < 4 }
{
    let shared = control(chip);
    let mut k = shared.turn;
    for _asked in 0..3usize {
        if can_start(chip, k) {
            return k;
        }
        k = around(shared.count, k + 1);
    }
    k
}

// Those who have the line are asked for it.
fn ask_holders(chip: &mut Chip, line: u32, access: Access)
    ensures { state_of chip.new ≡ with_asked (state_of chip.old) (question (state_of chip.old).lines.entry line (is_write access)) }
{
    for j in 0..4 {
        let probe = probe_for(chip, line, access, j);
        set_probe(chip, j, probe);
    }
}

// The request of core k is started, if it can be: the line that is asked for from memory, if nobody has it.
fn start_at(chip: &mut Chip, k: usize) -> Option<u32>
    requires { k < 4 }
    ensures { (state_of chip.new, only_asks result) ≡ start_at rv k (state_of chip.old) }
{
    if !can_start(chip, k) {
        return None;
    }
    let Some(request) = request(chip, k) else {
        return None;
    };
    if is_free(chip, request.line) {
        set_request(
            chip,
            k,
            Some(Request {
                stage: Stage::Fetching,
                ..request
            }),
        );
        return Some(request.line);
    }
    set_request(
        chip,
        k,
        Some(Request {
            stage: Stage::Probing,
            ..request
        }),
    );
    ask_holders(chip, request.line, request.access);
    let shared = control(chip);
    set_control(chip, Control { lead: k, ..shared });
    None
}

// One request at most is started.
pub(crate) fn start_next(chip: &mut Chip) -> Option<u32>
    ensures { (state_of chip.new, only_asks result) ≡ start_next rv (state_of chip.old) }
{
    let k = next_start(chip);
    start_at(chip, k)
}

// Whether it is an instruction of core k.
fn is_step(event: Option<Event>, k: usize) -> bool
    ensures { result ≡ is_step k event }
{
    matches!(event, Some(Event::Step(j)) if j == k)
}

// Whether an instruction of core k is among the events.
fn stepped(did: &[Option<Event>], k: usize) -> bool
    ensures { result ≡ stepped k (somes event_of did.now) }
{
    did.iter().any(|&event| is_step(event, k))
}

// The turn passes to the next core, if the core whose turn it is has done an instruction in this cycle, or has stopped.
pub(crate) fn pass_turn(chip: &mut Chip, did: &[Option<Event>])
    ensures { state_of chip.new ≡ with_hints rv (with_turn (turn_after rv (somes event_of did.now) (state_of chip.old)) (state_of chip.old).hints) (state_of chip.old) }
{
    let shared = control(chip);
    if stepped(did, shared.turn) || !is_on(chip, shared.turn) {
        set_control(
            chip,
            Control {
                turn: around(shared.count, shared.turn + 1),
                ..shared
            },
        );
    }
}
