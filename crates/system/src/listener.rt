// Those who hear what the chip does, cycle by cycle.
ghost use Rattle.std.specs.Prelude.{◌≡◌, MatchResult};
ghost use Rattle.cores.specs.Ports.{event_of, said_of, somes};
ghost use Rattle.system.specs.Log.{Log, more};

use cores::port::Out;
use std::alloc::AllocError;

// A listener has no room for what it hears.
#[derive(Clone, Copy, PartialEq, Eq, Debug)]
pub struct Unheard;

impl From<AllocError> for Unheard {
    ghost from_gives = { λ _ _. Unit {0} };

    fn from(_: AllocError) -> Unheard {
        Unheard
    }
}

// A listener is told of each cycle: what the chip puts out, and the words said, two for each core.
// `heard` is what it has heard, oldest first; where it refuses that stays.
pub trait Listener {
    ghost heard: { Self → Log };

    fn hear(&mut self, out: &Out, words: &[u32]) -> Result<(), Unheard>
        ensures { MatchResult result (λ _. heard self.new ≡ more (heard self.old) (said_of words.now) (somes event_of out.now.did)) (λ _. heard self.new ≡ heard self.old) };
}
