// What a core does, by its own registers and its own cache alone.
ghost use Rattle.std.specs.Prelude.{◌≡◌, MatchResult};
ghost use Rattle.rv32.specs.Execute.{did, one};
ghost use Rattle.rv32.specs.Laws.{Supplied};
ghost use Rattle.cache.specs.Slots.{cached, lacks, ready};
ghost use Rattle.cache.specs.Words.{is_write, slots_of};
ghost use Rattle.cached.specs.Puts.{lacking};

use cache::lookup::{require, word};
use cache::slot::Lack;
use rv32::core_state::{Core, Effect, Need};
use rv32::decode::decoded;

// The word that an instruction needs, or 0.
fn operand(cache: &[u32; 640], need: Need) -> u32
    ensures { Supplied (cached (slots_of cache.now) 0) result need }
{
    match need {
        Need::Nothing => 0,
        Need::Read(number) | Need::Write(number) => word(cache, number),
    }
}

// What the next instruction of a core does, in a memory of so many lines; or the line that it lacks.
pub(crate) fn attempt(core: Core, cache: &[u32; 640], size: u32) -> Result<Effect, Lack>
    ensures { MatchResult result (λ e. (lacking size core (slots_of cache.now) ≡ ready) × (did e ≡ one size core (cached (slots_of cache.now) 0))) (λ l. lacking size core (slots_of cache.now) ≡ lacks l.line (is_write l.access)) }
{
    let Some(number) = core.fetches(size) else {
        return Ok(Effect::Stops);
    };
    require(cache, Need::Read(number))?;
    let instruction = decoded(word(cache, number));
    let need = core.needs(size, instruction);
    require(cache, need)?;
    Ok(core.executes(size, instruction, operand(cache, need)))
}
