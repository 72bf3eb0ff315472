// What an instruction, an interrupt and a row of events do to the machines and the lent memory.
ghost use Rattle.std.specs.Prelude.{◌≡◌, ℕ, ◌*◌, ◌/◌, ◌<◌, ◌≤◌, false, List, [], map, length, is_ok, IfOk, IfErr, MatchOption, OnOk, nat_le, nat_lt, slice_index};
ghost use Rattle.words.specs.Parts.{lines as lines_of};
ghost use Rattle.rv32.specs.Execute.{did, one};
ghost use Rattle.rv32.specs.Laws.{StoresWithin, Supplied, Within};
ghost use Rattle.cores.specs.Machines.{begins, interrupt as interrupted, step as stepped, word as word_of};
ghost use Rattle.cores.specs.Ports.{event_of};
ghost use Rattle.cores.specs.Rv32.{rv32 as rv};
ghost use Rattle.reference.specs.Read.{AllPerformed, OffAt, OnAt, Performed, machine_after, manual_of, new_machine, outcome_of, words_after};
ghost use Rattle.reference.specs.declared.machines.Fault.TheVariants.{TooLarge};

use crate::machines::*;
use cores::port::Event;
use rv32::core_state::{Core, Effect, Need};
use rv32::decode::decoded;

// The word that an instruction needs, or 0.
fn operand(need: Need, memory: &[u32], lines: u32) -> u32
    requires { (Within lines need) × (8 * lines ≤ length memory.now) }
    ensures { Supplied (λ a. slice_index memory.now a) result need }
{
    match need {
        Need::Nothing => 0,
        Need::Read(a) | Need::Write(a) => memory[a as usize],
    }
}

// What the next instruction of a core does.
fn effect_of(core: Core, memory: &[u32], lines: u32) -> Effect
    requires { 8 * lines ≤ length memory.now }
    ensures value { did result ≡ one lines core (word_of (lines_of lines memory.now)) }
    ensures within { StoresWithin lines result }
{
    let Some(number) = core.fetches(lines) else {
        return Effect::Stops;
    };
    let instruction = decoded(memory[number as usize]);
    let word = operand(core.needs(lines, instruction), memory, lines);
    core.executes(lines, instruction, word)
}

// Memory after an instruction.
fn store(memory: &mut [u32], effect: Effect, lines: u32)
    requires { (StoresWithin lines effect) × (8 * lines ≤ length memory.old) }
    ensures { memory.new ≡ words_after memory.old effect }
{
    if let Effect::Stores { number, value, .. } = effect {
        memory[number as usize] = value;
    }
}

// How many words a memory may have: 65,536 lines of eight.
const MOST_WORDS: usize = 65_536 * 8;

// Whether a memory has more.
fn is_too_large(memory: &[u32]) -> bool
    ensures { result ≡ nat_lt 524288 (length memory.now) }
{
    memory.len() > MOST_WORDS
}

impl Machine {
    // A machine as it begins.
    fn new(number: u32) -> Self
        ensures { result ≡ new_machine number }
    {
        Machine {
            core: Core::new(number),
            on: true,
        }
    }

    // The machine after an instruction.
    fn after(self, effect: Effect) -> Self
        ensures { result ≡ machine_after self effect }
    {
        match effect {
            Effect::Goes { core } | Effect::Stores { core, .. } | Effect::Says { core, .. } => {
                Machine { core, on: true }
            }
            Effect::Stops => Machine { on: false, ..self },
        }
    }
}

impl Outcome {
    // What an instruction of core k comes to.
    fn of(k: usize, effect: Effect) -> Self
        ensures { result ≡ outcome_of k (did effect) }
    {
        match effect {
            Effect::Goes { .. } | Effect::Stores { .. } => Outcome::Done,
            Effect::Says { word, .. } => Outcome::Said { core: k, word },
            Effect::Stops => Outcome::Stopped,
        }
    }
}

impl Machines {
    // So many machines as they begin, at most four; more are refused.
    pub fn new(count: usize) -> Option<Self>
        ensures { MatchOption result (4 < count) (λ ms. (count ≤ 4) × ((words : List ℕ) → manual_of ms words [] ≡ begins rv count (lines_of (length words / 8) words))) }
    {
        if count > 4 {
            return None;
        }
        // Written out, since `map` says of each call only that one was made at that number.
        let machines = [
            Machine::new(0),
            Machine::new(1),
            Machine::new(2),
            Machine::new(3),
        ];
        Some(Machines { machines, count })
    }

    // Machine k, if it is there and still goes.
    fn running(&self, k: usize) -> Option<Machine>
        ensures { MatchOption result (OffAt self.now k) (λ m. OnAt self.now k m) }
    {
        // The fields are public, so that `count` may be past the row.
        if k >= self.count || k >= 4 {
            return None;
        }
        let machine = self.machines[k];
        if machine.on { Some(machine) } else { None }
    }

    // An instruction of core k.
    fn step(&mut self, memory: &mut [u32], k: usize) -> Outcome
        requires { length memory.old ≤ 524288 }
        ensures { Performed (stepped k) self.old memory.old self.new memory.new result }
    {
        let Some(machine) = self.running(k) else {
            return Outcome::Off;
        };
        let lines = (memory.len() / 8) as u32;
        let effect = effect_of(machine.core, memory, lines);
        self.machines[k] = machine.after(effect);
        store(memory, effect, lines);
        Outcome::of(k, effect)
    }

    // An interrupt taken by core k.
    fn interrupt(&mut self, k: usize) -> Outcome
        ensures { (words : List ℕ) → Performed (interrupted k) self.old words self.new words result }
    {
        let Some(machine) = self.running(k) else {
            return Outcome::Off;
        };
        self.machines[k] = Machine {
            core: machine.core.interrupted(),
            on: true,
        };
        if machine.core.lets {
            Outcome::Done
        } else {
            Outcome::NotLet
        }
    }

    fn happens(&mut self, memory: &mut [u32], event: Event) -> Outcome
        requires { length memory.old ≤ 524288 }
        ensures { Performed (event_of event) self.old memory.old self.new memory.new result }
    {
        match event {
            Event::Step(k) => self.step(memory, k),
            Event::Interrupt(k) => self.interrupt(k),
        }
    }

    // One event. A memory that is too large is refused, and nothing is changed.
    pub fn perform(&mut self, memory: &mut [u32], event: Event) -> Result<Outcome, Fault>
        ensures when { is_ok result ≡ nat_le (length memory.old) 524288 }
        ensures done { IfOk result (λ o. Performed (event_of event) self.old memory.old self.new memory.new o) }
        ensures same { IfErr result (λ f. (f ≡ TooLarge) × (self.new ≡ self.old) × (memory.new ≡ memory.old)) }
    {
        if is_too_large(memory) {
            return Err(Fault::TooLarge);
        }
        Ok(self.happens(memory, event))
    }

    // A row of events, in order; what came of each goes to the end of `outcomes`. Where memory is too large, or there is no room for the outcomes,
    // nothing is changed.
    pub fn run(
        &mut self,
        memory: &mut [u32],
        events: &[Event],
        outcomes: &mut Vec<Outcome>,
    ) -> Result<(), Fault>
        ensures fits { OnOk result (length memory.old ≤ 524288) }
        ensures done { OnOk result (AllPerformed (map event_of events.now) self.old memory.old outcomes.old.items self.new memory.new outcomes.new.items) }
        ensures same { IfErr result (λ f. (f ≡ TooLarge → 524288 < length memory.old) × (self.new ≡ self.old) × (memory.new ≡ memory.old) × (outcomes.new.items ≡ outcomes.old.items)) }
    {
        if is_too_large(memory) {
            return Err(Fault::TooLarge);
        }
        outcomes.reserve(events.len())?;
        for event in events {
            let outcome = self.happens(memory, *event);
            outcomes.push_reserved(outcome);
        }
        Ok(())
    }
}
