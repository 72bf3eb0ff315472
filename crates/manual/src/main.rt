// Runs a memory on the manual's machines, event by event.
#![tactic(auto)]

mod options;

use anyhow::anyhow;
use command::end::run_or_help;
use command::files::{bytes_of, save_memory};
use cores::port::Event;
use image::{load, read_header};
use options::{Options, Source};
use reference::machines::{Machines, Outcome};
use reference::script::event_of;
use std::alloc::Global;
use std::process::ExitCode;

const HELP: &str = "manual MEMORY EVENTS [--memory FILE]
manual MEMORY --turns N [--memory FILE]

Runs a memory on plain RV32I machines that take turns at it.

MEMORY    bytes: \"CHIP\", cores 1 to 4 (one byte), lines 1 to 65536 (four bytes), 8 words for each line (four bytes each), low byte first
EVENTS    text, a line for each cycle: 0 to 3 is an instruction of that core, a to d an interrupt taken by core 0 to 3
--turns N the cores take N turns in rotation, an instruction each; it ends when all have stopped
--memory FILE  writes memory at the end, in the format that is read

Each word that a core says is printed as \"core 1 word 00000001\"; then how many instructions each core has done, the one that stopped it
included, and \"stopped\" if all have stopped, else \"running\". A memory that does not have the format prints its refusal, \"refused 2 at 0\":
1 its length, 2 its front. An instruction of a core that has stopped, and an interrupt where it is not let, are reported with their line.
The status is 1 where something was refused or reported.";

// What has come of the events so far: how many instructions each core has done, and whether something was reported.
#[derive(Clone, Copy)]
struct Tally {
    done: [u64; 4],
    reported: bool,
}

// The core of an event.
fn core_of(event: Event) -> usize {
    match event {
        Event::Step(k) | Event::Interrupt(k) => k,
    }
}

// Takes down what came of one event, and prints what is said.
fn note(
    rt: &HostRuntime,
    tally: &mut Tally,
    line: u64,
    event: Event,
    outcome: Outcome,
) -> anyhow::Result<()> {
    let k = core_of(event);
    if matches!(event, Event::Step(_)) && outcome != Outcome::Off {
        if let Some(done) = tally.done.get_mut(k) {
            *done = done.saturating_add(1);
        }
    }
    match outcome {
        Outcome::Done | Outcome::Stopped => {}
        Outcome::Said { core, word } => println!(rt; "core {core} word {word:08x}")?,
        Outcome::Off => {
            tally.reported = true;
            eprintln!(rt; "line {line}: core {k} has stopped before")?;
        }
        Outcome::NotLet => {
            tally.reported = true;
            eprintln!(rt; "line {line}: core {k} takes an interrupt where it is not let")?;
        }
    }
    Ok(())
}

// Does the events of one row.
fn do_row(
    rt: &HostRuntime,
    machines: &mut Machines,
    memory: &mut [u32],
    row: &[Event],
    outcomes: &mut Vec<Outcome>,
    tally: &mut Tally,
    line: u64,
) -> anyhow::Result<()> {
    outcomes.clear();
    // Not by `map_err`, which moves the room for an error's text around in every row.
    let Ok(()) = machines.run(memory, row, outcomes) else {
        return Err(anyhow!("no room for a row of events"));
    };
    for (event, outcome) in row.iter().zip(outcomes.iter()) {
        note(rt, tally, line, *event, *outcome)?;
    }
    Ok(())
}

fn no_event(heap: Global, line: u64, letter: u8) -> anyhow::Result<anyhow::Error> {
    let c = letter as char;
    if letter < 33 || letter > 126 {
        return Ok(anyhow!(format!(in heap; "line {line}: byte {letter} is no event")?));
    }
    Ok(anyhow!(format!(in heap; "line {line}: '{c}' is no event")?))
}

// The event of a letter, for so many cores.
fn event_at(heap: Global, letter: u8, cores: usize, line: u64) -> anyhow::Result<Event> {
    let Some(event) = event_of(letter) else {
        return Err(no_event(heap, line, letter)?);
    };
    let k = core_of(event);
    if k >= cores {
        return Err(anyhow!(format!(in heap; "line {line}: there is no core {k}")?));
    }
    Ok(event)
}

// Does the events of a text, a row for each line.
fn do_events(
    rt: &HostRuntime,
    machines: &mut Machines,
    memory: &mut [u32],
    text: &[u8],
    tally: &mut Tally,
) -> anyhow::Result<()> {
    let heap = rt.alloc();
    let cores = machines.count;
    let mut row = Vec::new(heap);
    let mut outcomes = Vec::new(heap);
    let mut line: u64 = 1;
    for letters in text.split(|letter| *letter == b'\n') {
        row.clear();
        for letter in letters {
            row.push(event_at(heap, *letter, cores, line)?)?;
        }
        do_row(
            rt,
            machines,
            memory,
            row.as_slice(),
            &mut outcomes,
            tally,
            line,
        )?;
        line = line.saturating_add(1);
    }
    Ok(())
}

// Whether all machines have stopped.
fn all_stopped(machines: &Machines) -> bool {
    machines
        .machines
        .iter()
        .take(machines.count)
        .all(|machine| !machine.on)
}

// Lets the cores take so many turns in rotation; a core that has stopped passes its turn.
fn do_turns(
    rt: &HostRuntime,
    machines: &mut Machines,
    memory: &mut [u32],
    turns: u64,
    tally: &mut Tally,
) -> anyhow::Result<()> {
    let mut outcomes = Vec::new(rt.alloc());
    let mut k = 0;
    for turn in 0..turns {
        if all_stopped(machines) {
            break;
        }
        if k < 4 && machines.machines[k].on {
            do_row(
                rt,
                machines,
                memory,
                &[Event::Step(k)],
                &mut outcomes,
                tally,
                turn,
            )?;
        }
        k = if k < 3 && k + 1 < machines.count {
            k + 1
        } else {
            0
        };
    }
    Ok(())
}

// Prints how many instructions each core has done, and whether all have stopped.
fn summary(rt: &HostRuntime, machines: &Machines, tally: &Tally) -> anyhow::Result<()> {
    print!(rt; "done")?;
    for done in tally.done.iter().take(machines.count) {
        print!(rt; " {done}")?;
    }
    println!(rt;
        " {}",
        if all_stopped(machines) {
            "stopped"
        } else {
            "running"
        }
    )?;
    Ok(())
}

// Whether all went without a refusal or a report.
fn run(rt: &HostRuntime, options: &Options) -> anyhow::Result<bool> {
    let bytes = bytes_of(rt, options.memory.as_str())?;
    let header = match read_header(bytes.as_slice()) {
        Ok(header) => header,
        Err(refusal) => {
            println!(rt; "{refusal}")?;
            return Ok(false);
        }
    };
    let mut words = vec![in rt.alloc(); 0u32; 8 * header.lines]?;
    let memory = words.as_mut_slice();
    let _ = load(bytes.as_slice(), memory);
    let Some(mut machines) = Machines::new(header.cores) else {
        return Err(anyhow!("more than four cores"));
    };
    let mut tally = Tally {
        done: [0; 4],
        reported: false,
    };
    match &options.source {
        Source::Events(path) => {
            let text = bytes_of(rt, path.as_str())?;
            do_events(rt, &mut machines, memory, text.as_slice(), &mut tally)?;
        }
        Source::Turns(turns) => do_turns(rt, &mut machines, memory, *turns, &mut tally)?,
    }
    summary(rt, &machines, &tally)?;
    if let Some(path) = &options.save {
        save_memory(rt, header.cores, memory, path.as_str())?;
    }
    Ok(!tally.reported)
}

fn main(rt: HostRuntime) -> anyhow::Result<ExitCode> {
    let options = options::read(&rt)?;
    run_or_help(&rt, HELP, options, |options| run(&rt, options))
}
