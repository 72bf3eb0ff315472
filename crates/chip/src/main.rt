// Runs a memory on the chip, cycle by cycle.
#![tactic(auto)]

mod options;

use anyhow::anyhow;
use chips::Uncached;
use command::end::run_or_help;
use command::files::{bytes_of, save_memory};
use cores::port::Event;
use image::{Header, Refusal, all_records, count_cycles, read_header};
use options::{Options, Outside};
use reference::script::letter_of;
use std::fs;
use std::process::ExitCode;
use system::recorder::Recorder;
use system::run::{Ended, Stopped, run as run_choices};
use system::steady::run_steady;

const HELP: &str = "chip MEMORY CHOICES [--cycles N] [--events FILE] [--memory FILE]
chip MEMORY --steady L [--cycles N] [--events FILE] [--memory FILE]

Runs a memory on the chip.

MEMORY    bytes: \"CHIP\", cores 1 to 4 (one byte), lines 1 to 65536 (four bytes), 8 words for each line (four bytes each), low byte first
CHOICES   bytes, for each cycle: whose interrupt lines are up (one byte, a bit for each core), how many waiting lines are given (one byte),
          and their places in the row of waiting lines (one byte each, rising)
--steady L  in the place of choices: each line is given in the L-th cycle after the next, and no interrupt line is up; it ends when
          every core has stopped
--cycles N  at most so many cycles (2^32 if not said)
--events FILE  writes what was done, a line for each cycle, in the form that manual reads
--memory FILE  writes memory at the end, in the format that is read

Each word that a core says is printed as \"core 1 word 00000001\"; then how many cycles there were, how many instructions each core has done,
the one that stopped it included, and \"stopped\" if all have stopped, else \"running\". What does not have its format prints its refusal,
\"refused 2 at 0\": 1 the memory's length, 2 its front, 3 the choices; the status is then 1.";

// How many instructions each core has done.
fn done_by(did: &[Event]) -> [u64; 4] {
    let mut done = [0u64; 4];
    for event in did {
        if let Event::Step(k) = *event {
            if let Some(done) = done.get_mut(k) {
                *done = done.saturating_add(1);
            }
        }
    }
    done
}

fn print_said(rt: &HostRuntime, recorder: &Recorder) -> anyhow::Result<()> {
    for said in recorder.said.iter() {
        let core = said.core;
        let word = said.word;
        println!(rt; "core {core} word {word:08x}")?;
    }
    Ok(())
}

fn print_summary(
    rt: &HostRuntime,
    recorder: &Recorder,
    cores: usize,
    ended: Ended,
) -> anyhow::Result<()> {
    let cycles = ended.cycles;
    print!(rt; "cycles {cycles} done")?;
    for done in done_by(recorder.did.as_slice()).iter().take(cores) {
        print!(rt; " {done}")?;
    }
    println!(rt; " {}", if ended.stopped { "stopped" } else { "running" })?;
    Ok(())
}

// Writes what was done, a line for each cycle.
fn save_events(rt: &HostRuntime, recorder: &Recorder, path: &str) -> anyhow::Result<()> {
    let mut text: Vec<u8> = Vec::new(rt.alloc());
    let mut did = recorder.did.iter();
    for count in recorder.counts.iter() {
        for event in did.by_ref().take(usize::from(*count)) {
            if let Some(letter) = letter_of(*event) {
                text.push(letter)?;
            }
        }
        text.push(b'\n')?;
    }
    fs::write(rt, path, text.as_slice())?;
    Ok(())
}

// The choices of the first so many cycles. Choices that do not have the format stay whole, to be refused.
fn first_cycles(choices: &[u8], cores: usize, most: u64) -> &[u8] {
    let Ok(cycles) = count_cycles(choices, cores) else {
        return choices;
    };
    if cycles <= most {
        return choices;
    }
    let most = usize::try_from(most).unwrap_or(usize::MAX);
    all_records(choices)
        .take(most)
        .last()
        .map_or(choices.get(..0), |record| choices.get(..record.end))
        .unwrap_or(choices)
}

fn refused(rt: &HostRuntime, refusal: Refusal) -> anyhow::Result<bool> {
    println!(rt; "{refusal}")?;
    Ok(false)
}

// Whether nothing was refused.
fn run(rt: &HostRuntime, options: &Options) -> anyhow::Result<bool> {
    let memory = bytes_of(rt, options.memory.as_str())?;
    let choices = match &options.outside {
        Outside::Choices(path) => bytes_of(rt, path.as_str())?,
        Outside::Steady(_) => Vec::new(rt.alloc()),
    };
    let Header { cores, lines } = match read_header(memory.as_slice()) {
        Ok(header) => header,
        Err(refusal) => return refused(rt, refusal),
    };
    let mut board = vec![in rt.alloc(); 0u32; lines.saturating_mul(8).saturating_add(1024)]?;
    let mut chip = vec![in rt.alloc(); 0u32; 16384]?;
    let mut said = [0u32; 16];
    let mut recorder = Recorder::new(rt.alloc());
    let result = match &options.outside {
        Outside::Choices(_) => run_choices::<Uncached, Recorder>(
            memory.as_slice(),
            first_cycles(choices.as_slice(), cores, options.cycles),
            board.as_mut_slice(),
            chip.as_mut_slice(),
            &mut said,
            &mut recorder,
        ),
        Outside::Steady(late) => run_steady::<Uncached, Recorder>(
            memory.as_slice(),
            *late,
            options.cycles,
            board.as_mut_slice(),
            chip.as_mut_slice(),
            &mut said,
            &mut recorder,
        ),
    };
    // Let go of here, so that what is written out can have their memory.
    drop(choices);
    let ended = match result {
        Ok(ended) => ended,
        Err(Stopped::Refused(refusal)) => return refused(rt, refusal),
        Err(Stopped::Unheard) => return Err(anyhow!("no room for what is said and done")),
    };
    print_said(rt, &recorder)?;
    print_summary(rt, &recorder, cores, ended)?;
    if let Some(path) = &options.events {
        save_events(rt, &recorder, path.as_str())?;
    }
    if let (Some(path), Some(memory)) = (&options.save, board.get(..lines.saturating_mul(8))) {
        save_memory(rt, cores, memory, path.as_str())?;
    }
    Ok(true)
}

fn main(rt: HostRuntime) -> anyhow::Result<ExitCode> {
    let options = options::read(&rt)?;
    run_or_help(&rt, HELP, options, |options| run(&rt, options))
}
