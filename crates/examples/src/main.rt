// Runs memories on the chip and the steady board, then the chip's events on the machines, and prints what both say.
#![tactic(auto)]

use chips::Uncached;
use cores::port::Event;
use image::{load, read_header};
use reference::machines::{Machines, Outcome};
use std::{env, fs};
use system::recorder::Recorder;
use system::steady::run_steady;

// A memory after a run: what was said, lowest word first, and memory's words.
#[derive(Drop)]
struct After {
    said: Vec<u32>,
    memory: Vec<u32>,
}

// The memory on the chip, where lines come so many cycles after the next; and what was done. None where it is refused, or runs for more than ten million cycles.
fn on_chip(
    rt: &HostRuntime,
    image: &[u8],
    late: u32,
) -> anyhow::Result<Option<(After, Vec<Event>)>> {
    let Ok(header) = read_header(image) else {
        return Ok(None);
    };
    let lines = header.lines;
    let mut board = vec![in rt.alloc(); 0u32; lines.saturating_mul(8).saturating_add(1024)]?;
    let mut chip = vec![in rt.alloc(); 0u32; 16384]?;
    let mut words = [0u32; 16];
    let mut recorder = Recorder::new(rt.alloc());
    let result = run_steady::<Uncached, Recorder>(
        image,
        late,
        10_000_000,
        board.as_mut_slice(),
        chip.as_mut_slice(),
        &mut words,
        &mut recorder,
    );
    if !result.is_ok_and(|ended| ended.stopped) {
        return Ok(None);
    }
    let mut said: Vec<u32> = recorder
        .said
        .iter()
        .map(|said| said.word)
        .collect(rt.alloc())?;
    said.sort()?;
    board.truncate(lines.saturating_mul(8));
    Ok(Some((
        After {
            said,
            memory: board,
        },
        recorder.did,
    )))
}

// The memory on the machines, which do these events.
fn on_machines(rt: &HostRuntime, image: &[u8], events: &[Event]) -> anyhow::Result<Option<After>> {
    let Ok(header) = read_header(image) else {
        return Ok(None);
    };
    let mut memory = vec![in rt.alloc(); 0u32; header.lines.saturating_mul(8)]?;
    if load(image, memory.as_mut_slice()).is_err() {
        return Ok(None);
    }
    let Some(mut machines) = Machines::new(header.cores) else {
        return Ok(None);
    };
    let mut outcomes = Vec::new(rt.alloc());
    if machines
        .run(memory.as_mut_slice(), events, &mut outcomes)
        .is_err()
    {
        return Ok(None);
    }
    let mut said: Vec<u32> = outcomes
        .iter()
        .filter_map(|outcome| match *outcome {
            Outcome::Said { word, .. } => Some(word),
            _ => None,
        })
        .collect(rt.alloc())?;
    said.sort()?;
    Ok(Some(After { said, memory }))
}

// One line for a memory: what was said on the chip, and whether the machines say the same and leave the same memory.
fn show(rt: &HostRuntime, path: &str, late: u32) -> anyhow::Result<()> {
    let image = fs::read(rt, path)?;
    let Some((chip, events)) = on_chip(rt, image.as_slice(), late)? else {
        println!(rt; "{path} lines after {late}: not run to its end")?;
        return Ok(());
    };
    print!(rt; "{path} lines after {late}: said")?;
    for word in chip.said.iter() {
        print!(rt; " {word}")?;
    }
    let Some(machines) = on_machines(rt, image.as_slice(), events.as_slice())? else {
        println!(rt; "; not run on the machines")?;
        return Ok(());
    };
    let said = chip.said.as_slice() == machines.said.as_slice();
    let memory = chip.memory.as_slice() == machines.memory.as_slice();
    println!(rt;
        "; the machines say {}, and memory is {}",
        if said { "the same" } else { "something else" },
        if memory { "theirs" } else { "another" }
    )?;
    Ok(())
}

fn main(rt: HostRuntime) -> anyhow::Result<()> {
    for path in env::args(&rt)?.skip(1) {
        for late in [0, 3, 100] {
            show(&rt, path.as_str(), late)?;
        }
    }
    Ok(())
}
