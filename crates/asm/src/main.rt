// Turns the source of a program into a memory for the chip.
#![tactic(auto)]

mod options;

use anyhow::anyhow;
use command::end::run_or_help;
use command::files::bytes_of;
use image::store_bytes;
use layout::{LayoutError, extent, lay_out};
use options::Options;
use source::{Source, read};
use std::fs;
use std::process::ExitCode;

const HELP: &str = "asm SOURCE IMAGE
asm --print SOURCE..

Turns the source of a program into a memory that chip and manual read.

SOURCE    text in the syntax of GNU as for RISC-V: RV32I, amoadd.w and amoswap.w (also with .aq, .rl, .aqrl), mret, fence, ecall, ebreak;
          nop li la mv not neg seqz snez sltz sgtz j jr ret call tail beqz bnez bltz bgez bgtz blez bgt ble bgtu bleu;
          labels, local labels (1: with 1b and 1f), sums of numbers and names, %hi(..) and %lo(..), # before a comment;
          .word .half .byte .org .align .equ .set; .cores N, how many cores run it (1 if not said), and .lines N, how many lines of
          32 bytes memory has (as many as are needed, if not said)
IMAGE     is written only if nothing is wrong with the source
--print   prints the memories of all sources: the lines that are not all zero, with their addresses

What is wrong is reported as SOURCE:LINE:COLUMN: expected .., all of it; the status is then 1.";

// A memory: for how many cores, and its bytes.
#[derive(Drop)]
struct Memory {
    cores: usize,
    bytes: Vec<u8>,
}

// How many lines memory has: as many as the source says, else as many as it needs.
fn lines_of(source: &Source) -> u32 {
    source.lines.unwrap_or_else(|| {
        extent(source.statements.as_slice(), 32 * 65536)
            .div_ceil(32)
            .max(1)
    })
}

// Whether a line is reported already.
fn is_reported(source: &Source, line: usize) -> bool {
    source.faults.iter().any(|fault| fault.line == line)
}

// Reports what is wrong in the source's text.
fn report_faults(rt: &HostRuntime, path: &str, source: &Source) -> anyhow::Result<()> {
    for fault in source.faults.iter() {
        eprintln!(rt; "{path}:{fault}")?;
    }
    Ok(())
}

// Reports what is wrong with statements, but for lines that are reported already.
fn report_layout(
    rt: &HostRuntime,
    path: &str,
    source: &Source,
    error: LayoutError,
) -> anyhow::Result<()> {
    let LayoutError::Faults(faults) = &error else {
        eprintln!(rt; "{path}: {error}")?;
        return Ok(());
    };
    for located in faults.iter() {
        let line = source.rows.get(located.index).copied().unwrap_or(0);
        if !is_reported(source, line) {
            let fault = located.fault;
            eprintln!(rt; "{path}:{line}: expected {fault}")?;
        }
    }
    Ok(())
}

// The memory of a source; none where something is wrong, which is then reported.
fn assemble(rt: &HostRuntime, path: &str) -> anyhow::Result<Option<Memory>> {
    let text = bytes_of(rt, path)?;
    let source = read(rt.alloc(), text.as_slice())?;
    report_faults(rt, path, &source)?;
    let laid = lay_out(
        rt.alloc(),
        source.statements.as_slice(),
        source.symbols,
        lines_of(&source),
    );
    match laid {
        Ok(bytes) => {
            if source.faults.is_empty() {
                let cores = source.cores.unwrap_or(1);
                return Ok(Some(Memory { cores, bytes }));
            }
        }
        Err(error) => report_layout(rt, path, &source, error)?,
    }
    Ok(None)
}

// Prints a memory: the lines that are not all zero.
fn print_memory(rt: &HostRuntime, path: &str, memory: &Memory) -> anyhow::Result<()> {
    let cores = memory.cores;
    let lines = memory.bytes.len() / 32;
    println!(rt; "{path} cores {cores} lines {lines}")?;
    for (i, line) in memory.bytes.as_slice().chunks_exact(32).enumerate() {
        if line.iter().all(|byte| *byte == 0) {
            continue;
        }
        let address = i.saturating_mul(32);
        print!(rt; "{address:08x}:")?;
        let (words, _) = line.as_chunks();
        for word in words {
            let word = u32::from_le_bytes(*word);
            print!(rt; " {word:08x}")?;
        }
        println!(rt; "")?;
    }
    Ok(())
}

fn save(rt: &HostRuntime, memory: &Memory, path: &str) -> anyhow::Result<()> {
    let bytes = memory.bytes.as_slice();
    let mut image = vec![in rt.alloc(); 0u8; bytes.len().saturating_add(9)]?;
    store_bytes(memory.cores, bytes, image.as_mut_slice()).map_err(|_| anyhow!(
        "memory cannot be written out"
    ))?;
    fs::write(rt, path, image.as_slice())?;
    Ok(())
}

// Whether nothing was wrong.
fn run(rt: &HostRuntime, options: &Options) -> anyhow::Result<bool> {
    match options {
        Options::Write { source, image } => {
            let Some(memory) = assemble(rt, source.as_str())? else {
                return Ok(false);
            };
            save(rt, &memory, image.as_str())?;
            Ok(true)
        }
        Options::Print(sources) => {
            let mut right = true;
            for path in sources.iter() {
                match assemble(rt, path.as_str())? {
                    Some(memory) => print_memory(rt, path.as_str(), &memory)?,
                    None => right = false,
                }
            }
            Ok(right)
        }
    }
}

fn main(rt: HostRuntime) -> anyhow::Result<ExitCode> {
    let options = options::read(&rt)?;
    run_or_help(&rt, HELP, options, |options| run(&rt, options))
}
