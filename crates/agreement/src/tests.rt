// Small programs on the chip, steady and by choices, and its events on the machines.
use chips::{Cached, LentChip, Uncached};
use reference::machines::{Machines, Outcome};
use std::alloc::Global;
use std::process::Abort;
use std::test::Fail;
use system::recorder::Recorder;
use system::run::run;
use system::steady::run_steady;

// A program: its first words, and how many cores run it, in a memory of eight lines.
#[derive(Clone, Copy)]
struct Program {
    words: [u32; 20],
    cores: u8,
}

// says 7
const A: Program = Program {
    words: [
        0x00700293, 0x40000337, 0x00532023, 0x00100073, 0, 0, 0, 0, 0, 0, 0, 0, 0, 0, 0, 0, 0, 0,
        0, 0,
    ],
    cores: 1,
};

// says the sum of 1 to 10
const B: Program = Program {
    words: [
        0x00000293, 0x00a00313, 0x006282b3, 0xfff30313, 0xfe031ce3, 0x400003b7, 0x0053a023,
        0x00100073, 0, 0, 0, 0, 0, 0, 0, 0, 0, 0, 0, 0,
    ],
    cores: 1,
};

// stores 9, loads it, and says it
const C: Program = Program {
    words: [
        0x00900293, 0x08502023, 0x08002303, 0x400003b7, 0x0063a023, 0x00100073, 0, 0, 0, 0, 0, 0,
        0, 0, 0, 0, 0, 0, 0, 0,
    ],
    cores: 1,
};

// says its core's number
const D: Program = Program {
    words: [
        0x400003b7, 0x00a3a023, 0x00100073, 0, 0, 0, 0, 0, 0, 0, 0, 0, 0, 0, 0, 0, 0, 0, 0, 0,
    ],
    cores: 4,
};

// adds 1 to a word by AMOADD, and says what it was
const E: Program = Program {
    words: [
        0x00100293, 0x08000313, 0x005323af, 0x40000e37, 0x007e2023, 0x00100073, 0, 0, 0, 0, 0, 0,
        0, 0, 0, 0, 0, 0, 0, 0,
    ],
    cores: 2,
};

// lets interrupts and waits at 12; from 0x40 on, says where the interrupt came from
const G: Program = Program {
    words: [
        0x00100293, 0x400003b7, 0x0053a223, 0x0000006f, 0, 0, 0, 0, 0, 0, 0, 0, 0, 0, 0, 0,
        0x0083a283, 0x0053a023, 0x00100073, 0,
    ],
    cores: 1,
};

// The memory with a program, as bytes.
fn image_of(heap: Global, program: Program) -> Result<Vec<u8>, Fail> {
    let mut bytes = Vec::new(heap);
    bytes.extend_from_slice(&[b'C', b'H', b'I', b'P', program.cores, 8, 0, 0, 0])?;
    for word in program.words {
        bytes.extend_from_slice(&word.to_le_bytes())?;
    }
    bytes.resize(9 + 256, 0)?;
    Ok(bytes)
}

// The events of the chip on the machines say the words that the chip said, and leave its memory.
fn agrees(
    rt: &impl Abort,
    heap: Global,
    program: Program,
    recorder: &Recorder,
    board: &[u32],
) -> Result<(), Fail> {
    let mut memory = [0u32; 64];
    memory[0..20].copy_from_slice(&program.words);
    let Some(mut machines) = Machines::new(program.cores as usize) else {
        return Err(Fail::new("more than four cores"));
    };
    let mut outcomes = Vec::new(heap);
    machines
        .run(&mut memory, recorder.did.as_slice(), &mut outcomes)
        .map_err(|_| Fail::new("not run"))?;
    let mut said = recorder.said.iter();
    for outcome in outcomes.iter() {
        match *outcome {
            Outcome::Said { core, word } => {
                let Some(heard) = said.next() else {
                    return Err(Fail::new("more is said by the machines"));
                };
                assert_eq!(rt; heard.core, core);
                assert_eq!(rt; heard.word, word);
            }
            Outcome::Done | Outcome::Stopped => {}
            Outcome::Off | Outcome::NotLet => return Err(Fail::new("an event that is not allowed")),
        }
    }
    assert!(rt; said.next().is_none(), "more is said by the chip");
    for (ours, theirs) in memory.iter().zip(board.iter()) {
        assert_eq!(rt; *ours, *theirs);
    }
    Ok(())
}

// What the chip says of a program on the steady board.
fn steady<K: LentChip>(
    rt: &impl Abort,
    heap: Global,
    program: Program,
    late: u32,
    cycles: u64,
) -> Result<Recorder, Fail> {
    let bytes = image_of(heap, program)?;
    let mut board = [0u32; 1088];
    let mut chip = vec![in heap; 0u32; 16384]?;
    let mut said = [0u32; 16];
    let mut recorder = Recorder::new(heap);
    let ended = run_steady::<K, Recorder>(
        bytes.as_slice(),
        late,
        cycles,
        &mut board,
        chip.as_mut_slice(),
        &mut said,
        &mut recorder,
    );
    assert!(rt; ended.is_ok(), "refused");
    agrees(rt, heap, program, &recorder, &board)?;
    Ok(recorder)
}

fn says(rt: &impl Abort, recorder: &Recorder, words: &[u32]) {
    assert_eq!(rt; recorder.said.len(), words.len());
    for (said, word) in recorder.said.iter().zip(words.iter()) {
        assert_eq!(rt; said.word, *word);
    }
}

// What is said, lowest word first: cores with caches need not speak in the order of their numbers.
fn says_in_some_order(
    rt: &impl Abort,
    heap: Global,
    recorder: &Recorder,
    words: &[u32],
) -> Result<(), Fail> {
    let mut said = Vec::new(heap);
    for heard in recorder.said.iter() {
        said.push(heard.word)?;
    }
    said.as_mut_slice().sort(heap)?;
    assert_eq!(rt; said.as_slice(), words);
    Ok(())
}

#[test]
fn programs_say_the_same_on_the_steady_board(rt: HostRuntime) -> Result<(), Fail> {
    for late in [0, 3, 100] {
        says(
            &rt,
            &steady::<Uncached>(&rt, rt.alloc(), A, late, 10_000)?,
            &[7],
        );
        says(
            &rt,
            &steady::<Uncached>(&rt, rt.alloc(), B, late, 10_000)?,
            &[55],
        );
        says(
            &rt,
            &steady::<Uncached>(&rt, rt.alloc(), C, late, 10_000)?,
            &[9],
        );
        says(
            &rt,
            &steady::<Uncached>(&rt, rt.alloc(), D, late, 10_000)?,
            &[0, 1, 2, 3],
        );
        says(
            &rt,
            &steady::<Uncached>(&rt, rt.alloc(), E, late, 10_000)?,
            &[0, 1],
        );
        says(
            &rt,
            &steady::<Uncached>(&rt, rt.alloc(), G, late, 1_000)?,
            &[],
        );
    }
    Ok(())
}

// Choices that give the first waiting line in every cycle but each third, with the interrupt line of core 0 up in each seventh.
fn choices_of(heap: Global, cycles: u32) -> Result<Vec<u8>, Fail> {
    let mut bytes = Vec::new(heap);
    for cycle in 0..cycles {
        bytes.push(if cycle % 7 == 0 { 1 } else { 0 })?;
        if cycle % 3 == 0 {
            bytes.push(0)?;
        } else {
            bytes.extend_from_slice(&[1, 0])?;
        }
    }
    Ok(bytes)
}

fn by_choices<K: LentChip>(
    rt: &impl Abort,
    heap: Global,
    program: Program,
    cycles: u32,
) -> Result<Recorder, Fail> {
    let bytes = image_of(heap, program)?;
    let choices = choices_of(heap, cycles)?;
    let mut board = [0u32; 1088];
    let mut chip = vec![in heap; 0u32; 16384]?;
    let mut said = [0u32; 16];
    let mut recorder = Recorder::new(heap);
    let ended = run::<K, Recorder>(
        bytes.as_slice(),
        choices.as_slice(),
        &mut board,
        chip.as_mut_slice(),
        &mut said,
        &mut recorder,
    );
    assert!(rt; ended.is_ok(), "refused");
    agrees(rt, heap, program, &recorder, &board)?;
    Ok(recorder)
}

#[test]
fn programs_say_the_same_by_choices(rt: HostRuntime) -> Result<(), Fail> {
    says(&rt, &by_choices::<Uncached>(&rt, rt.alloc(), A, 400)?, &[7]);
    says(
        &rt,
        &by_choices::<Uncached>(&rt, rt.alloc(), B, 400)?,
        &[55],
    );
    says(&rt, &by_choices::<Uncached>(&rt, rt.alloc(), C, 400)?, &[9]);
    says(
        &rt,
        &by_choices::<Uncached>(&rt, rt.alloc(), D, 400)?,
        &[0, 1, 2, 3],
    );
    says(
        &rt,
        &by_choices::<Uncached>(&rt, rt.alloc(), E, 400)?,
        &[0, 1],
    );
    says(
        &rt,
        &by_choices::<Uncached>(&rt, rt.alloc(), G, 400)?,
        &[12],
    );
    Ok(())
}

// The programs with the words that they say.
const SAID: [(Program, &[u32]); 5] = [
    (A, &[7]),
    (B, &[55]),
    (C, &[9]),
    (D, &[0, 1, 2, 3]),
    (E, &[0, 1]),
];

#[test]
fn programs_say_the_same_with_caches(rt: HostRuntime) -> Result<(), Fail> {
    for (program, words) in SAID {
        for late in [0, 3, 100] {
            let recorder = steady::<Cached>(&rt, rt.alloc(), program, late, 10_000)?;
            says_in_some_order(&rt, rt.alloc(), &recorder, words)?;
        }
        let recorder = by_choices::<Cached>(&rt, rt.alloc(), program, 10_000)?;
        says_in_some_order(&rt, rt.alloc(), &recorder, words)?;
    }
    says(
        &rt,
        &by_choices::<Cached>(&rt, rt.alloc(), G, 10_000)?,
        &[12],
    );
    Ok(())
}
