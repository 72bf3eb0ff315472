// The chip's state in the lent words: parts of it read out by value, and written back.
ghost use Rattle.std.specs.Prelude.{◌≡◌, ◌<◌, ◌≤◌, length};
ghost use Rattle.soc.specs.Layout.{asked_of, buffer_of, control_of, shared, state_of, with_cpu, with_on, with_shared};

use crate::control::Control;
use cores::port::Line;
use cores::registers::{Flags, Registers};
use rv32::core_state::Core;
use words::table::{at, put_at};

// The lent words of a chip that are used.
pub(crate) type Chip = [u32; 169];

fn read_buffer(block: &[u32]) -> Option<Line>
    requires { length block.now ≡ 10 }
    ensures { result ≡ buffer_of block.now }
{
    if block[0] == 0 {
        return None;
    }
    let mut words = [0; 8];
    words.copy_from_slice(&block[2..10]);
    Some(Line {
        number: block[1],
        words,
    })
}

fn write_buffer(block: &mut [u32], buffer: Option<Line>)
    requires { length block.old ≡ 10 }
    ensures { buffer_of block.new ≡ buffer }
{
    match buffer {
        Some(line) => {
            block[0..2].copy_from_slice(&[1, line.number]);
            block[2..10].copy_from_slice(&line.words);
        }
        None => block[0] = 0,
    }
}

fn read_asked(full: u32, number: u32) -> Option<u32>
    ensures { result ≡ asked_of full number }
{
    (full != 0).then_some(number)
}

fn read_control(block: &[u32]) -> Control
    requires { length block.now ≡ 25 }
    ensures { result ≡ control_of block.now }
{
    Control {
        count: block[0].min(4) as usize,
        size: block[1],
        turn: block[2] as usize % 4,
        asked: read_asked(block[3], block[4]),
        fetched: read_buffer(&block[5..15]),
        loaded: read_buffer(&block[15..25]),
    }
}

fn write_control(block: &mut [u32], control: Control)
    requires { (length block.old ≡ 25) × ((control.count ≤ 4) × (control.turn < 4)) }
    ensures { control_of block.new ≡ control }
{
    let head = [
        control.count as u32,
        control.size,
        control.turn as u32,
        control.asked.is_some() as u32,
        control.asked.unwrap_or(0),
    ];
    block[0..5].copy_from_slice(&head);
    write_buffer(&mut block[5..15], control.fetched);
    write_buffer(&mut block[15..25], control.loaded);
}

// The registers of core k.
pub(crate) fn core(chip: &Chip, k: usize) -> Core
    requires { k < 4 }
    ensures { result ≡ (state_of chip.now).cpu k }
{
    at::<Registers>(&chip[0..140], k)
}

pub(crate) fn set_core(chip: &mut Chip, k: usize, core: Core)
    requires { k < 4 }
    ensures { state_of chip.new ≡ with_cpu (state_of chip.old) k core }
{
    put_at::<Registers>(&mut chip[0..140], k, core);
}

// Whether core k goes.
pub(crate) fn is_on(chip: &Chip, k: usize) -> bool
    requires { k < 4 }
    ensures { result ≡ (state_of chip.now).on k }
{
    at::<Flags>(&chip[140..144], k)
}

pub(crate) fn set_on(chip: &mut Chip, k: usize, on: bool)
    requires { k < 4 }
    ensures { state_of chip.new ≡ with_on (state_of chip.old) k on }
{
    put_at::<Flags>(&mut chip[140..144], k, on);
}

// What the cores share.
pub(crate) fn control(chip: &Chip) -> Control
    ensures value { result ≡ shared (state_of chip.now) }
    ensures within { (result.count ≤ 4) × (result.turn < 4) }
{
    read_control(&chip[144..169])
}

pub(crate) fn set_control(chip: &mut Chip, control: Control)
    requires { (control.count ≤ 4) × (control.turn < 4) }
    ensures { state_of chip.new ≡ with_shared (state_of chip.old) control }
{
    write_control(&mut chip[144..169], control);
}
