// The chip's state in the lent words: parts of it read out by value, and written back.
ghost use Rattle.std.specs.Prelude.{◌≡◌, ℕ, ◌%◌, ◌<◌, ◌≤◌, length, slice_index};
ghost use Rattle.cores.specs.Put.{put};
ghost use Rattle.cached.specs.Layout.{control_of, shared, state_of, with_cpus, with_dues, with_ons, with_shared, with_sweeps};

use crate::control::Control;
use cache::index::SlotIndex;
use cores::registers::{Flags, Registers};
use rv32::core_state::Core;
use words::table::{Table, at, put_at};

// The lent words of a chip that are used.
pub(crate) type Chip = [u32; 3309];

// The slot that each core hands back next, once it has stopped: a word for each.
pub struct Sweeps;

impl Table for Sweeps {
    type Value = SlotIndex;

    const SIZE: usize = 1;

    ghost SIZE = { 1 };

    ghost Meaning = { ℕ };

    ghost means = { λ _ slot. slot };

    ghost said = { λ _ words. slice_index words 0 % 64 };

    fn read(block: &[u32]) -> SlotIndex {
        SlotIndex::from(block[0])
    }

    fn write(block: &mut [u32], slot: SlotIndex) {
        block[0] = slot.number() as u32;
    }
}

fn read_control(block: &[u32]) -> Control
    requires { length block.now ≡ 5 }
    ensures { result ≡ control_of block.now }
{
    Control {
        count: block[0].min(4) as usize,
        size: block[1],
        lead: block[2] as usize % 4,
        turn: block[3] as usize % 4,
        way: block[4] != 0,
    }
}

fn write_control(block: &mut [u32], control: Control)
    requires { (length block.old ≡ 5) × ((control.count ≤ 4) × ((control.lead < 4) × (control.turn < 4))) }
    ensures { control_of block.new ≡ control }
{
    block.copy_from_slice(&[
        control.count as u32,
        control.size,
        control.lead as u32,
        control.turn as u32,
        control.way as u32,
    ]);
}

// The registers of core k.
pub(crate) fn core(chip: &Chip, k: usize) -> Core
    requires { k < 4 }
    ensures { result ≡ (state_of chip.now).cpu k }
{
    at::<Registers>(&chip[0..140], k)
}

pub(crate) fn set_core(chip: &mut Chip, k: usize, core: Core)
    requires { k < 4 }
    ensures { state_of chip.new ≡ with_cpus (state_of chip.old) (put (state_of chip.old).cpu k core) }
{
    put_at::<Registers>(&mut chip[0..140], k, core);
}

// Whether core k goes.
pub(crate) fn is_on(chip: &Chip, k: usize) -> bool
    requires { k < 4 }
    ensures { result ≡ (state_of chip.now).on k }
{
    at::<Flags>(&chip[140..144], k)
}

pub(crate) fn set_on(chip: &mut Chip, k: usize, on: bool)
    requires { k < 4 }
    ensures { state_of chip.new ≡ with_ons (state_of chip.old) (put (state_of chip.old).on k on) }
{
    put_at::<Flags>(&mut chip[140..144], k, on);
}

// What the cores share.
pub(crate) fn control(chip: &Chip) -> Control
    ensures value { result ≡ shared (state_of chip.now) }
    ensures within { (result.count ≤ 4) × (result.lead < 4) × (result.turn < 4) }
{
    read_control(&chip[144..149])
}

pub(crate) fn set_control(chip: &mut Chip, control: Control)
    requires { (control.count ≤ 4) × ((control.lead < 4) × (control.turn < 4)) }
    ensures { state_of chip.new ≡ with_shared (state_of chip.old) control }
{
    write_control(&mut chip[144..149], control);
}

// Whether the next message of core k is its grant.
pub(crate) fn is_due(chip: &Chip, k: usize) -> bool
    requires { k < 4 }
    ensures { result ≡ (state_of chip.now).hints.due k }
{
    at::<Flags>(&chip[149..153], k)
}

pub(crate) fn set_due(chip: &mut Chip, k: usize, due: bool)
    requires { k < 4 }
    ensures { state_of chip.new ≡ with_dues (state_of chip.old) (put (state_of chip.old).hints.due k due) }
{
    put_at::<Flags>(&mut chip[149..153], k, due);
}

// The slot that core k hands back next, once it has stopped.
pub(crate) fn sweep(chip: &Chip, k: usize) -> SlotIndex
    requires { k < 4 }
    ensures { result ≡ (state_of chip.now).hints.sweep k }
{
    at::<Sweeps>(&chip[153..157], k)
}

pub(crate) fn set_sweep(chip: &mut Chip, k: usize, slot: SlotIndex)
    requires { k < 4 }
    ensures { state_of chip.new ≡ with_sweeps (state_of chip.old) (put (state_of chip.old).hints.sweep k slot) }
{
    put_at::<Sweeps>(&mut chip[153..157], k, slot);
}
