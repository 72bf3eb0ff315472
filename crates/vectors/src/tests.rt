// Each vector of the table, and the words that stop a core.
use crate::Vector;
use crate::table::{DATA, PC, TABLE};
use rv32::core_state::{Core, Effect};
use rv32::decode::decoded;

// What x7, the data word and pc have after an instruction, in a memory of 32 lines; none where the core stops or says something.
fn after(v: Vector) -> Option<(u32, u32, u32)> {
    let start = Core {
        pc: PC,
        ..Core::new(0)
    };
    let core = start.with(5, v.x5).with(6, v.x6);
    match core.executes(32, decoded(v.word), DATA) {
        Effect::Goes { core } => Some((core.get(7), DATA, core.pc)),
        Effect::Stores { value, core, .. } => Some((core.get(7), value, core.pc)),
        Effect::Says { .. } | Effect::Stops => None,
    }
}

#[test]
fn instructions_do_what_another_machine_does(rt: HostRuntime) {
    for v in &TABLE {
        assert_eq!(rt; after(*v), Some((v.x7, v.data, v.pc)));
    }
}

fn stops(word: u32, x5: u32) -> bool {
    let core = Core::new(0).with(5, x5);
    matches!(core.executes(32, decoded(word), DATA), Effect::Stops)
}

// ECALL, EBREAK, a word of zeros, MUL, CSRRW, FENCE.I, LR.W, LWU, an SLLI with a high bit, and a SUB with another funct7.
#[test]
fn other_words_stop(rt: HostRuntime) {
    for word in [
        0x00000073, 0x00100073, 0, 0x026283b3, 0x30529073, 0x0000100f, 0x1002a3af, 0x0002e383,
        0x02129393, 0x606283b3,
    ] {
        assert!(rt; stops(word, 64), "a word that is no instruction here");
    }
}

// lw x7, 0(x5), lh x7, 0(x5), sw x6, 0(x5), amoadd.w x7, x6, (x5): addresses that are no multiple of the size, past the end, or of a device.
#[test]
fn wrong_addresses_stop(rt: HostRuntime) {
    for address in [
        1, 2, 3, 1024, 0x3fffffff, 0x40000000, 0x40000004, 0x4000000c, 0xfffffffc,
    ] {
        assert!(rt; stops(0x0002a383, address), "lw");
    }
    assert!(rt; stops(0x00029383, 1), "lh");
    assert!(rt; stops(0x00029383, 0x40000008), "lh of a device");
    assert!(rt;
        stops(0x0062a023, 0x40000008),
        "sw to where interrupts come from"
    );
    assert!(rt; stops(0x00628023, 0x40000000), "sb to a device");
    assert!(rt; stops(0x0062a3af, 0x40000000), "amoadd to a device");
    assert!(rt; stops(0x0062a3af, 66), "amoadd");
    assert!(rt; !stops(0x0002a383, 1020), "the last word");
    assert!(rt;
        !stops(0x0002a383, 0x40000008),
        "where the last interrupt came from"
    );
}
