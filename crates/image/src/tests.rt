// Bytes made by hand.
use crate::*;
use std::test::Fail;

// A memory of one line for two cores, whose words are 0x04030201 and then 0.
fn one_line() -> [u8; 41] {
    let mut bytes = [0; 41];
    bytes[0..13].copy_from_slice(b"CHIP\x02\x01\x00\x00\x00\x01\x02\x03\x04");
    bytes
}

// The number and the place of a refusal; 0 and 0 where nothing was refused.
fn refused<T: Drop>(res: Result<T, Refusal>) -> (u64, u64) {
    match res {
        Ok(_) => (0, 0),
        Err(e) => (e.number(), e.place()),
    }
}

#[test]
fn a_memory_is_loaded(rt: HostRuntime) -> Result<(), Fail> {
    let mut memory = [9; 9];
    let header = load(&one_line(), &mut memory)?;
    assert_eq!(rt; header, Header { cores: 2, lines: 1 });
    assert_eq!(rt; memory, [0x04030201, 0, 0, 0, 0, 0, 0, 0, 9]);
    assert_eq!(rt; refused(load(&one_line(), &mut [0; 7])), (4, 0));
    Ok(())
}

#[test]
fn a_memory_is_stored(rt: HostRuntime) {
    let mut bytes = [7; 42];
    let memory = [0x04030201, 0, 0, 0, 0, 0, 0, 0];
    assert_eq!(rt; store(2, &memory, &mut bytes).ok(), Some(41));
    assert_eq!(rt; &bytes[0..41], one_line().as_slice());
    assert_eq!(rt; bytes[41], 7);
}

#[test]
fn a_front_is_refused(rt: HostRuntime) {
    assert_eq!(rt; refused(read_header(b"CH")), (1, 2));
    assert_eq!(rt; refused(read_header(b"CHOP")), (2, 0));
    assert_eq!(rt; refused(read_header(b"CHIP\x05")), (2, 4));
    assert_eq!(rt; refused(read_header(b"CHIP\x04\x01\x00\x01\x00")), (2, 5));
}

#[test]
fn a_length_is_refused(rt: HostRuntime) {
    assert_eq!(rt; refused(read_header(&one_line()[0..40])), (1, 40));
    let mut longer = [0; 43];
    longer[0..9].copy_from_slice(b"CHIP\x01\x01\x00\x00\x00");
    assert_eq!(rt; refused(read_header(&longer)), (1, 41));
}

#[test]
fn choices_are_read(rt: HostRuntime) -> Result<(), Fail> {
    let bytes = [1, 2, 0, 3, 2, 0];
    assert_eq!(rt; count_cycles(&bytes, 2), Ok(2));
    let first = cycle_at(&bytes, 0).ok_or("no first")?;
    assert_eq!(rt; first.given, [0, 3].as_slice());
    assert_eq!(rt; (first.raised, first.end), (1, 4));
    assert_eq!(rt;
        (is_up(first.raised, 0), is_up(first.raised, 1)),
        (true, false)
    );
    let second = cycle_at(&bytes, first.end).ok_or("no second")?;
    assert_eq!(rt; second.given, [0u8; 0].as_slice());
    assert_eq!(rt; (second.raised, second.end), (2, 6));
    assert_eq!(rt; cycle_at(&bytes, second.end).is_none(), true);
    Ok(())
}

#[test]
fn records_come_in_order(rt: HostRuntime) {
    let mut records = all_records(&[1, 2, 0, 3, 2, 0, 3, 1]);
    assert_eq!(rt; records.next().map(|record| record.end), Some(4));
    assert_eq!(rt; records.next().map(|record| record.raised), Some(2));
    assert!(rt; records.next().is_none());
}

#[test]
fn choices_are_refused(rt: HostRuntime) {
    assert_eq!(rt; refused(count_cycles(&[0, 0, 1], 4)), (3, 3));
    assert_eq!(rt; refused(count_cycles(&[0, 3, 1, 2], 4)), (3, 4));
    assert_eq!(rt; refused(count_cycles(&[0, 0, 4], 2)), (3, 2));
    assert_eq!(rt; refused(count_cycles(&[0, 3, 5, 6, 6], 2)), (3, 4));
}

#[test]
fn slices_are_refused(rt: HostRuntime) {
    assert_eq!(rt; refused(check_steady(&one_line(), 1031, 0, 0)), (4, 0));
    assert_eq!(rt; refused(check_steady(&one_line(), 1032, 16383, 0)), (4, 1));
    assert_eq!(rt; refused(check_steady(&one_line(), 1032, 16384, 15)), (4, 2));
}

#[test]
fn refusals_have_an_order(rt: HostRuntime) {
    assert_eq!(rt; refused(check(b"CHIX", &[4], 0, 0, 0)), (2, 0));
    assert_eq!(rt; refused(check(&one_line(), &[4], 0, 0, 0)), (3, 0));
    assert_eq!(rt;
        refused(check(&one_line(), &[3, 0], 1032, 16384, 16)),
        (0, 0)
    );
}
