// What is wrong with a source is told, all of it, with its line, its column, and what was expected.
use source::{Expected, Fault, read};
use std::alloc::Global;
use std::process::Abort;
use std::test::Fail;

fn fault(line: usize, column: usize, expected: Expected) -> Fault {
    Fault {
        line,
        column,
        expected,
    }
}

// A source has these faults, in this order, and no other.
fn has_faults(rt: &impl Abort, heap: Global, text: &str, faults: &[Fault]) -> Result<(), Fail> {
    let source = read(heap, text.as_bytes())?;
    assert_eq!(rt; source.faults.len(), faults.len());
    for (found, wanted) in source.faults.iter().zip(faults.iter()) {
        assert_eq!(rt; *found, *wanted);
    }
    Ok(())
}

#[test]
fn all_faults_are_told(rt: HostRuntime) -> Result<(), Fail> {
    has_faults(
        &rt,
        rt.alloc(),
        "        addi a0, a0\n  frob a0\nx: nop\nx: nop\n  lw t0, 4[t1]\n  li t0, later\n  add t0, t1, 5\n  .cores 5\n  nop nop # one\n  j 2b\n  lui t0, 0x100000\n  .lines 1\n  .lines 2\n",
        &[
            fault(1, 20, Expected::Comma),
            fault(2, 3, Expected::Mnemonic),
            fault(4, 1, Expected::NewName),
            fault(5, 11, Expected::Opening),
            fault(6, 10, Expected::Constant),
            fault(7, 15, Expected::Register),
            fault(8, 10, Expected::Cores),
            fault(9, 7, Expected::EndOfLine),
            fault(10, 5, Expected::LocalBefore),
            fault(11, 11, Expected::Upper),
            fault(13, 10, Expected::Once),
        ],
    )
}

#[test]
fn labels_that_stand_nowhere_are_told_at_each_mention(rt: HostRuntime) -> Result<(), Fail> {
    has_faults(
        &rt,
        rt.alloc(),
        "  j end\n  beqz a0, end + 4\n  j 1f\nhere: j here\n  .word end - here",
        &[
            fault(1, 5, Expected::Defined),
            fault(2, 12, Expected::Defined),
            fault(3, 5, Expected::Defined),
            fault(5, 9, Expected::Defined),
        ],
    )
}

#[test]
fn a_source_without_faults(rt: HostRuntime) -> Result<(), Fail> {
    let source = read(rt.alloc(), b".cores 3\n.lines 7\nx: y: nop\n1: j 1b\n")?;
    assert!(rt; source.faults.is_empty());
    assert_eq!(rt; source.cores, Some(3));
    assert_eq!(rt; source.lines, Some(7));
    assert_eq!(rt; source.symbols, 3);
    assert_eq!(rt; source.statements.len(), 5);
    assert_eq!(rt; source.rows.as_slice(), [3, 3, 3, 4, 4].as_slice());
    Ok(())
}
