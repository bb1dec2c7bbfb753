// 53: the head of a block and its unused bytes. Each block is sealed after the change.
use crate::tests::answers::{read_as, refused, wrong_byte};
use crate::tests::damage::{change, flip, put, seal};
use crate::tests::samples::{file_of, fixtures, longest, three_blocks};
use runout::SAMPLE;
use std::process::Abort;
use std::test::Fail;

// Of the plate's block, of a full block and of the last.
#[test]
fn every_byte_of_a_head_is_checked(rt: HostRuntime) -> Result<(), Fail> {
    let good = three_blocks(&rt)?;
    // over blocks and bytes, which are what is changed
    for block in 0..3usize {
        for byte in 0..8usize {
            let mut bytes = good;
            flip(&mut bytes, 512 * block + byte)?;
            seal(&rt, &mut bytes, block);
            refused(&rt, &bytes, wrong_byte(block, byte));
        }
    }
    Ok(())
}

// Block 0 is no block of fixtures, and block 1 no plate's.
#[test]
fn a_block_has_the_kind_of_its_place(rt: HostRuntime) -> Result<(), Fail> {
    let good = three_blocks(&rt)?;
    for (at, kind, block) in [
        (0, 0, 0),
        (0, 2, 0),
        (512, 0, 1),
        (512, 1, 1),
        (512, 3, 1),
        (1_024, 1, 2),
    ] {
        let mut bytes = good;
        change(&rt, &mut bytes, at, kind)?;
        refused(&rt, &bytes, wrong_byte(block, 0));
    }
    Ok(())
}

// Any byte of a block of the three from `first` to the checksum.
fn unused_from(rt: &impl Abort, block: usize, first: usize) -> Result<(), Fail> {
    assert!(rt; block < 3);
    let good = three_blocks(rt)?;
    // over the bytes, which are what is changed
    for byte in first..510 {
        let mut bytes = good;
        change(rt, &mut bytes, 512 * block + byte, 1)?;
        refused(rt, &bytes, wrong_byte(block, byte));
    }
    Ok(())
}

// Past the plate, past 13 fixtures and past 1.
#[test]
fn every_unused_byte_is_0(rt: HostRuntime) -> Result<(), Fail> {
    unused_from(&rt, 0, 80)?;
    unused_from(&rt, 1, 476)?;
    unused_from(&rt, 2, 44)
}

// In block 0, in a block between, and in the last.
#[test]
fn a_count_is_that_of_its_place(rt: HostRuntime) -> Result<(), Fail> {
    let good = three_blocks(&rt)?;
    for (at, count, block) in [
        (1, 1, 0),
        (1, 255, 0),
        (513, 0, 1),
        (513, 12, 1),
        (513, 14, 1),
        (1_025, 0, 2),
        (1_025, 14, 2),
        (1_025, 255, 2),
    ] {
        let mut bytes = good;
        change(&rt, &mut bytes, at, count)?;
        refused(&rt, &bytes, wrong_byte(block, 1));
    }
    Ok(())
}

// The 11th record would be all 0, and so a fixture; but 1,025 fixtures are too many.
#[test]
fn block_79_holds_10_fixtures_at_most(rt: HostRuntime) -> Result<(), Fail> {
    let good = longest(&rt)?;
    for count in [0, 11, 13] {
        let mut bytes = good;
        change(&rt, &mut bytes, 40_449, count)?;
        refused(&rt, &bytes, wrong_byte(79, 1));
    }
    read_as(&rt, &good, SAMPLE, &fixtures::<1_024>())
}

// The label of the record that is no longer counted is its first byte that is not 0.
#[test]
fn a_record_past_the_count_is_unused(rt: HostRuntime) -> Result<(), Fail> {
    let mut bytes = file_of::<1_024>(&rt, SAMPLE, &fixtures::<13>())?;
    change(&rt, &mut bytes, 513, 12)?;
    refused(&rt, &bytes, wrong_byte(1, 440));
    Ok(())
}

// Two wrong bytes of block 1, which begins at byte 512 of the file; the first is named.
#[test]
fn the_first_wrong_byte_is_named(rt: HostRuntime) -> Result<(), Fail> {
    let good = three_blocks(&rt)?;
    for (first, second, byte) in [
        (512, 513, 0),
        (512, 1_021, 0),
        (513, 514, 1),
        (513, 988, 1),
        (514, 516, 2),
        (515, 519, 3),
        (519, 1_021, 7),
        (988, 1_021, 476),
    ] {
        let mut bytes = good;
        put(&mut bytes, second, 77)?;
        put(&mut bytes, first, 77)?;
        seal(&rt, &mut bytes, 1);
        refused(&rt, &bytes, wrong_byte(1, byte));
    }
    Ok(())
}
