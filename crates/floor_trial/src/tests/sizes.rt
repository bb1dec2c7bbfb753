// Floors of each size.
use crate::tests::answers::{all_old, read_as, written};
use crate::tests::samples::{OLD_BYTE, fixtures};
use claims::Fixture;
use floors::sum_of_words;
use runout::SAMPLE;
use std::process::Abort;
use std::test::Fail;

// Fixtures are written as a file of this length, each of whose blocks sums to 0, and read back; the bytes past it stay.
fn goes_round(rt: &impl Abort, rows: &[Fixture], length: usize) -> Result<(), Fail> {
    let mut bytes = [OLD_BYTE; 41_472];
    written(rt, rows, &mut bytes, length)?;
    assert!(rt; length <= 41_472);
    let (file, past) = bytes.split_at(length);
    all_old(rt, past);
    for block in file.chunks_exact(512) {
        assert_eq!(rt; sum_of_words(block), 0);
    }
    read_as(rt, file, SAMPLE, rows)
}

// None, and up to three blocks of fixtures.
#[test]
fn small_floors_are_read_back(rt: HostRuntime) -> Result<(), Fail> {
    let all = fixtures::<27>();
    for (count, length) in [
        (0, 512),
        (1, 1_024),
        (12, 1_024),
        (13, 1_024),
        (14, 1_536),
        (26, 1_536),
        (27, 2_048),
    ] {
        let rows = all.get(0..count).ok_or("too few fixtures")?;
        goes_round(&rt, rows, length)?;
    }
    Ok(())
}

// Block 78 is full with 1,014 fixtures, and block 79 has the 10 after them.
#[test]
fn large_floors_are_read_back(rt: HostRuntime) -> Result<(), Fail> {
    let all = fixtures::<1_024>();
    for (count, length) in [
        (1_014, 40_448),
        (1_015, 40_960),
        (1_023, 40_960),
        (1_024, 40_960),
    ] {
        let rows = all.get(0..count).ok_or("too few fixtures")?;
        goes_round(&rt, rows, length)?;
    }
    Ok(())
}
