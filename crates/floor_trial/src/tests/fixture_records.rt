// 55: the five numbers of each record make a fixture.
use crate::tests::answers::{no_fixture, read_as, refused, wrong_byte};
use crate::tests::damage::{change, change_number};
use crate::tests::samples::{BOX, file_of, three_blocks};
use claims::{Fixture, FixtureField, Span, ThingFault};
use runout::SAMPLE;
use std::process::Abort;
use std::test::Fail;

// The first record of block 1, its 13th, and the first of block 2: the byte of the file, the block, and its byte.
const RECORDS: [(usize, usize, usize); 3] = [(520, 1, 8), (952, 1, 440), (1_032, 2, 8)];

// Each edge of a record, just too far and as far as can be; the fault names the field.
fn far_edges(rt: &impl Abort, at: usize, block: usize, byte: usize) -> Result<(), Fail> {
    let good = three_blocks(rt)?;
    for (from, field) in [
        (4, FixtureField::LowX),
        (12, FixtureField::HighX),
        (20, FixtureField::LowY),
        (28, FixtureField::HighY),
    ] {
        for value in [-2_000_000_000_001, 2_000_000_000_001, i64::MIN, i64::MAX] {
            let mut bytes = good;
            change_number(rt, &mut bytes, at.saturating_add(from), value)?;
            refused(rt, &bytes, no_fixture(block, byte, field.into()));
        }
    }
    Ok(())
}

#[test]
fn an_edge_that_is_too_far_is_refused(rt: HostRuntime) -> Result<(), Fail> {
    for (at, block, byte) in RECORDS {
        far_edges(&rt, at, block, byte)?;
    }
    Ok(())
}

// The low x edge above the high one, or the high y edge below the low one.
#[test]
fn edges_in_the_wrong_order_are_refused(rt: HostRuntime) -> Result<(), Fail> {
    let good = three_blocks(&rt)?;
    for (at, block, byte) in RECORDS {
        for (from, value) in [(4, 2_000_000_000_000), (28, -2_000_000_000_000)] {
            let mut bytes = good;
            change_number(&rt, &mut bytes, at.saturating_add(from), value)?;
            refused(
                &rt,
                &bytes,
                no_fixture(block, byte, ThingFault::LowAboveHigh),
            );
        }
    }
    Ok(())
}

// Just past the high edge, and at it.
#[test]
fn a_low_edge_is_at_most_the_high_one(rt: HostRuntime) -> Result<(), Fail> {
    let good = file_of::<1_024>(&rt, SAMPLE, &[BOX])?;
    for (at, value) in [(524, 1_100_000_001), (540, 500_000_001)] {
        let mut bytes = good;
        change_number(&rt, &mut bytes, at, value)?;
        refused(&rt, &bytes, no_fixture(1, 8, ThingFault::LowAboveHigh));
    }
    let point = Fixture {
        label: 7,
        x: Span {
            low: 1_100_000_000,
            high: 1_100_000_000,
        },
        y: Span {
            low: 500_000_000,
            high: 500_000_000,
        },
    };
    let mut bytes = good;
    change_number(&rt, &mut bytes, 524, 1_100_000_000)?;
    change_number(&rt, &mut bytes, 540, 500_000_000)?;
    read_as(&rt, &bytes, SAMPLE, &[point])
}

// The farthest edges, and the greatest label.
#[test]
fn the_largest_fixture_is_read(rt: HostRuntime) -> Result<(), Fail> {
    let end = 2_000_000_000_000;
    let all = Span {
        low: -end,
        high: end,
    };
    let rows = [Fixture {
        label: u32::MAX,
        x: all,
        y: all,
    }];
    read_as(&rt, &file_of::<1_024>(&rt, SAMPLE, &rows)?, SAMPLE, &rows)
}

// In each step one more bad record before the others, the 13th first with 22 and then with 21; last a wrong byte.
#[test]
fn the_first_bad_record_is_named(rt: HostRuntime) -> Result<(), Fail> {
    let mut bytes = three_blocks(&rt)?;
    change_number(&rt, &mut bytes, 1_044, i64::MAX)?;
    refused(&rt, &bytes, no_fixture(2, 8, FixtureField::HighX.into()));
    change_number(&rt, &mut bytes, 956, 2_000_000_000_000)?;
    refused(&rt, &bytes, no_fixture(1, 440, ThingFault::LowAboveHigh));
    change_number(&rt, &mut bytes, 956, 2_000_000_000_001)?;
    refused(&rt, &bytes, no_fixture(1, 440, FixtureField::LowX.into()));
    change_number(&rt, &mut bytes, 576, i64::MIN)?;
    refused(&rt, &bytes, no_fixture(1, 44, FixtureField::LowY.into()));
    change_number(&rt, &mut bytes, 548, i64::MIN)?;
    refused(&rt, &bytes, no_fixture(1, 8, FixtureField::HighY.into()));
    change(&rt, &mut bytes, 1_021, 1)?;
    refused(&rt, &bytes, wrong_byte(1, 509));
    Ok(())
}
