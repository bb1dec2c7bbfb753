// 56: the table has a row for each fixture, and the bytes room for the file; and 23, which comes first.
use crate::tests::answers::{no_fixture, not_written, read_into, refused_for, written, wrong_byte};
use crate::tests::damage::{change, change_number};
use crate::tests::samples::{OLD, OLD_BYTE, file_of, fixtures, longest, three_blocks};
use claims::FixtureField;
use floor_writer::WriteFault;
use floors::BlockFault;
use runout::SAMPLE;
use std::test::Fail;

#[test]
fn a_table_with_a_row_too_few_is_refused(rt: HostRuntime) -> Result<(), Fail> {
    refused_for(
        &rt,
        &mut [OLD; 13],
        &three_blocks(&rt)?,
        BlockFault::TableTooShort,
    );
    refused_for(&rt, &mut [], &three_blocks(&rt)?, BlockFault::TableTooShort);
    refused_for(
        &rt,
        &mut [OLD; 1_023],
        &longest(&rt)?,
        BlockFault::TableTooShort,
    );
    Ok(())
}

#[test]
fn a_table_with_just_enough_rows_is_filled(rt: HostRuntime) -> Result<(), Fail> {
    let rows = fixtures::<14>();
    read_into(&rt, &mut [OLD; 14], &three_blocks(&rt)?, SAMPLE, &rows)?;
    read_into(
        &rt,
        &mut [],
        &file_of::<512>(&rt, SAMPLE, &[])?,
        SAMPLE,
        &[],
    )?;
    let rows = fixtures::<1_024>();
    read_into(&rt, &mut [OLD; 1_024], &longest(&rt)?, SAMPLE, &rows)
}

// Also where the table is too short for the blocks before the bad one.
#[test]
fn a_bad_block_comes_before_too_few_rows(rt: HostRuntime) -> Result<(), Fail> {
    let mut bytes = three_blocks(&rt)?;
    change_number(&rt, &mut bytes, 1_036, i64::MIN)?;
    refused_for(
        &rt,
        &mut [OLD; 13],
        &bytes,
        no_fixture(2, 8, FixtureField::LowX.into()),
    );
    refused_for(
        &rt,
        &mut [],
        &bytes,
        no_fixture(2, 8, FixtureField::LowX.into()),
    );
    change(&rt, &mut bytes, 1_533, 1)?;
    refused_for(&rt, &mut [OLD; 1], &bytes, wrong_byte(2, 509));
    Ok(())
}

#[test]
fn a_byte_too_few_is_refused_by_the_writer(rt: HostRuntime) -> Result<(), Fail> {
    let rows = fixtures::<14>();
    not_written(&rt, &rows, &mut [OLD_BYTE; 1_535], WriteFault::TooFewBytes)?;
    written(&rt, &rows, &mut [OLD_BYTE; 1_536], 1_536)?;
    not_written(&rt, &[], &mut [OLD_BYTE; 511], WriteFault::TooFewBytes)?;
    written(&rt, &[], &mut [OLD_BYTE; 512], 512)
}

#[test]
fn more_than_1024_rows_are_refused_by_the_writer(rt: HostRuntime) -> Result<(), Fail> {
    let rows = fixtures::<1_025>();
    not_written(&rt, &rows, &mut [OLD_BYTE; 41_472], WriteFault::TooMany)
}

// With one row less the bytes are too few.
#[test]
fn too_many_rows_come_before_too_few_bytes(rt: HostRuntime) -> Result<(), Fail> {
    let rows = fixtures::<1_025>();
    let mut bytes = [OLD_BYTE; 40_959];
    not_written(&rt, &rows, &mut bytes, WriteFault::TooMany)?;
    not_written(&rt, &rows, &mut [], WriteFault::TooMany)?;
    not_written(&rt, &rows[0..1_024], &mut bytes, WriteFault::TooFewBytes)
}
