// 52: the words of a block sum to a multiple of 65,536; and which of two faults is named.
use crate::tests::answers::{no_fixture, no_plate, refused, wrong_byte, wrong_sum};
use crate::tests::damage::{change, change_number, flip, seal};
use crate::tests::samples::{longest, three_blocks};
use claims::FixtureField;
use plates::{PlateFault, PlateField};
use std::test::Fail;

// Any byte, of a head, a record, the unused ones and the checksum, in every block.
#[test]
fn a_changed_byte_is_a_wrong_sum_of_its_block(rt: HostRuntime) -> Result<(), Fail> {
    let good = three_blocks(&rt)?;
    // over the bytes, which are what is changed
    for at in 0..1_536usize {
        let mut bytes = good;
        flip(&mut bytes, at)?;
        refused(&rt, &bytes, wrong_sum(at / 512));
    }
    Ok(())
}

#[test]
fn the_sum_of_block_79_is_checked(rt: HostRuntime) -> Result<(), Fail> {
    let mut bytes = longest(&rt)?;
    flip(&mut bytes, 40_959)?;
    refused(&rt, &bytes, wrong_sum(79));
    Ok(())
}

// The same wrong byte of a head, before and after its block is sealed.
#[test]
fn a_wrong_sum_comes_before_a_wrong_byte(rt: HostRuntime) -> Result<(), Fail> {
    let mut bytes = three_blocks(&rt)?;
    flip(&mut bytes, 512)?;
    refused(&rt, &bytes, wrong_sum(1));
    seal(&rt, &mut bytes, 1);
    refused(&rt, &bytes, wrong_byte(1, 0));
    Ok(())
}

// A wrong sum of block 1, and then of block 2, is behind each fault of the block before it.
#[test]
fn all_of_a_block_is_checked_before_the_next(rt: HostRuntime) -> Result<(), Fail> {
    let mut bytes = three_blocks(&rt)?;
    flip(&mut bytes, 512)?;
    let mut weak = bytes;
    change_number(&rt, &mut weak, 8, 49)?;
    refused(
        &rt,
        &weak,
        no_plate(PlateFault::OutOfRange(PlateField::Brake)),
    );
    change(&rt, &mut weak, 509, 1)?;
    refused(&rt, &weak, wrong_byte(0, 509));
    bytes = three_blocks(&rt)?;
    flip(&mut bytes, 1_024)?;
    change_number(&rt, &mut bytes, 956, i64::MAX)?;
    refused(&rt, &bytes, no_fixture(1, 440, FixtureField::LowX.into()));
    change(&rt, &mut bytes, 512, 1)?;
    refused(&rt, &bytes, wrong_byte(1, 0));
    Ok(())
}
