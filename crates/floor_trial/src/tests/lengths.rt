// 51: a file is 1 to 80 whole blocks.
use crate::tests::answers::{read_as, refused};
use crate::tests::samples::{fixtures, longest};
use floors::BlockFault;
use runout::SAMPLE;
use std::process::Abort;
use std::test::Fail;

// The longest file and a block of zeros past it.
fn longer(rt: &impl Abort) -> Result<[u8; 41_472], Fail> {
    let mut bytes = [0; 41_472];
    bytes[0..40_960].copy_from_slice(&longest(rt)?);
    Ok(bytes)
}

#[test]
fn other_lengths_than_of_1_to_80_blocks_are_refused(rt: HostRuntime) -> Result<(), Fail> {
    let bytes = longer(&rt)?;
    for length in [0, 1, 511, 513, 1_023, 40_959, 40_961, 41_472] {
        refused(
            &rt,
            bytes.get(0..length).ok_or("too few bytes")?,
            BlockFault::WrongLength,
        );
    }
    Ok(())
}

// The first block of any floor is a floor with no fixtures.
#[test]
fn one_block_and_80_blocks_are_read(rt: HostRuntime) -> Result<(), Fail> {
    let bytes = longer(&rt)?;
    read_as(&rt, &bytes[0..512], SAMPLE, &[])?;
    read_as(&rt, &bytes[0..40_960], SAMPLE, &fixtures::<1_024>())
}
