// 54: the nine numbers of block 0 make a plate.
use crate::tests::answers::{no_plate, read_as, refused, wrong_byte};
use crate::tests::damage::{change, change_number};
use crate::tests::samples::file_of;
use plates::{PlateFault, PlateField, PlateFields};
use runout::SAMPLE;
use std::test::Fail;

// One below the range of a field and one above it; the fault names the field.
#[test]
fn each_field_has_its_range(rt: HostRuntime) -> Result<(), Fail> {
    let good = file_of::<512>(&rt, SAMPLE, &[])?;
    for (at, field, below, above) in [
        (8, PlateField::Brake, 49, 20_001),
        (16, PlateField::Pull, -1, 10_001),
        (24, PlateField::DriveError, -1, 19_951),
        (32, PlateField::Hold, 0, 501),
        (40, PlateField::SpeedError, -1, 1_000_001),
        (48, PlateField::PlaceError, -1, 1_000_000_001),
        (56, PlateField::TopSpeed, 0, 5_000_001),
        (64, PlateField::TurnLimit, 0, 10_001),
        (72, PlateField::HalfSide, -1, 5_000_000_001),
    ] {
        for value in [below, above, i64::MIN, i64::MAX] {
            let mut bytes = good;
            change_number(&rt, &mut bytes, at, value)?;
            refused(&rt, &bytes, no_plate(PlateFault::OutOfRange(field)));
        }
    }
    Ok(())
}

// The least value of every field, and the greatest; both make plates.
#[test]
fn the_ends_of_the_ranges_are_read(rt: HostRuntime) -> Result<(), Fail> {
    let least = PlateFields::from([50, 0, 0, 1, 0, 0, 1, 1, 0]);
    let greatest = PlateFields::from([
        20_000,
        10_000,
        19_950,
        500,
        1_000_000,
        1_000_000_000,
        5_000_000,
        10_000,
        5_000_000_000,
    ]);
    read_as(&rt, &file_of::<512>(&rt, least, &[])?, least, &[])?;
    read_as(&rt, &file_of::<512>(&rt, greatest, &[])?, greatest, &[])
}

// 12 and 13, and the last value before each.
#[test]
fn braking_and_speed_error_are_checked(rt: HostRuntime) -> Result<(), Fail> {
    let mut bytes = file_of::<512>(&rt, SAMPLE, &[])?;
    change_number(&rt, &mut bytes, 24, 1_151)?;
    refused(&rt, &bytes, no_plate(PlateFault::WeakBraking));
    change_number(&rt, &mut bytes, 24, 1_150)?;
    let weak = PlateFields {
        drive_error: 1_150,
        ..SAMPLE
    };
    read_as(&rt, &bytes, weak, &[])?;
    change_number(&rt, &mut bytes, 40, 1_000_000)?;
    change_number(&rt, &mut bytes, 56, 1_000_000)?;
    refused(&rt, &bytes, no_plate(PlateFault::SpeedErrorTooLarge));
    change_number(&rt, &mut bytes, 56, 1_000_001)?;
    let slow = PlateFields {
        speed_error: 1_000_000,
        top_speed: 1_000_001,
        ..weak
    };
    read_as(&rt, &bytes, slow, &[])
}

// From the last fault of a block 0 to the first.
#[test]
fn faults_of_a_plate_come_in_their_order(rt: HostRuntime) -> Result<(), Fail> {
    let mut bytes = file_of::<512>(&rt, SAMPLE, &[])?;
    change_number(&rt, &mut bytes, 56, 10_000)?;
    refused(&rt, &bytes, no_plate(PlateFault::SpeedErrorTooLarge));
    change_number(&rt, &mut bytes, 24, 1_151)?;
    refused(&rt, &bytes, no_plate(PlateFault::WeakBraking));
    change_number(&rt, &mut bytes, 72, -1)?;
    refused(
        &rt,
        &bytes,
        no_plate(PlateFault::OutOfRange(PlateField::HalfSide)),
    );
    change_number(&rt, &mut bytes, 8, 49)?;
    refused(
        &rt,
        &bytes,
        no_plate(PlateFault::OutOfRange(PlateField::Brake)),
    );
    change(&rt, &mut bytes, 509, 1)?;
    refused(&rt, &bytes, wrong_byte(0, 509));
    Ok(())
}
