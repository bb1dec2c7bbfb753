// What each fault says: its layer and number, the place that it is about, and the number of the fault inside or 0.
use crate::tests::answers::{no_fixture, no_plate, wrong_byte, wrong_sum};
use claims::{FixtureField, ThingFault, ThingField};
use floor_writer::WriteFault;
use floors::{BlockFault, Fault, Layer, Place};
use plates::{PlateFault, PlateField};
use std::test::Fail;

#[test]
fn a_fault_of_a_block_says_its_number_and_place(rt: HostRuntime) -> Result<(), Fail> {
    for (fault, number, place) in [
        (BlockFault::WrongLength, 51, Some((0, 0))),
        (wrong_sum(0), 52, Some((0, 510))),
        (wrong_sum(79), 52, Some((79, 510))),
        (wrong_byte(1, 476), 53, Some((1, 476))),
        (BlockFault::TableTooShort, 56, None),
    ] {
        assert_eq!(rt; fault.layer(), Layer::Block);
        assert_eq!(rt; fault.number(), number);
        assert_eq!(rt;
            fault.place(),
            place.map(|(block, byte)| Place { block, byte })
        );
        assert_eq!(rt; fault.inner(), 0);
    }
    Ok(())
}

#[test]
fn a_fault_of_a_record_says_its_number_place_and_inner_number(rt: HostRuntime) -> Result<(), Fail> {
    let brake = PlateFault::OutOfRange(PlateField::Brake);
    let low_x = ThingFault::from(FixtureField::LowX);
    for (fault, number, block, byte, inner) in [
        (no_plate(brake), 54, 0, 8, 11),
        (no_plate(PlateFault::WeakBraking), 54, 0, 8, 12),
        (no_plate(PlateFault::SpeedErrorTooLarge), 54, 0, 8, 13),
        (no_fixture(1, 440, low_x), 55, 1, 440, 21),
        (no_fixture(2, 8, ThingFault::LowAboveHigh), 55, 2, 8, 22),
    ] {
        assert_eq!(rt; fault.layer(), Layer::Record);
        assert_eq!(rt; fault.number(), number);
        assert_eq!(rt; fault.place(), Some(Place { block, byte }));
        assert_eq!(rt; fault.inner(), inner);
    }
    Ok(())
}

// In the order of the file.
#[test]
fn a_field_says_its_number(rt: HostRuntime) -> Result<(), Fail> {
    for (field, number) in [
        (PlateField::Brake, 1),
        (PlateField::Pull, 2),
        (PlateField::DriveError, 3),
        (PlateField::Hold, 4),
        (PlateField::SpeedError, 5),
        (PlateField::PlaceError, 6),
        (PlateField::TopSpeed, 7),
        (PlateField::TurnLimit, 8),
        (PlateField::HalfSide, 9),
    ] {
        assert_eq!(rt; field.number(), number);
    }
    for (field, number) in [
        (FixtureField::LowX, 2),
        (FixtureField::HighX, 3),
        (FixtureField::LowY, 4),
        (FixtureField::HighY, 5),
    ] {
        assert_eq!(rt; ThingField::OfFixture(field).number(), number);
    }
    Ok(())
}

#[test]
fn a_fault_of_the_writer_says_its_number(rt: HostRuntime) -> Result<(), Fail> {
    for (fault, layer, number) in [
        (WriteFault::TooMany, Layer::Thing, 23),
        (WriteFault::TooFewBytes, Layer::Block, 56),
    ] {
        assert_eq!(rt; fault.layer(), layer);
        assert_eq!(rt; fault.number(), number);
    }
    Ok(())
}
