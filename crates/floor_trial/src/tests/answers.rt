// What the reader and the writer answer.
use crate::tests::samples::{OLD, OLD_BYTE};
use claims::{Fixture, ThingFault};
use floor_reader::read_floor;
use floor_writer::{WriteFault, write_floor};
use floors::{BlockFault, Place, RecordFault};
use plates::{Plate, PlateFault, PlateFields};
use runout::SAMPLE;
use std::process::Abort;
use std::test::Fail;

pub(super) fn wrong_sum(block: usize) -> BlockFault {
    BlockFault::WrongSum(Place { block, byte: 510 })
}

pub(super) fn wrong_byte(block: usize, byte: usize) -> BlockFault {
    BlockFault::WrongByte(Place { block, byte })
}

pub(super) fn no_plate(fault: PlateFault) -> BlockFault {
    let place = Place { block: 0, byte: 8 };
    BlockFault::InRecord(RecordFault::NoPlate(place, fault))
}

pub(super) fn no_fixture(block: usize, byte: usize, fault: ThingFault) -> BlockFault {
    BlockFault::InRecord(RecordFault::NoFixture(Place { block, byte }, fault))
}

// The first rows of a table are these, and the others are old.
fn table_holds(rt: &impl Abort, table: &[Fixture], rows: &[Fixture]) {
    assert!(rt; rows.len() <= table.len());
    let (first, others) = table.split_at(rows.len());
    assert_eq!(rt; first, rows);
    for row in others {
        assert_eq!(rt; *row, OLD);
    }
}

// A file is refused for a table of old rows, and leaves them.
pub(super) fn refused_for(rt: &impl Abort, table: &mut [Fixture], bytes: &[u8], fault: BlockFault) {
    assert_eq!(rt; read_floor(bytes, table).err(), Some(fault));
    table_holds(rt, table, &[]);
}

// A file is refused for a table with a row for every fixture that a file can have.
pub(super) fn refused(rt: &impl Abort, bytes: &[u8], fault: BlockFault) {
    refused_for(rt, &mut [OLD; 1_024], bytes, fault);
}

// A file is read, into a table of old rows, as a plate and fixtures, and leaves the rows past them.
pub(super) fn read_into(
    rt: &impl Abort,
    table: &mut [Fixture],
    bytes: &[u8],
    fields: PlateFields,
    rows: &[Fixture],
) -> Result<(), Fail> {
    let floor = read_floor(bytes, table)?;
    assert_eq!(rt; floor.plate.fields(), fields);
    assert_eq!(rt; floor.count, rows.len());
    table_holds(rt, table, rows);
    Ok(())
}

// A file is read, into a table with room for one more than a file can have.
pub(super) fn read_as(
    rt: &impl Abort,
    bytes: &[u8],
    fields: PlateFields,
    rows: &[Fixture],
) -> Result<(), Fail> {
    read_into(rt, &mut [OLD; 1_025], bytes, fields, rows)
}

// Some bytes stand in others, from this place on.
pub(super) fn holds(rt: &impl Abort, bytes: &[u8], at: usize, wanted: &[u8]) {
    assert_eq!(rt;
        bytes.get(at..at.saturating_add(wanted.len())),
        Some(wanted)
    );
}

// Every byte is old.
pub(super) fn all_old(rt: &impl Abort, bytes: &[u8]) {
    for byte in bytes {
        assert_eq!(rt; *byte, OLD_BYTE);
    }
}

// The file of the sample plate and fixtures is written, and has this length.
pub(super) fn written(
    rt: &impl Abort,
    rows: &[Fixture],
    bytes: &mut [u8],
    length: usize,
) -> Result<(), Fail> {
    assert_eq!(rt; write_floor(&Plate::new(SAMPLE)?, rows, bytes)?, length);
    Ok(())
}

// The file of the sample plate and fixtures is not written; the bytes, which are old, stay.
pub(super) fn not_written(
    rt: &impl Abort,
    rows: &[Fixture],
    bytes: &mut [u8],
    fault: WriteFault,
) -> Result<(), Fail> {
    assert_eq!(rt; write_floor(&Plate::new(SAMPLE)?, rows, bytes), Err(fault));
    all_old(rt, bytes);
    Ok(())
}
