// The fixtures and the files that the tests begin with.
use claims::{Fixture, Span};
use floor_writer::write_floor;
use plates::{Plate, PlateFields};
use runout::SAMPLE;
use std::process::Abort;
use std::test::Fail;

pub(super) const BOX: Fixture = Fixture {
    label: 7,
    x: Span {
        low: 1_020_500_001,
        high: 1_100_000_000,
    },
    y: Span {
        low: -500_000_000,
        high: 500_000_000,
    },
};

// What stands in a table before it is read into. No file holds it, as its low edges are above its high ones.
pub(super) const OLD: Fixture = Fixture {
    label: 99,
    x: Span { low: 5, high: 4 },
    y: Span { low: 3, high: 2 },
};

// What stands in the bytes before they are written over.
pub(super) const OLD_BYTE: u8 = 0xa5;

// A fixture for each label, no two with an edge in common.
fn labelled(label: u32) -> Fixture {
    let z = i64::from(label);
    Fixture {
        label,
        x: Span {
            low: -10_000 * z,
            high: 2_000_000_000 + z,
        },
        y: Span {
            low: -3_000_000_000 - z,
            high: 70_000 * z,
        },
    }
}

// So many fixtures, with the labels from 1 on.
pub(super) fn fixtures<const N: usize>() -> [Fixture; N] {
    let mut rows = [Fixture::default(); N];
    for (row, label) in rows.iter_mut().zip(1..) {
        *row = labelled(label);
    }
    rows
}

// The file of a plate and fixtures, which has N bytes.
pub(super) fn file_of<const N: usize>(
    rt: &impl Abort,
    fields: PlateFields,
    rows: &[Fixture],
) -> Result<[u8; N], Fail> {
    let mut bytes = [0; N];
    assert_eq!(rt; write_floor(&Plate::new(fields)?, rows, &mut bytes)?, N);
    Ok(bytes)
}

// A file of each kind of block: the plate's, one of 13 fixtures, and a last one of 1.
pub(super) fn three_blocks(rt: &impl Abort) -> Result<[u8; 1_536], Fail> {
    file_of::<1_536>(rt, SAMPLE, &fixtures::<14>())
}

// The longest file, of 80 blocks and 1,024 fixtures.
pub(super) fn longest(rt: &impl Abort) -> Result<[u8; 40_960], Fail> {
    file_of::<40_960>(rt, SAMPLE, &fixtures::<1_024>())
}
