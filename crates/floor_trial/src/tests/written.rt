// What is written, byte by byte.
use crate::tests::answers::{holds, read_as, written};
use crate::tests::samples::{BOX, OLD, file_of, fixtures, three_blocks};
use claims::{Fixture, Span};
use floors::sum_of_words;
use runout::SAMPLE;
use std::test::Fail;

// The heads, the nine fields and the four edges of the sample floor: where each stands, and its bytes.
const EIGHTS: [(usize, [u8; 8]); 15] = [
    // block 0: its head, and from brake to half side
    (0, [0x01, 0, 0, 0, 0, 0, 0, 0]),
    (8, [0xb0, 0x04, 0, 0, 0, 0, 0, 0]),
    (16, [0x20, 0x03, 0, 0, 0, 0, 0, 0]),
    (24, [0xc8, 0, 0, 0, 0, 0, 0, 0]),
    (32, [0x64, 0, 0, 0, 0, 0, 0, 0]),
    (40, [0x10, 0x27, 0, 0, 0, 0, 0, 0]),
    (48, [0x00, 0x2d, 0x31, 0x01, 0, 0, 0, 0]),
    (56, [0x80, 0x84, 0x1e, 0, 0, 0, 0, 0]),
    (64, [0xf4, 0x01, 0, 0, 0, 0, 0, 0]),
    (72, [0x00, 0x84, 0xd7, 0x17, 0, 0, 0, 0]),
    // block 1: its head, and from low x to high y
    (512, [0x02, 0x01, 0, 0, 0x01, 0, 0, 0]),
    (524, [0x21, 0x98, 0xd3, 0x3c, 0, 0, 0, 0]),
    (532, [0x00, 0xab, 0x90, 0x41, 0, 0, 0, 0]),
    (540, [0x00, 0x9b, 0x32, 0xe2, 0xff, 0xff, 0xff, 0xff]),
    (548, [0x00, 0x65, 0xcd, 0x1d, 0, 0, 0, 0]),
];

// All 1,024 bytes: heads, records, zeros and checksums.
#[test]
fn the_sample_floor_has_these_bytes(rt: HostRuntime) -> Result<(), Fail> {
    let bytes = file_of::<1_024>(&rt, SAMPLE, &[BOX])?;
    for (at, wanted) in EIGHTS {
        holds(&rt, &bytes, at, &wanted);
    }
    holds(&rt, &bytes, 520, &[0x07, 0, 0, 0]);
    holds(&rt, &bytes, 80, &[0; 430]);
    holds(&rt, &bytes, 510, &[0x59, 0x7f]);
    holds(&rt, &bytes, 556, &[0; 466]);
    holds(&rt, &bytes, 1_022, &[0x75, 0x3d]);
    Ok(())
}

#[test]
fn the_sample_floor_is_read_back(rt: HostRuntime) -> Result<(), Fail> {
    let bytes = file_of::<1_024>(&rt, SAMPLE, &[BOX])?;
    assert_eq!(rt; sum_of_words(&bytes[0..512]), 0);
    assert_eq!(rt; sum_of_words(&bytes[512..1_024]), 0);
    read_as(&rt, &bytes, SAMPLE, &[BOX])
}

// Three blocks of fixtures, of 13, 13 and 1; a record begins with its label.
#[test]
fn heads_and_records_stand_in_their_places(rt: HostRuntime) -> Result<(), Fail> {
    let bytes = file_of::<2_048>(&rt, SAMPLE, &fixtures::<27>())?;
    for (at, number, count) in [(512, 1, 13), (1_024, 2, 13), (1_536, 3, 1)] {
        holds(&rt, &bytes, at, &[2, count, 0, 0, number, 0, 0, 0]);
    }
    for (at, label) in [
        (520, 1u32),
        (556, 2),
        (952, 13),
        (1_032, 14),
        (1_464, 26),
        (1_544, 27),
    ] {
        holds(&rt, &bytes, at, &label.to_le_bytes());
    }
    Ok(())
}

// The file over bytes that are not 0 is the file over zeros, and what is past it stays.
#[test]
fn every_byte_of_the_file_is_written_and_no_other(rt: HostRuntime) -> Result<(), Fail> {
    let clean = three_blocks(&rt)?;
    for old in [0x01, 0xa5, 0xff] {
        let mut bytes = [old; 2_048];
        written(&rt, &fixtures::<14>(), &mut bytes, 1_536)?;
        holds(&rt, &bytes, 0, &clean);
        holds(&rt, &bytes, 1_536, &[old; 512]);
    }
    Ok(())
}

// Edges in the wrong order, and an edge that is too far; the rows between them stand.
#[test]
fn a_row_that_is_no_fixture_is_written_as_zeros(rt: HostRuntime) -> Result<(), Fail> {
    let far = Fixture {
        y: Span {
            low: 0,
            high: 2_000_000_000_001,
        },
        ..BOX
    };
    let rows = [BOX, OLD, BOX, far, far, BOX];
    let bytes = file_of::<1_024>(&rt, SAMPLE, &rows)?;
    holds(&rt, &bytes, 512, &[2, 6, 0, 0, 1, 0, 0, 0]);
    for at in [556, 628, 664] {
        holds(&rt, &bytes, at, &[0; 36]);
    }
    let zero = Fixture::default();
    read_as(&rt, &bytes, SAMPLE, &[BOX, zero, BOX, zero, zero, BOX])
}
