// One block: its head, its records, zeros, and its checksum.
ghost use Rattle.std.specs.Prelude.{◌≡◌, ◌+◌, ◌-◌, ◌*◌, ◌≤◌, map, length, take};
ghost use Rattle.std.specs.List.{flat_map};
ghost use Rattle.claims.specs.Things.{fixture_counted};
ghost use Rattle.plates.specs.Plates.{held};
ghost use Rattle.floors.specs.Bytes.{i64_bytes, sealed, written};
ghost use Rattle.floors.specs.Blocks.{head_bytes, plate_record, fixture_record};
ghost use Rattle.floors.specs.Floors.{floor_block};
ghost use Rattle.floor_writer.specs.Writing.{rows_in, records_in};

use claims::{Fixture, Row};
use floors::{
    BLOCK, BlockKind, CHECKSUM, FIRST_RECORD, FIXTURE_RECORD, MOST_IN_BLOCK, sum_of_words,
};
use plates::{Plate, PlateFields};

// Bytes, and where to write: a slice from there on would say both, but the format counts from the first byte of a block or a file, and the definitions with it.

// Writes bytes into others from `at` on.
#[tactic(auto, using(std::proofs::lemmas::Slice::overwrites, std::proofs::lemmas::Grind::common_steps))]
pub(crate) fn put(bytes: &mut [u8], at: usize, new: &[u8])
    requires { at + length new.now ≤ length bytes.old }
    ensures { bytes.new ≡ written bytes.old at new.now }
{
    bytes[at..at + new.len()].copy_from_slice(new);
}

// Writes a signed number from `at` on.
fn put_number(block: &mut [u8; BLOCK], at: usize, number: i64)
    requires { at + 8 ≤ 512 }
    ensures { block.new ≡ written block.old at (i64_bytes number) }
{
    put(block, at, &number.to_le_bytes());
}

// The head of a block: its kind, its count, two zeros, and its number.
fn head_bytes(number: usize, count: u8) -> [u8; 8]
    ensures { result ≡ head_bytes number count }
{
    let [n0, n1, n2, n3, ..] = number.to_le_bytes();
    [BlockKind::of(number).number(), count, 0, 0, n0, n1, n2, n3]
}

// Writes a fixture's record from `at` on.
fn put_fixture(block: &mut [u8; BLOCK], at: usize, fixture: &Fixture)
    requires { at + 36 ≤ 512 }
    ensures { block.new ≡ written block.old at (fixture_record fixture.now) }
{
    put(block, at, &fixture.label.to_le_bytes());
    put_number(block, at + 4, fixture.x.low);
    put_number(block, at + 12, fixture.x.high);
    put_number(block, at + 20, fixture.y.low);
    put_number(block, at + 28, fixture.y.high);
}

// Writes a row's record, as that of the fixture that it counts as, from `at` on.
fn put_row(block: &mut [u8; BLOCK], at: usize, row: &Fixture)
    requires { at + 36 ≤ 512 }
    ensures { block.new ≡ written block.old at (fixture_record (fixture_counted row.now)) }
{
    put_fixture(block, at, &row.counted());
}

// Writes the records of rows.
fn put_fixtures(block: &mut [u8; BLOCK], rows: &[Fixture])
    requires { length rows.now ≤ 13 }
    ensures { block.new ≡ written block.old 8 (flat_map fixture_record (map fixture_counted rows.now)) }
{
    for (j, row) in rows.iter().enumerate() {
        put_row(block, FIRST_RECORD + FIXTURE_RECORD * j, row);
    }
}

// Writes a plate's record.
fn put_plate(block: &mut [u8; BLOCK], fields: PlateFields)
    ensures { block.new ≡ written block.old 8 (plate_record fields) }
{
    let numbers: [i64; 9] = fields.into();
    for (k, number) in numbers.iter().enumerate() {
        put_number(block, FIRST_RECORD + 8 * k, *number);
    }
}

// Writes the checksum of the bytes before it.
fn seal(block: &mut [u8; BLOCK])
    ensures { block.new ≡ sealed (take 510 block.old) }
{
    let sum = sum_of_words(&block[0..CHECKSUM]);
    put(block, CHECKSUM, &sum.wrapping_neg().to_le_bytes());
}

// What a file holds: a plate, and rows of which each stands as the fixture that it counts as.
#[derive(Clone, Copy)]
pub(crate) struct Contents<'a> {
    pub(crate) plate: Plate,
    pub(crate) rows: &'a [Fixture],
}

impl Contents<'_> {
    // The rows of block `number`; the plate's has none.
    fn rows_in(&self, number: usize) -> &[Fixture]
        ensures { result.now ≡ rows_in self.now.rows.now number }
    {
        match BlockKind::of(number) {
            BlockKind::Plate => &[],
            BlockKind::Fixtures => {
                let from = MOST_IN_BLOCK
                    .saturating_mul(number - 1)
                    .min(self.rows.len());
                let to = (from + MOST_IN_BLOCK).min(self.rows.len());
                &self.rows[from..to]
            }
        }
    }

    // Writes the records of block `number`.
    fn put_records(&self, block: &mut [u8; BLOCK], number: usize)
        ensures { block.new ≡ written block.old 8 (records_in (held self.now.plate) (map fixture_counted self.now.rows.now) number) }
    {
        match BlockKind::of(number) {
            BlockKind::Plate => put_plate(block, self.plate.fields()),
            BlockKind::Fixtures => put_fixtures(block, self.rows_in(number)),
        }
    }

    // Block `number` of the file.
    pub(crate) fn block(&self, number: usize) -> [u8; BLOCK]
        ensures { result ≡ floor_block (held self.now.plate) (map fixture_counted self.now.rows.now) number }
    {
        let mut block = [0; BLOCK];
        put(
            &mut block,
            0,
            &head_bytes(number, self.rows_in(number).len() as u8),
        );
        self.put_records(&mut block, number);
        seal(&mut block);
        block
    }
}
