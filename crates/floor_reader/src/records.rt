// The records of a block: a plate's, or those of fixtures.
ghost use Rattle.std.specs.Prelude.{◌≡◌, ◌+◌, ◌<◌, ◌≤◌, length, slice_index};
ghost use Rattle.refusals.specs.Answers.{Answers};
ghost use Rattle.plates.specs.Plates.{held};
ghost use Rattle.floors.specs.Faults.{record_fault, block_fault};
ghost use Rattle.floors.specs.Blocks.{numbers_at, fixture_at, plate_at, place, row_refused, plate_refused_at, block_refused};

use crate::blocks::Block;
use crate::bytes::{array_at, i64_at};
use claims::{Fixture, Row, Span};
use floors::{BlockFault, FIRST_RECORD, FIXTURE_RECORD, RecordFault};
use plates::{Plate, PlateFields};

// The row of the fixture's record that begins at a byte: its label, and four edges of 8 bytes each. The writer puts them at the same places; a name for each place would be a constant that two lines read.
#[tactic(auto, unfolding(floors::specs::Blocks::fixture_at))]
pub(crate) fn fixture_row(bytes: &[u8], byte: usize) -> Fixture
    requires { byte + 36 ≤ length bytes.now }
    ensures { result ≡ fixture_at bytes.now byte }
{
    Fixture {
        label: u32::from_le_bytes(array_at(bytes, byte)),
        x: Span {
            low: i64_at(bytes, byte + 4),
            high: i64_at(bytes, byte + 12),
        },
        y: Span {
            low: i64_at(bytes, byte + 20),
            high: i64_at(bytes, byte + 28),
        },
    }
}

// The numbers of the plate's record that begins at a byte.
fn plate_numbers(bytes: &[u8], byte: usize) -> [i64; 9]
    requires { byte + 72 ≤ length bytes.now }
    ensures { result ≡ numbers_at bytes.now byte }
{
    std::array::from_fn(|k| i64_at(bytes, byte + 8 * k))
}

impl Block<'_> {
    // The plate of the block's first record.
    fn plate_record(&self) -> Result<Plate, RecordFault>
        ensures { Answers record_fault (plate_refused_at (place self.now.number 8) self.now.bytes.now) (λ p. held p ≡ plate_at self.now.bytes.now 8) result }
    {
        let bytes = self.bytes;
        let fields = PlateFields::from(plate_numbers(bytes, FIRST_RECORD));
        let place = self.place(FIRST_RECORD);
        let plate = Plate::new(fields).map_err(|fault| (place, fault))?;
        Ok(plate)
    }

    // Whether a fixture can be made of record j.
    #[tactic(auto, unfolding(floors::specs::Blocks::row_refused))]
    fn fixture_record(&self, j: usize) -> Result<(), RecordFault>
        requires { j < 13 }
        ensures { Answers record_fault (row_refused self.now.number self.now.bytes.now j) (λ _. Unit {0}) result }
    {
        let byte = FIRST_RECORD + FIXTURE_RECORD * j;
        let place = self.place(byte);
        let bytes = self.bytes;
        let row = fixture_row(bytes, byte);
        row.checked().map_err(|fault| (place, fault))?;
        Ok(())
    }

    // The plate of block 0.
    #[tactic(auto, unfolding(floors::specs::Blocks::block_refused))]
    pub(crate) fn plate(&self) -> Result<Plate, BlockFault>
        requires { self.now.number ≡ 0 }
        ensures { Answers block_fault (block_refused self.now.total 0 self.now.bytes.now) (λ p. held p ≡ plate_at self.now.bytes.now 8) result }
    {
        self.check_frame()?;
        let plate = self.plate_record()?;
        Ok(plate)
    }

    // How many fixtures a block of fixtures holds, each of which can be made.
    #[tactic(auto, using(crate::proofs::ReadLaws::counting), unfolding(floors::specs::Blocks::block_refused))]
    pub(crate) fn count(&self) -> Result<usize, BlockFault>
        requires { 0 < self.now.number }
        ensures { Answers block_fault (block_refused self.now.total self.now.number self.now.bytes.now) (λ count. (count ≡ slice_index self.now.bytes.now 1) × (count ≤ 13)) result }
    {
        self.check_frame()?;
        let count = usize::from(self.bytes[1]);
        // A range, as the number of a record gives its place, which its fault names, and its bytes.
        for j in 0..count {
            self.fixture_record(j)?;
        }
        Ok(count)
    }
}
