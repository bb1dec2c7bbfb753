// The whole file: first every block is checked, then the table is written.
ghost use Rattle.std.specs.Prelude.{◌≡◌, ◌+◌, ◌-◌, ◌*◌, ◌/◌, ◌^◌, ◌<◌, ◌≤◌, map, length, IfOk};
ghost use Rattle.std.specs.List.{range_with_len};
ghost use Rattle.refusals.specs.Answers.{Answers};
ghost use Rattle.floors.specs.Faults.{block_fault};
ghost use Rattle.floors.specs.Floors.{floor_refused, row_in, row_offset, read_refused};
ghost use Rattle.floor_reader.specs.Reading.{Holds, Written, table_after, ReadExactly};

use crate::blocks::Block;
use crate::records::fixture_row;
use claims::Fixture;
use floors::{BLOCK, BlockFault, FIRST_RECORD, FIXTURE_RECORD, MOST_BLOCKS, MOST_IN_BLOCK};
use plates::Plate;
use refusals::check;

// What was read of a floor: its plate, and how many fixtures are now in the table.
#[derive(Clone, Copy, Debug, PartialEq, Eq)]
pub struct Floor {
    pub plate: Plate,
    pub count: usize,
}

// Checks every block, and answers the plate and how many fixtures there are.
fn check_floor(bytes: &[u8]) -> Result<Floor, BlockFault>
    ensures { Answers block_fault (floor_refused bytes.now) (λ floor. Holds bytes.now floor × Written bytes.now) result }
{
    let (blocks, rest) = bytes.as_chunks::<BLOCK>();
    // the first block is taken here, and a file of none has the wrong length
    let [first, others @ ..] = blocks else {
        return Err(BlockFault::WrongLength);
    };
    check(blocks.len() <= MOST_BLOCKS, BlockFault::WrongLength)?;
    check(rest.is_empty(), BlockFault::WrongLength)?;
    let first = Block {
        bytes: first,
        number: 0,
        total: blocks.len(),
    };
    let plate = first.plate()?;
    let mut count = 0;
    for (before, other) in others.iter().enumerate() {
        let block = Block {
            bytes: other,
            number: before + 1,
            total: blocks.len(),
        };
        count = MOST_IN_BLOCK * before + block.count()?;
    }
    Ok(Floor { plate, count })
}

// Where the record of fixture `k` begins.
fn row_offset(k: usize) -> usize
    requires { k < 2 ^ 32 }
    ensures { result ≡ row_offset k }
{
    BLOCK + FIRST_RECORD + BLOCK * (k / MOST_IN_BLOCK) + FIXTURE_RECORD * (k % MOST_IN_BLOCK)
}

// Writes the first fixtures of checked bytes into rows, one into each.
fn fill(bytes: &[u8], rows: &mut [Fixture])
    requires few { length rows.old ≤ 1024 }
    requires there { length rows.old ≤ 13 * (length bytes.now / 512 - 1) }
    ensures { rows.new ≡ map (row_in bytes.now) (range_with_len 0 (length rows.old)) }
{
    for (k, row) in rows.iter_mut().enumerate() {
        *row = fixture_row(bytes, row_offset(k));
    }
}

// Reads a floor file into the first rows of a table, and answers its plate and how many fixtures it has. The other rows, and after a refusal all, are as they were.
// The table is handed in, and the count is answered beside it, as nothing here takes memory while it runs.
#[tactic(auto, unfolding(floors::specs::Floors::fixtures_in))]
pub fn read_floor(bytes: &[u8], table: &mut [Fixture]) -> Result<Floor, BlockFault>
    ensures answer { Answers block_fault (read_refused bytes.now (length table.old)) (Holds bytes.now) result }
    ensures table { table.new ≡ table_after result bytes.now table.old }
    ensures room { IfOk result (λ floor. floor.count ≤ length table.old) }
    ensures exact { ReadExactly bytes.now table.old result table.new }
{
    let floor = check_floor(bytes)?;
    check(floor.count <= table.len(), BlockFault::TableTooShort)?;
    fill(bytes, &mut table[..floor.count]);
    Ok(floor)
}
