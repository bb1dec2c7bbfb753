// The whole file, block by block.
ghost use Rattle.std.specs.Prelude.{◌≡◌, ◌≤◌, map, length, take, IfOk};
ghost use Rattle.std.specs.List.{AllByRecursion};
ghost use Rattle.refusals.specs.Answers.{Answers};
ghost use Rattle.claims.specs.Things.{fixture_counted};
ghost use Rattle.plates.specs.Plates.{held};
ghost use Rattle.floors.specs.Floors.{blocks_for};
ghost use Rattle.floors.specs.Exactness.{Reads, ReadWasWritten};
ghost use Rattle.floor_writer.specs.Writing.{write_fault, file_length, write_refused, file_of, over, bytes_after, Labelled, WrittenExactly};

use crate::blocks::{Contents, put};
use crate::faults::WriteFault;
use claims::Fixture;
use floors::{BLOCK, MOST, MOST_IN_BLOCK};
use plates::Plate;
use refusals::check;

// How many blocks the file of so many fixtures has.
fn blocks_for(count: usize) -> usize
    ensures { result ≡ blocks_for count }
{
    1 + count.div_ceil(MOST_IN_BLOCK)
}

// What the law of writing needs: that every label is of 32 bits, as its type has it, and that whatever is read could have been written. Of a slice of rows a proof learns what the type says only where the code reads each row; of this loop nothing is left in the compiled code.
fn law(rows: &[Fixture])
    ensures labels { AllByRecursion Labelled rows.now }
    ensures only { ReadWasWritten }
{
    for row in rows {
        prove!(row.label <= u32::MAX);
    }
}

impl Contents<'_> {
    // Writes every block, and answers the length of the file.
    fn write(&self, out: &mut [u8]) -> usize
        requires few { length self.now.rows.now ≤ 1024 }
        requires labels { AllByRecursion Labelled self.now.rows.now }
        requires room { file_length (length self.now.rows.now) ≤ length out.old }
        ensures long { result ≡ length (file_of self.now.plate self.now.rows.now) }
        ensures bytes { out.new ≡ over (file_of self.now.plate self.now.rows.now) out.old }
        ensures read_again { Reads (take result out.new) (held self.now.plate) (map fixture_counted self.now.rows.now) }
    {
        let count = blocks_for(self.rows.len());
        // By number: the library's contracts of `as_chunks_mut` and `chunks_exact_mut` do not say what the bytes are afterwards.
        for number in 0..count {
            put(out, BLOCK * number, &self.block(number));
        }
        BLOCK * count
    }
}

// Writes the floor file of a plate and fixtures into the first bytes, and answers its length. A row that is no fixture is written as the fixture whose every field is 0. The other bytes, and after a refusal all, are as they were.
// The bytes are handed in, and the length is answered beside them, as nothing here takes memory while it runs.
pub fn write_floor(plate: &Plate, rows: &[Fixture], out: &mut [u8]) -> Result<usize, WriteFault>
    ensures answer { Answers write_fault (write_refused (length rows.now) (length out.old)) (λ n. n ≡ length (file_of plate.now rows.now)) result }
    ensures bytes { out.new ≡ bytes_after result (file_of plate.now rows.now) out.old }
    ensures room { IfOk result (λ n. n ≤ length out.old) }
    ensures exact { WrittenExactly plate.now rows.now result out.new }
{
    law(rows);
    check(rows.len() <= MOST, WriteFault::TooMany)?;
    check(
        BLOCK * blocks_for(rows.len()) <= out.len(),
        WriteFault::TooFewBytes,
    )?;
    let plate = *plate;
    Ok(Contents { plate, rows }.write(out))
}
