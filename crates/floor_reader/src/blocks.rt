// One block: its sum, its head, and its unused bytes.
ghost use Rattle.std.specs.Prelude.{◌≡◌, ◌<◌, ◌≤◌, length, take, drop, cond, not, Some, None, slice_index, slice_range, ◌==◌};
ghost use Rattle.std.specs.List.{position};
ghost use Rattle.std.specs.Option.{option_map};
ghost use Rattle.refusals.specs.Answers.{Answers};
ghost use Rattle.floors.specs.declared.faults.BlockFault.TheVariants.{WrongByte};
ghost use Rattle.floors.specs.Bytes.{departs};
ghost use Rattle.floors.specs.Faults.{block_fault};
ghost use Rattle.floors.specs.Blocks.{head_bytes, nearest_count, used_bytes, place, sum_refused, byte_refused, frame_refused};

use floors::{
    BLOCK, BlockFault, BlockKind, CHECKSUM, FIRST_RECORD, FIXTURE_RECORD, MOST, MOST_IN_BLOCK,
    PLATE_RECORD, Place, sum_of_words,
};
use refusals::check;

// A block of a file: its bytes, its number, and how many blocks the file has in total. A proof does not know the length of an array behind a field, so `whole` says it.
#[derive(Clone, Copy)]
pub(crate) struct Block<'a> {
    pub(crate) bytes: &'a [u8; BLOCK],
    pub(crate) number: usize,
    pub(crate) total: usize,
    ghost whole: { length bytes.now ≡ 512 },
    ghost inside: { number < total },
    ghost few: { total ≤ 80 },
}

// Where the first byte that is not 0 stands past a block's `used` bytes of records, counted from there; `rest` is the block past its head.
fn wrong_in_rest(rest: &[u8], used: usize) -> Option<usize>
    requires { (length rest.now ≡ 504) × (used ≤ 468) }
    ensures { result ≡ position (λ byte. not (byte == 0)) (slice_range rest.now used 502) }
{
    let unused = &rest[used..CHECKSUM - FIRST_RECORD];
    unused.iter().position(|byte| *byte != 0)
}

impl Block<'_> {
    // A byte of the block.
    pub(crate) fn place(&self, byte: usize) -> Place
        ensures { result ≡ place self.now.number byte }
    {
        Place {
            block: self.number,
            byte,
        }
    }

    // The count that the block may have which is nearest to the one found.
    fn nearest_count(&self, found: u8) -> u8
        ensures { result ≡ nearest_count self.now.total self.now.number found }
    {
        match BlockKind::of(self.number) {
            BlockKind::Plate => 0,
            BlockKind::Fixtures => {
                let last = self.number + 1 == self.total;
                let least = if last { 1 } else { MOST_IN_BLOCK as u8 };
                let most = (MOST - MOST_IN_BLOCK * (self.number - 1)).min(MOST_IN_BLOCK) as u8;
                found.clamp(least, most)
            }
        }
    }

    // How many bytes its records take.
    fn used_bytes(&self, count: u8) -> usize
        ensures { result ≡ used_bytes self.now.number count }
    {
        match BlockKind::of(self.number) {
            BlockKind::Plate => PLATE_RECORD,
            BlockKind::Fixtures => FIXTURE_RECORD * usize::from(count),
        }
    }

    // Whether a byte is the one that it must be.
    fn check_byte(&self, byte: usize, found: u8, wanted: u8) -> Result<(), BlockFault>
        ensures { Answers block_fault (cond (wanted == found) None (Some (block_fault (WrongByte (place self.now.number byte))))) (λ _. Unit {0}) result }
    {
        check(found == wanted, BlockFault::WrongByte(self.place(byte)))
    }

    // Takes the head apart, if all of it is right: gives its count, and the block past the head.
    fn split_head(&self) -> Result<(u8, &[u8]), BlockFault>
        ensures { let head = head_bytes self.now.number (nearest_count self.now.total self.now.number (slice_index self.now.bytes.now 1)) in Answers block_fault (option_map (λ k. block_fault (WrongByte (place self.now.number k))) (departs 0 head (take 8 self.now.bytes.now))) (λ p. (p.0 ≡ nearest_count self.now.total self.now.number (slice_index self.now.bytes.now 1)) × (p.1.now ≡ drop 8 self.now.bytes.now)) result }
    {
        let bytes = self.bytes;
        // Of the slice, and not of the array, where the borrow check does not cover `rest @ ..`; so it has an `else`, which cannot come, as a block has 512 bytes.
        let [kind, count, zero2, zero3, n0, n1, n2, n3, rest @ ..] = bytes.as_slice() else {
            unreachable!()
        };
        let [w0, w1, w2, w3] = (self.number as u32).to_le_bytes();
        self.check_byte(0, *kind, BlockKind::of(self.number).number())?;
        self.check_byte(1, *count, self.nearest_count(*count))?;
        self.check_byte(2, *zero2, 0)?;
        self.check_byte(3, *zero3, 0)?;
        self.check_byte(4, *n0, w0)?;
        self.check_byte(5, *n1, w1)?;
        self.check_byte(6, *n2, w2)?;
        self.check_byte(7, *n3, w3)?;
        Ok((*count, rest))
    }

    // Whether the words of the block sum to a multiple of 65,536.
    fn check_sum(&self) -> Result<(), BlockFault>
        ensures { Answers block_fault (sum_refused self.now.number self.now.bytes.now) (λ _. Unit {0}) result }
    {
        let bytes = self.bytes;
        check(
            sum_of_words(bytes) == 0,
            BlockFault::WrongSum(self.place(CHECKSUM)),
        )
    }

    // Whether every byte of the head is right, and every unused byte 0.
    #[tactic(auto, using(floors::proofs::Departing::wrong_head))]
    fn check_bytes(&self) -> Result<(), BlockFault>
        ensures { Answers block_fault (byte_refused self.now.total self.now.number self.now.bytes.now) (λ _. Unit {0}) result }
    {
        let (count, rest) = self.split_head()?;
        let used = self.used_bytes(count);
        // A search, and what it finds is the place of the fault: no check of a test.
        match wrong_in_rest(rest, used) {
            Some(at) => {
                let place = self.place(FIRST_RECORD + used + at);
                Err(BlockFault::WrongByte(place))
            }
            None => Ok(()),
        }
    }

    // Why the block is refused but for its records.
    #[tactic(auto, unfolding(floors::specs::Blocks::frame_refused))]
    pub(crate) fn check_frame(&self) -> Result<(), BlockFault>
        ensures { Answers block_fault (frame_refused self.now.total self.now.number self.now.bytes.now) (λ _. Unit {0}) result }
    {
        self.check_sum()?;
        self.check_bytes()
    }
}
