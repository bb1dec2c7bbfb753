// The numbers of the format, and the kinds of a block.
ghost use Rattle.std.specs.Prelude.{◌≡◌};
ghost use Rattle.floors.specs.Kinds.{kind_number, block_kind};

// How many bytes a block has.
pub const BLOCK: usize = 512;

// How many blocks a file has at most: the plate's, and those that 1,024 fixtures take.
pub const MOST_BLOCKS: usize = 80;

// How many fixtures a file has at most.
pub const MOST: usize = 1_024;

// How many fixtures a block has at most; each block of fixtures but the last has as many.
pub const MOST_IN_BLOCK: usize = 13;

// Where the first record of a block begins: its head is the bytes before.
pub const FIRST_RECORD: usize = 8;

// How many bytes the record of a plate takes.
pub const PLATE_RECORD: usize = 72;

// How many bytes the record of a fixture takes.
pub const FIXTURE_RECORD: usize = 36;

// Where the checksum of a block begins: the word that makes the words of the block sum to a multiple of 65,536.
pub const CHECKSUM: usize = 510;

// What a block holds; its number is the first byte of the block.
#[derive(Clone, Copy, Debug, PartialEq, Eq)]
pub enum BlockKind {
    // the plate
    Plate = 1,
    // fixtures
    Fixtures,
}

impl BlockKind {
    // The kind of block `number`: block 0 is the plate's.
    pub fn of(number: usize) -> BlockKind
        ensures { result ≡ block_kind number }
    {
        if number == 0 {
            BlockKind::Plate
        } else {
            BlockKind::Fixtures
        }
    }

    // Its number in the file.
    pub fn number(self) -> u8
        ensures { result ≡ kind_number self }
    {
        self as u8
    }
}
