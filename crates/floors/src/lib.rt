// The floor file: blocks of 512 bytes that hold the plate of a cart and the fixtures of a site. Here are its numbers and kinds of block, its faults and its sum, and in specs/ its format; the reader and the writer are crates above.
#![tactic(auto)]

mod faults;
mod layout;
mod sums;

pub use claims::{FixtureField, ThingFault, ThingField};
pub use faults::{BlockFault, Place, RecordFault};
pub use layout::{
    BLOCK, BlockKind, CHECKSUM, FIRST_RECORD, FIXTURE_RECORD, MOST, MOST_BLOCKS, MOST_IN_BLOCK,
    PLATE_RECORD,
};
pub use plates::PlateFault;
pub use refusals::{Fault, Layer};
pub use sums::sum_of_words;
