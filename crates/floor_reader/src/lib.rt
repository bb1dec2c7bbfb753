// Reads a floor file: its plate, and its fixtures into a table.
#![tactic(auto)]

mod blocks;
mod bytes;
mod reading;
mod records;

pub use claims::{Fixture, FixtureField, Row, Span, ThingField};
pub use floors::{BlockFault, Fault, Layer, Place, PlateFault, RecordFault, ThingFault};
pub use plates::Plate;
pub use reading::{Floor, read_floor};
