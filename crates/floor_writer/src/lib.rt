// Writes a floor file of a plate and fixtures.
#![tactic(auto)]

mod blocks;
mod faults;
mod writing;

pub use claims::{Fixture, Row, Span};
pub use faults::WriteFault;
pub use floors::{Fault, Layer};
pub use plates::{Plate, PlateFields};
pub use writing::write_floor;
