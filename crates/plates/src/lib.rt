// The plate of a cart: nine numbers, each in its range, that say what the cart can do.
#![tactic(auto)]

mod faults;
mod fields;
mod plates;

pub use faults::PlateFault;
pub use fields::{PlateField, PlateFields, Range};
pub use plates::Plate;
