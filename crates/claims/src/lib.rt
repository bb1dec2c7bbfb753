// What a thing claims: a box in which it is and a speed at which it leaves it; and the two kinds of thing.
#![tactic(auto)]

mod boxes;
mod faults;
mod fields;
mod fixtures;
mod horizons;
mod movers;
mod rows;

pub use boxes::{Claim, Reach, Span};
pub use faults::ThingFault;
pub use fields::{FixtureField, MoverField, SeenField, ThingField};
pub use fixtures::Fixture;
pub use horizons::Seen;
pub use movers::Mover;
pub use refusals::{Fault, Layer};
pub use rows::Row;
