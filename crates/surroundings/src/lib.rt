// What is around a cart: kinds of thing, and surroundings as lists of claims with one question.
#![tactic(auto)]

mod asking;
mod horizons;
mod kinds;
mod pairs;
mod rosters;

pub use asking::{Surroundings, ask};
pub use claims::{
    Claim, Fault, Fixture, FixtureField, Layer, Mover, MoverField, Reach, Row, Seen, SeenField,
    Span, ThingFault, ThingField,
};
pub use horizons::Horizon;
pub use kinds::Kind;
pub use pairs::Pair;
pub use rosters::Roster;
