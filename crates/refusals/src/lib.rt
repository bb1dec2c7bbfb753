// What every fault of the product says: the layer that refused, the refusal's number, and the values that go with it.
#![tactic(auto)]

mod checking;
mod layers;
mod texts;

pub use checking::check;
pub use layers::{Fault, Layer};
pub use texts::Refused;
