// A client of the surroundings: a kind of its own, surroundings of its own, what holds of any kind, and a horizon over a pair of rosters.
#![tactic(auto)]

mod barriers;
mod chargers;
mod speeds;
mod whole;

pub use barriers::Barrier;
pub use chargers::Charger;
pub use speeds::spare_speed;
pub use whole::first_around;

#[cfg(test)]
mod tests;
