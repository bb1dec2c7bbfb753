// The stop gate: it passes a planner's proposal on to the drive exactly when its checks pass, and else brakes.
#![tactic(auto)]

mod checks;
mod faults;
mod gates;
mod parts;
mod sums;

pub use faults::{ReleaseFault, TickFault};
pub use gates::Gate;
pub use parts::{Curve, Measurement, MeasurementField, Order, State, TickRefusal, Ticket};
pub use sums::{Around, WorkedTick, worked_ticks};
