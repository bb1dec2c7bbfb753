// Why a tick or a release is refused.
ghost use Rattle.std.specs.Prelude.{◌≡◌, Some};
ghost use Rattle.gate.specs.Faults.{tick_fault, tick_words, release_fault, release_words};
ghost use Rattle.gate.specs.Checks.{of_run_out};
ghost use Rattle.std.proofs.Common.{rules};

use crate::parts::MeasurementField;
use runout::{Fault, Layer, RunOutFault};
use std::fmt;
use surroundings::Claim;

// Why a tick is refused.
#[derive(Clone, Copy, Debug, PartialEq, Eq)]
pub enum TickFault {
    // the gate is tripped
    Tripped,
    // the first field of the measurement out of its range
    Measured(MeasurementField),
    // the acceleration is below −brake or above pull
    Acceleration,
    // the radius is 0, or its size is above 1,000,000
    Radius,
    // the peak is above the top speed
    TopSpeed,
    // on an arc, the peak is above turn limit × the radius's size
    TurnLimit,
    // the first claim that blocks the reach
    Blocked(Claim),
}

impl Fault for TickFault {
    ghost says = { tick_fault };

    ghost numbered = { Prim.search rules };

    fn layer(&self) -> Layer {
        Layer::Gate
    }

    fn number(&self) -> u8 {
        match self {
            TickFault::Tripped => 31,
            TickFault::Measured(_) => 32,
            TickFault::Acceleration => 33,
            TickFault::Radius => 34,
            TickFault::TopSpeed => 38,
            TickFault::TurnLimit => 39,
            TickFault::Blocked(_) => 40,
        }
    }
}

impl fmt::Display for TickFault {
    ghost output = { λ fault. Some (tick_words fault) };

    fn fmt<W: fmt::Write>(&self, f: &mut fmt::Formatter<W>) -> fmt::Result {
        match self {
            TickFault::Tripped => f.write_str("the gate is tripped"),
            TickFault::Measured(field) => {
                let number = field.number();
                write!(f, "field {number} is out of its range")
            }
            TickFault::Acceleration => {
                f.write_str("the acceleration is not from -brake to pull")
            }
            TickFault::Radius => f.write_str("the radius is 0 or too large"),
            TickFault::TopSpeed => f.write_str("the peak is above the top speed"),
            TickFault::TurnLimit => f.write_str("the peak is too high for the arc"),
            TickFault::Blocked(claim) => {
                let label = claim.label;
                write!(f, "blocked by {label}")
            }
        }
    }
}

// What turns the run-out down is a fault of the tick, of the same number and words; the run-out has its own, as it is asked alone too.
impl From<RunOutFault> for TickFault {
    ghost from_gives = { λ fault tick. tick ≡ of_run_out fault };

    fn from(fault: RunOutFault) -> TickFault {
        match fault {
            RunOutFault::Speed => TickFault::Measured(MeasurementField::Speed),
            RunOutFault::Acceleration => TickFault::Acceleration,
        }
    }
}

// Why a release is refused. It shares one case with a tick, whose words and number stand in both: a fault of the measurement inside both would be one more match for whoever reads them.
#[derive(Clone, Copy, Debug, PartialEq, Eq)]
pub enum ReleaseFault {
    // the gate is not tripped
    NotTripped,
    // the first field of the measurement out of its range
    Measured(MeasurementField),
    // the speed is above the speed error
    Moving,
}

impl Fault for ReleaseFault {
    ghost says = { release_fault };

    ghost numbered = { Prim.search rules };

    fn layer(&self) -> Layer {
        Layer::Gate
    }

    fn number(&self) -> u8 {
        match self {
            ReleaseFault::NotTripped => 41,
            ReleaseFault::Measured(_) => 32,
            ReleaseFault::Moving => 42,
        }
    }
}

impl fmt::Display for ReleaseFault {
    ghost output = { λ fault. Some (release_words fault) };

    fn fmt<W: fmt::Write>(&self, f: &mut fmt::Formatter<W>) -> fmt::Result {
        match self {
            ReleaseFault::NotTripped => f.write_str("the gate is not tripped"),
            ReleaseFault::Measured(field) => {
                let number = field.number();
                write!(f, "field {number} is out of its range")
            }
            ReleaseFault::Moving => f.write_str("the speed is above the speed error"),
        }
    }
}
