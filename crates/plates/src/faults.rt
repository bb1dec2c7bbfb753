// Why there is no plate.
ghost use Rattle.std.specs.Prelude.{Some};
ghost use Rattle.plates.specs.Faults.{plate_fault, plate_words};
ghost use Rattle.std.proofs.Common.{rules};

use crate::fields::{PlateField, Range};
use refusals::{Fault, Layer};
use std::fmt;

// Why no plate was made.
#[derive(Clone, Copy, Debug, PartialEq, Eq)]
pub enum PlateFault {
    // the first field out of its range
    OutOfRange(PlateField),
    // the real braking, brake less drive error, is below 50
    WeakBraking,
    // the speed error is not below the top speed
    SpeedErrorTooLarge,
}

impl Fault for PlateFault {
    ghost says = { plate_fault };

    ghost numbered = { Prim.search rules };

    fn layer(&self) -> Layer {
        Layer::Plate
    }

    fn number(&self) -> u8 {
        match self {
            PlateFault::OutOfRange(_) => 11,
            PlateFault::WeakBraking => 12,
            PlateFault::SpeedErrorTooLarge => 13,
        }
    }
}

impl fmt::Display for PlateFault {
    ghost output = { λ fault. Some (plate_words fault) };

    fn fmt<W: fmt::Write>(&self, f: &mut fmt::Formatter<W>) -> fmt::Result {
        match self {
            PlateFault::OutOfRange(field) => {
                let number = field.number();
                let Range { low, high } = field.range();
                write!(f, "field {number}, {field}, is not from {low} to {high}")
            }
            PlateFault::WeakBraking => f.write_str("brake less drive error is below 50"),
            PlateFault::SpeedErrorTooLarge => {
                f.write_str("the speed error is not below the top speed")
            }
        }
    }
}
