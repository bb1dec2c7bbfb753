// Why a thing, a table of things or a horizon is refused.
ghost use Rattle.std.specs.Prelude.{◌≡◌, Some};
ghost use Rattle.claims.specs.declared.faults.ThingFault.TheVariants.{OutOfRange};
ghost use Rattle.claims.specs.declared.fields.ThingField.TheVariants.{OfFixture, OfMover, OfSeen};
ghost use Rattle.claims.specs.Faults.{thing_fault, thing_words};
ghost use Rattle.std.proofs.Common.{rules};

use crate::fields::{FixtureField, MoverField, SeenField, ThingField};
use refusals::{Fault, Layer};
use std::fmt;

// Why a thing, a table of things or a horizon is refused.
#[derive(Clone, Copy, Debug, PartialEq, Eq)]
pub enum ThingFault {
    // the first field out of its range
    OutOfRange(ThingField),
    // a low edge is above its high edge
    LowAboveHigh,
    // more than 1,024 things
    TooMany,
}

impl From<FixtureField> for ThingFault {
    ghost from_gives = { λ field fault. fault ≡ OutOfRange (OfFixture field) };

    fn from(field: FixtureField) -> ThingFault {
        ThingFault::OutOfRange(ThingField::OfFixture(field))
    }
}

impl From<MoverField> for ThingFault {
    ghost from_gives = { λ field fault. fault ≡ OutOfRange (OfMover field) };

    fn from(field: MoverField) -> ThingFault {
        ThingFault::OutOfRange(ThingField::OfMover(field))
    }
}

impl From<SeenField> for ThingFault {
    ghost from_gives = { λ field fault. fault ≡ OutOfRange (OfSeen field) };

    fn from(field: SeenField) -> ThingFault {
        ThingFault::OutOfRange(ThingField::OfSeen(field))
    }
}

impl Fault for ThingFault {
    ghost says = { thing_fault };

    ghost numbered = { Prim.search rules };

    fn layer(&self) -> Layer {
        Layer::Thing
    }

    fn number(&self) -> u8 {
        match self {
            ThingFault::OutOfRange(_) => 21,
            ThingFault::LowAboveHigh => 22,
            ThingFault::TooMany => 23,
        }
    }
}

impl fmt::Display for ThingFault {
    ghost output = { λ fault. Some (thing_words fault) };

    fn fmt<W: fmt::Write>(&self, f: &mut fmt::Formatter<W>) -> fmt::Result {
        match self {
            ThingFault::OutOfRange(field) => {
                let number = field.number();
                write!(f, "field {number} is out of its range")
            }
            ThingFault::LowAboveHigh => f.write_str("a low edge is above its high edge"),
            ThingFault::TooMany => f.write_str("there are more than 1024 things"),
        }
    }
}
