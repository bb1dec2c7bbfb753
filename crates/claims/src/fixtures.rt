// Fixtures: things that stay where they are.
ghost use Rattle.std.specs.Prelude.{◌≡◌, ◌&&◌};
ghost use Rattle.std.proofs.Common.{rules, refl};
ghost use Rattle.claims.specs.Things.{near, ordered, zero_fixture, fixture_refused, fixture_claim};

use crate::boxes::{Claim, Span};
use crate::faults::ThingFault;
use crate::fields::FixtureField;
use crate::rows::Row;
use refusals::check;

// The farthest that a thing may stand from 0 on an axis.
const FAR: i64 = 2_000_000_000_000;

// Whether a coordinate of a thing is within ±FAR.
pub(crate) fn near(z: i64) -> bool
    ensures { result ≡ near z }
{
    (-FAR..=FAR).contains(&z)
}

// Whether low is at most high, of both spans of a box.
pub(crate) fn ordered(x: &Span, y: &Span) -> bool
    ensures { result ≡ (ordered x.now && ordered y.now) }
{
    x.low <= x.high && y.low <= y.high
}

// A fixture: a row of a table, whatever its fields hold.
#[derive(Clone, Copy, Debug, Default, PartialEq, Eq)]
pub struct Fixture {
    pub label: u32,
    pub x: Span,
    pub y: Span,
}

impl Row for Fixture {
    ghost refused = { fixture_refused };

    ghost zero = { zero_fixture };

    ghost zero_is_default = { Prim.search rules };

    ghost zero_allowed = { refl };

    fn checked(self) -> Result<Fixture, ThingFault> {
        check(near(self.x.low), FixtureField::LowX)?;
        check(near(self.x.high), FixtureField::HighX)?;
        check(near(self.y.low), FixtureField::LowY)?;
        check(near(self.y.high), FixtureField::HighY)?;
        check(ordered(&self.x, &self.y), ThingFault::LowAboveHigh)?;
        Ok(self)
    }
}

// What a row claims: its box, at speed 0.
impl From<Fixture> for Claim {
    ghost from_gives = { λ fixture claim. claim ≡ fixture_claim fixture };

    fn from(fixture: Fixture) -> Claim {
        let Fixture { label, x, y } = fixture.counted();
        Claim {
            label,
            x,
            y,
            speed: 0,
        }
    }
}
