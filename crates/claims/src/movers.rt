// Movers: things that were seen some time ago and may move.
ghost use Rattle.std.specs.Prelude.{◌≡◌, ◌≤◌, pos, neg_ℤ, ◌≤ℤ◌};
ghost use Rattle.std.proofs.Common.{rules, refl};
ghost use Rattle.claims.specs.Things.{zero_mover, mover_refused, MoverRanged, half_box, around, mover_claim};

use crate::boxes::{Claim, FASTEST, Span};
use crate::faults::ThingFault;
use crate::fields::MoverField;
use crate::fixtures::near;
use crate::rows::Row;
use refusals::check;

// The largest half side and the largest error of a mover.
const LARGEST: u64 = 10_000_000_000;

// A mover: a row of a table, whatever its fields hold.
#[derive(Clone, Copy, Debug, Default, PartialEq, Eq)]
pub struct Mover {
    pub label: u32,
    // the centre as it was seen
    pub x: i64,
    pub y: i64,
    pub half_side: u64,
    // how far the centre may be from the truth on each axis
    pub error: u64,
    pub speed: u32,
    // how long ago it was seen
    pub age: u32,
}

impl Row for Mover {
    ghost refused = { mover_refused };

    ghost zero = { zero_mover };

    ghost zero_is_default = { Prim.search rules };

    ghost zero_allowed = { refl };

    fn checked(self) -> Result<Mover, ThingFault> {
        check(near(self.x), MoverField::X)?;
        check(near(self.y), MoverField::Y)?;
        check(self.half_side <= LARGEST, MoverField::HalfSide)?;
        check(self.error <= LARGEST, MoverField::Error)?;
        check(self.speed <= FASTEST, MoverField::Speed)?;
        check(self.age <= 1_000, MoverField::Age)?;
        Ok(self)
    }
}

// What a row claims: its centre by half side, error and what it may have moved since, at its speed.
impl From<Mover> for Claim {
    ghost from_gives = { λ mover claim. claim ≡ mover_claim mover };

    fn from(mover: Mover) -> Claim {
        let mover = mover.counted();
        let half = half_box(&mover);
        Claim {
            label: mover.label,
            x: around(mover.x, half),
            y: around(mover.y, half),
            speed: mover.speed,
        }
    }
}

// How far the box of a mover reaches from its centre.
fn half_box(mover: &Mover) -> u64
    requires { MoverRanged mover.now }
    ensures value { result ≡ half_box mover.now }
    ensures small { result ≤ 40000000000 }
{
    mover.half_side + mover.error + mover.speed as u64 * mover.age as u64
}

// All that lies within n of z. Apart from the other spans around a place, as each asks that nothing overflows, and no public call has a `requires`.
fn around(z: i64, n: u64) -> Span
    requires { (neg_ℤ (pos 2000000000000) ≤ℤ z) × ((z ≤ℤ pos 2000000000000) × (n ≤ 40000000000)) }
    ensures { result ≡ around z n }
{
    Span {
        low: z - n as i64,
        high: z + n as i64,
    }
}
