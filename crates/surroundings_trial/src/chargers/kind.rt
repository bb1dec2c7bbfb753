// Charging points as a kind of thing.
ghost use Rattle.std.specs.Prelude.{◌≡◌, true, false, ◌&&◌, MatchOption};
ghost use Rattle.claims.specs.Things.{near, around};
ghost use Rattle.surroundings_trial.specs.Chargers.{charger_claim, charger_sound, charger_slow};

use crate::chargers::Charger;
use surroundings::{Claim, Kind, Span};

// The farthest that a charging point may stand from 0 on an axis.
const FAR: i64 = 2_000_000_000_000;

// Half the side of a charging point.
const HALF: i64 = 300_000_000;

// Whether a coordinate of a charging point is within ±FAR.
// The test of things, at the same distance: theirs is private to `claims`, and a client writes its own.
fn near(z: i64) -> bool
    ensures { result ≡ near z }
{
    (-FAR..=FAR).contains(&z)
}

// What a charging point covers on an axis.
// Apart from the other spans around a place, as each asks that nothing overflows, and no public call has a `requires`.
fn around(z: i64) -> Span
    requires { near z ≡ true }
    ensures { result ≡ around z 300000000 }
{
    Span {
        low: z - HALF,
        high: z + HALF,
    }
}

impl Charger {
    // A charging point within ±2×10^12 on both axes.
    pub fn new(label: u32, x: i64, y: i64) -> Option<Charger>
        ensures { MatchOption result ((near x && near y) ≡ false) (λ c. (c.label ≡ label) × (c.x ≡ x) × (c.y ≡ y)) }
    {
        if near(x) && near(y) {
            Some(Charger { label, x, y })
        } else {
            None
        }
    }
}

impl Kind for Charger {
    const GREATEST_SPEED: u32 = 0;

    ghost GREATEST_SPEED = { 0 };

    ghost claim = { charger_claim };

    ghost sound = { charger_sound };

    ghost slow = { charger_slow };

    fn claim(&self) -> Claim {
        Claim {
            label: self.label,
            x: around(self.x),
            y: around(self.y),
            speed: 0,
        }
    }
}
