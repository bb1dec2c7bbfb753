// What is seen, from its five numbers, and the four strips around it.
ghost use Rattle.std.specs.Prelude.{◌≡◌, true};
ghost use Rattle.refusals.specs.Answers.{Answers};
ghost use Rattle.claims.specs.Faults.{thing_fault};
ghost use Rattle.claims.specs.Things.{near};
ghost use Rattle.claims.specs.Horizons.{seen_refused, before, past, strip, strips};

use crate::boxes::{Claim, FASTEST, Span};
use crate::faults::ThingFault;
use crate::fields::SeenField;
use crate::fixtures::{near, ordered};
use crate::horizons::Seen;
use refusals::check;

// The farthest that an edge of a claim may lie from 0.
const END: i64 = 4_000_000_000_000;

// From end to end of where a claim may lie.
const EVERYWHERE: Span = Span {
    low: -END,
    high: END,
};

// Two functions, and not one: one of both would take the two ends, which is the span itself.

// All that lies before a span.
fn before(span: &Span) -> Span
    requires { near span.now.low ≡ true }
    ensures { result ≡ before span.now }
{
    Span {
        low: -END,
        high: span.low - 1,
    }
}

// All that lies past a span.
fn past(span: &Span) -> Span
    requires { near span.now.high ≡ true }
    ensures { result ≡ past span.now }
{
    Span {
        low: span.high + 1,
        high: END,
    }
}

// A strip of the unseen.
fn strip(x: Span, y: Span, speed: u32) -> Claim
    ensures { result ≡ strip x y speed }
{
    Claim {
        // the label of the unseen, by the rules (docs/SURROUNDINGS.md)
        label: u32::MAX,
        x,
        y,
        speed,
    }
}

impl Seen {
    // The rectangle that is seen and the speed for unseen things, or why they are refused.
    // The four edges have the checks of a fixture, under other names: one function of both would take the four names, and a call of it would be as long as the checks.
    pub fn new(x: Span, y: Span, speed: u32) -> Result<Seen, ThingFault>
        ensures { Answers thing_fault (seen_refused x y speed) (λ seen. (seen.x ≡ x) × (seen.y ≡ y) × (seen.speed ≡ speed)) result }
    {
        check(near(x.low), SeenField::LowX)?;
        check(near(x.high), SeenField::HighX)?;
        check(near(y.low), SeenField::LowY)?;
        check(near(y.high), SeenField::HighY)?;
        check(speed <= FASTEST, SeenField::Speed)?;
        check(ordered(&x, &y), ThingFault::LowAboveHigh)?;
        Ok(Seen { x, y, speed })
    }

    // What may be outside: left, right, under and over.
    pub fn strips(&self) -> [Claim; 4]
        ensures { result ≡ strips self.now.x self.now.y self.now.speed }
    {
        let speed = self.speed;
        [
            strip(before(&self.x), EVERYWHERE, speed),
            strip(past(&self.x), EVERYWHERE, speed),
            strip(EVERYWHERE, before(&self.y), speed),
            strip(EVERYWHERE, past(&self.y), speed),
        ]
    }
}
