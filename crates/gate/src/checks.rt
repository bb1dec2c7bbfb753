// The checks of a tick, in their order.
ghost use Rattle.std.specs.Prelude.{◌≡◌, ◌-ℤ◌, ◌+ℤ◌, ◌^◌, ◌<◌, pos, true, None};
ghost use Rattle.std.specs.Result.{result_err};
ghost use Rattle.refusals.specs.Answers.{Answers};
ghost use Rattle.gate.specs.Faults.{tick_fault, field_number};
ghost use Rattle.gate.specs.Checks.{placed, bad_field, radius_allowed, turn_allowed, reach_from, blocked, run_out_checked, open_refused, ticket_of};
ghost use Rattle.gate.specs.Gates.{meant};

use crate::faults::TickFault;
use crate::parts::{Curve, Measurement, MeasurementField, Tick, Ticket};
use refusals::check;
use runout::{FASTEST, Plate, RunOut, run_out};
use surroundings::{Reach, Span, Surroundings};

// The farthest that a cart may be measured from 0 on an axis.
const FAR: i64 = 1_000_000_000_000;

impl MeasurementField {
    // Its place in a measurement, from 1.
    pub fn number(self) -> u8
        ensures { result ≡ field_number self }
    {
        self as u8
    }
}

// Whether a coordinate is within ±FAR. Things have the same test, at twice the distance: a function over both would take the distance, and say no more than `contains`.
fn placed(z: i64) -> bool
    ensures { result ≡ placed z }
{
    (-FAR..=FAR).contains(&z)
}

impl Measurement {
    // Nothing, or the first field out of its range.
    pub(crate) fn checked(self) -> Result<(), MeasurementField>
        ensures { result_err result ≡ bad_field self }
    {
        check(placed(self.x), MeasurementField::X)?;
        check(placed(self.y), MeasurementField::Y)?;
        check((0..=FASTEST).contains(&self.speed), MeasurementField::Speed)
    }
}

impl Curve {
    // Whether a radius is neither 0 nor larger than 1,000,000 in size.
    fn radius_allowed(self) -> bool
        ensures { result ≡ radius_allowed self }
    {
        match self {
            Curve::Straight => true,
            Curve::Arc(radius) => (1..=1_000_000).contains(&radius.unsigned_abs()),
        }
    }

    // Whether a peak is within turn limit × the radius's size. A product that is too large for 64 bits is above every peak.
    fn turn_allowed(self, plate: &Plate, peak: u64) -> bool
        ensures { result ≡ turn_allowed plate.now self peak }
    {
        match self {
            Curve::Straight => true,
            Curve::Arc(radius) => {
                peak <= plate.turn_limit().saturating_mul(radius.unsigned_abs())
            }
        }
    }
}

// The places within a distance of a measured one. It stands apart from the spans around a place in `claims`, as each asks that nothing overflows, and no public call has a `requires`; one that stopped at the ends of 64 bits would have those ends in its contract, and each caller would take them out again.
fn span_around(z: i64, distance: u64) -> Span
    requires { (placed z ≡ true) × (distance < 2 ^ 62) }
    ensures { result ≡ record { low = z -ℤ pos distance; high = z +ℤ pos distance } }
{
    let distance = distance as i64;
    Span {
        low: z - distance,
        high: z + distance,
    }
}

impl<S: Surroundings> Tick<'_, S> {
    // Where the cart may come, and for how long.
    #[tactic(auto, unfolding(crate::specs::Checks::reach_from))]
    fn reach(&self, plate: &Plate, out: RunOut) -> Reach
        requires { (bad_field self.now.measured ≡ None) × (out.travel < 2 ^ 53) }
        ensures { result ≡ reach_from plate.now self.now.measured out }
    {
        let side = plate.half_side() + plate.place_error() + out.travel;
        Reach {
            x: span_around(self.measured.x, side),
            y: span_around(self.measured.y, side),
            time: out.time,
        }
    }

    // Nothing, or the first claim that blocks a reach of at least 1 ms.
    #[inline(always)]
    #[tactic(auto, unfolding(crate::specs::Checks::blocked))]
    fn unblocked(&self, reach: &Reach) -> Result<(), TickFault>
        ensures { Answers tick_fault (blocked (S.Surroundings.claims self.now.around.now) reach.now) (λ _. Unit {0}) result }
    {
        // A question, whose answer is the claim of the fault: no check of a test.
        if reach.time > 0
            && let Some(claim) = self.around.first_blocking(reach)
        {
            return Err(TickFault::Blocked(claim));
        }
        Ok(())
    }

    // The checks of an open gate, in their order: a ticket, or the first fault.
    #[inline(always)]
    #[tactic(auto, unfolding(crate::specs::Checks::open_refused, crate::specs::Checks::run_out_checked))]
    pub(crate) fn checked(&self, plate: &Plate) -> Result<Ticket, TickFault>
        ensures { Answers tick_fault (open_refused plate.now (meant S.Surroundings.claims self.now)) (λ ticket. ticket ≡ ticket_of plate.now (meant S.Surroundings.claims self.now)) result }
    {
        self.measured.checked().map_err(TickFault::Measured)?;
        let out = run_out(plate, self.measured.speed, self.proposal.acceleration)?;
        check(self.proposal.curve.radius_allowed(), TickFault::Radius)?;
        check(out.peak <= plate.top_speed(), TickFault::TopSpeed)?;
        check(
            self.proposal.curve.turn_allowed(plate, out.peak),
            TickFault::TurnLimit,
        )?;
        let reach = self.reach(plate, out);
        self.unblocked(&reach)?;
        Ok(Ticket {
            acceleration: self.proposal.acceleration,
            reach,
        })
    }
}
