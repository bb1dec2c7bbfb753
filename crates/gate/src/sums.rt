// Ticks and run-outs that were worked out beforehand, for whoever wants to compare.
ghost use Rattle.std.specs.Prelude.{◌≡◌};
ghost use Rattle.std.specs.List.{AllByRecursion};
ghost use Rattle.gate.specs.WorkedTicks.{worked_ticks, RightTick};

use crate::parts::{Curve, Measurement, Order};
use runout::{EXACT, PlateFields, RunOut, SAMPLE};
use surroundings::{Fixture, Mover, Span};

// What is around the cart of a worked tick.
#[derive(Clone, Copy, Debug, PartialEq, Eq)]
pub enum Around {
    Nothing,
    Fixed(Fixture),
    Moving(Mover),
}

// A tick at a fresh gate, its run-out, and the number by which it is refused, if it is.
#[derive(Clone, Copy, Debug, PartialEq, Eq)]
pub struct WorkedTick {
    pub fields: PlateFields,
    pub measured: Measurement,
    pub proposal: Order,
    pub around: Around,
    pub out: RunOut,
    // a number, and no fault, as the rules list these ticks by it
    pub refused: Option<u8>,
}

// A row of the table.
macro_rules! row {
    (
        $fields:expr,
        $speed:expr,
        $acceleration:expr,
        $curve:expr,
        $around:expr => $travel:expr,
        $time:expr,
        $peak:expr,
        $refused:expr
    ) => {
        WorkedTick {
            fields: $fields,
            measured: Measurement { x: 0, y: 0, speed: $speed },
            proposal: Order { acceleration: $acceleration, curve: $curve },
            around: $around,
            out: RunOut { travel: $travel, time: $time, peak: $peak },
            refused: $refused,
        }
    };
}

// A fixture to the right of the cart, by its low x.
macro_rules! fixture_from {
    ($low:expr) => {
        Around::Fixed(Fixture {
            label: 7,
            x: Span { low: $low, high: 1_100_000_000 },
            y: Span { low: -500_000_000, high: 500_000_000 },
        })
    };
}

// A fixture over the cart. The gate's tests have it too, written out, as a test writes its own inputs.
const OVER: Around = Around::Fixed(Fixture {
    label: 7,
    x: Span { low: -1, high: 1 },
    y: Span { low: -1, high: 1 },
});

// A mover by its age.
macro_rules! mover_aged {
    ($age:expr) => {
        Around::Moving(Mover {
            label: 9,
            x: 2_000_000_000,
            y: 0,
            half_side: 300_000_000,
            error: 50_000_000,
            speed: 500_000,
            age: $age,
        })
    };
}

// The table of worked ticks, each of which is right.
#[tactic(auto, using(crate::proofs::WorkedTicks::ticks_right))]
pub fn worked_ticks() -> [WorkedTick; 15]
    ensures table { result ≡ worked_ticks }
    ensures right { AllByRecursion RightTick result }
{
    [
        row!(SAMPLE, 990_000, -200, Curve::Straight, Around::Nothing => 600_500_000, 1_100, 1_000_000, None),
        row!(SAMPLE, 990_000, 600, Curve::Straight, Around::Nothing => 687_780_000, 1_180, 1_080_000, None),
        row!(SAMPLE, 30_000, -1_200, Curve::Straight, Around::Nothing => 820_000, 40, 40_000, None),
        row!(SAMPLE, 30_500, -1_200, Curve::Straight, Around::Nothing => 840_500, 41, 40_500, None),
        row!(SAMPLE, 30_000, -1_000, Curve::Straight, Around::Nothing => 1_020_000, 50, 40_000, None),
        row!(SAMPLE, 990_000, -200, Curve::Straight, fixture_from!(1_020_500_001) => 600_500_000, 1_100, 1_000_000, None),
        row!(SAMPLE, 990_000, -200, Curve::Straight, fixture_from!(1_020_500_000) => 600_500_000, 1_100, 1_000_000, Some(40)),
        row!(SAMPLE, 990_000, -200, Curve::Straight, mover_aged!(158) => 600_500_000, 1_100, 1_000_000, None),
        row!(SAMPLE, 990_000, -200, Curve::Straight, mover_aged!(159) => 600_500_000, 1_100, 1_000_000, Some(40)),
        row!(SAMPLE, 1_990_000, -200, Curve::Straight, Around::Nothing => 2_201_000_000, 2_100, 2_000_000, None),
        row!(SAMPLE, 1_990_000, -199, Curve::Straight, Around::Nothing => 2_201_205_150, 2_101, 2_000_100, Some(38)),
        row!(SAMPLE, 990_000, -200, Curve::Arc(-2_000), Around::Nothing => 600_500_000, 1_100, 1_000_000, None),
        row!(SAMPLE, 990_000, -200, Curve::Arc(1_999), Around::Nothing => 600_500_000, 1_100, 1_000_000, Some(39)),
        row!(EXACT, 0, 0, Curve::Straight, OVER => 0, 0, 0, None),
        row!(EXACT, 0, 1, Curve::Straight, OVER => 5_150, 101, 100, Some(40)),
    ]
}
