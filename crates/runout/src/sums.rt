// Run-outs that were worked out beforehand, for whoever wants to compare.
ghost use Rattle.std.specs.Prelude.{◌≡◌};
ghost use Rattle.std.specs.List.{AllByRecursion};
ghost use Rattle.runout.specs.WorkedSums.{worked_sums, Right};

use crate::run_outs::RunOut;
use plates::PlateFields;

// The numbers of a plate, a measured speed and an acceleration, and the run-out that they give.
#[derive(Clone, Copy, Debug, PartialEq, Eq)]
pub struct WorkedSum {
    pub fields: PlateFields,
    pub speed: i64,
    pub acceleration: i64,
    pub out: RunOut,
}

// A sample plate, of which most worked sums are.
pub const SAMPLE: PlateFields = PlateFields {
    brake: 1_200,
    pull: 800,
    drive_error: 200,
    hold: 100,
    speed_error: 10_000,
    place_error: 20_000_000,
    top_speed: 2_000_000,
    turn_limit: 500,
    half_side: 400_000_000,
};

// The sample plate without drive error and speed error.
pub const EXACT: PlateFields = PlateFields {
    drive_error: 0,
    speed_error: 0,
    ..SAMPLE
};

// A row of the table.
macro_rules! row {
    ($fields:expr, $speed:expr, $acceleration:expr => $travel:expr, $time:expr, $peak:expr) => {
        WorkedSum {
            fields: $fields,
            speed: $speed,
            acceleration: $acceleration,
            out: RunOut {
                travel: $travel,
                time: $time,
                peak: $peak,
            },
        }
    };
}

// The table of worked sums, each of which is right.
#[tactic(auto, using(crate::proofs::WorkedSums::sums_right))]
pub fn worked_sums() -> [WorkedSum; 7]
    ensures table { result ≡ worked_sums }
    ensures right { AllByRecursion Right result }
{
    [
        row!(SAMPLE, 990_000, -200 => 600_500_000, 1_100, 1_000_000),
        row!(SAMPLE, 990_000, 600 => 687_780_000, 1_180, 1_080_000),
        row!(SAMPLE, 30_000, -1_200 => 820_000, 40, 40_000),
        row!(SAMPLE, 30_500, -1_200 => 840_500, 41, 40_500),
        row!(SAMPLE, 30_000, -1_000 => 1_020_000, 50, 40_000),
        row!(EXACT, 0, 0 => 0, 0, 0),
        row!(EXACT, 0, 1 => 5_150, 101, 100),
    ]
}
