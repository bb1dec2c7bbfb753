// The run-out: how far, how long and how fast a cart may go, through a hold at one acceleration and then under the brake to rest.
ghost use Rattle.std.specs.Prelude.{◌≡◌, ◌+◌, ◌*◌, ◌/◌, ◌^◌, ◌<◌, ◌≤◌, IfOk};
ghost use Rattle.refusals.specs.Answers.{Answers};
ghost use Rattle.runout.specs.Speeds.{RunOutOf, Small};
ghost use Rattle.runout.specs.Formulas.{evenly_spaced, stop_formula, rise_formula, fall_formula};
ghost use Rattle.runout.specs.Faults.{run_out_fault};
ghost use Rattle.runout.specs.RunOuts.{run_out_refused, Within, speeds, run_out, HoldThenBrake};

use crate::faults::RunOutFault;
use crate::run_outs::RunOut;
use plates::Plate;
use refusals::check;

// No cart is measured faster, in nm per ms.
pub const FASTEST: i64 = 10_000_000;

// The sum of count numbers, evenly spaced from first to last.
fn evenly_spaced(count: u64, first: u64, last: u64) -> u64
    requires { (count < 2 ^ 25) × ((first < 2 ^ 26) × (last < 2 ^ 26)) }
    ensures value { result ≡ evenly_spaced count first last }
    ensures small { result < 2 ^ 51 }
{
    count * (first + last) / 2
}

// A speed that falls by rate in each ms.
fn stop(speed: u64, rate: u64) -> RunOut
    requires { (speed < 2 ^ 25) × ((0 < rate) × (rate < 2 ^ 25)) }
    ensures value { result ≡ stop_formula speed rate }
    ensures small { (result.travel < 2 ^ 52) × (result.time ≤ 2 ^ 25) }
{
    let rest = speed % rate;
    RunOut {
        travel: evenly_spaced(speed / rate, rest + rate, speed) + rest,
        time: speed.div_ceil(rate) as u32,
        peak: speed,
    }
}

// A hold in which the speed changes by step in each ms, and then the brake.
#[derive(Drop)]
struct Journey {
    // the speed at first
    start: u64,
    step: u64,
    // how long the hold is, in ms
    hold: u64,
    // how much the speed falls in each ms of the brake
    braking: u64,
    ghost start_small: { start ≤ 11000000 },
    ghost step_small: { step ≤ 29950 },
    ghost hold_small: { hold ≤ 500 },
    ghost brakes: { 0 < braking },
    ghost braking_small: { braking ≤ 20000 },
}

impl Journey {
    // How much the speed changes in the hold.
    fn change(&self) -> u64
        ensures value { result ≡ self.now.hold * self.now.step }
        ensures small { result ≤ 14975000 }
    {
        self.hold * self.step
    }

    // The run-out where the speed rises in the hold, or stays.
    fn rising(&self) -> RunOut
        ensures value { result ≡ rise_formula self.now.hold self.now.step self.now.braking self.now.start }
        ensures small { Small result }
    {
        let end = self.start + self.change();
        if end == 0 {
            // nothing moves at all
            return RunOut {
                travel: 0,
                time: 0,
                peak: 0,
            };
        }
        let brake = stop(end, self.braking);
        RunOut {
            travel: evenly_spaced(self.hold, self.start + self.step, end) + brake.travel,
            time: self.hold as u32 + brake.time,
            peak: end,
        }
    }

    // The run-out where the speed falls in the hold.
    fn falling(&self) -> RunOut
        requires { 0 < self.now.step }
        ensures value { result ≡ fall_formula self.now.hold self.now.step self.now.braking self.now.start }
        ensures small { Small result }
    {
        let loss = self.change();
        if self.start <= loss {
            // at rest before the hold ends
            return stop(self.start, self.step);
        }
        let end = self.start - loss;
        let brake = stop(end, self.braking);
        RunOut {
            travel: evenly_spaced(self.hold, end + self.step, self.start) + brake.travel,
            time: self.hold as u32 + brake.time,
            peak: self.start,
        }
    }
}

// The run-out from a speed and at an acceleration that are within their limits.
fn worst(plate: &Plate, speed: i64, acceleration: i64) -> RunOut
    requires { Within plate.now speed acceleration }
    ensures value { result ≡ run_out plate.now speed acceleration }
    ensures journey { RunOutOf (speeds plate.now speed acceleration) result }
    ensures braked { HoldThenBrake plate.now speed acceleration result }
    ensures small { Small result }
{
    let start = speed as u64 + plate.speed_error();
    let change = acceleration + plate.drive_error() as i64;
    let journey = Journey {
        start,
        step: change.unsigned_abs(),
        hold: plate.hold(),
        braking: plate.brake() - plate.drive_error(),
    };
    if change < 0 {
        journey.falling()
    } else {
        journey.rising()
    }
}

// The checks of a speed and an acceleration, in their order.
fn checked(plate: &Plate, speed: i64, acceleration: i64) -> Result<(), RunOutFault>
    ensures { Answers run_out_fault (run_out_refused plate.now speed acceleration) (λ _. Within plate.now speed acceleration) result }
{
    // Tried with `contains` of a range: the proof of what the second check answers did not close, with `?` or without.
    check(0 <= speed && speed <= FASTEST, RunOutFault::Speed)?;
    let brake = plate.brake() as i64;
    let pull = plate.pull() as i64;
    check(
        -brake <= acceleration && acceleration <= pull,
        RunOutFault::Acceleration,
    )
}

// The worst journey of a cart that is measured at a speed and held at an acceleration: the hold at the worst errors, then the brake at its weakest.
// Plate, speed and acceleration stand apart, as whoever asks has them apart; the two functions above take what this one is given.
pub fn run_out(plate: &Plate, speed: i64, acceleration: i64) -> Result<RunOut, RunOutFault>
    ensures answer { Answers run_out_fault (run_out_refused plate.now speed acceleration) (λ out. out ≡ run_out plate.now speed acceleration) result }
    ensures journey { IfOk result (RunOutOf (speeds plate.now speed acceleration)) }
    ensures braked { IfOk result (HoldThenBrake plate.now speed acceleration) }
    ensures small { IfOk result Small }
{
    checked(plate, speed, acceleration)?;
    Ok(worst(plate, speed, acceleration))
}
