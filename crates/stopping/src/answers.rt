// What is written of a run-out or a refusal.
ghost use Rattle.std.specs.Prelude.{◌≡◌, Some};
ghost use Rattle.refusals.specs.Answers.{Answers};
ghost use Rattle.runout.specs.Faults.{run_out_fault};
ghost use Rattle.runout.specs.RunOuts.{run_out_refused, run_out};
ghost use Rattle.stopping.specs.Texts.{answer_text};

use refusals::Refused;
use runout::{Plate, RunOut, RunOutFault, run_out};
use std::fmt;

// What came of a speed and an acceleration.
#[derive(Drop)]
pub struct Answer {
    pub speed: i64,
    pub acceleration: i64,
    pub outcome: Result<RunOut, RunOutFault>,
}

impl fmt::Display for Answer {
    ghost output = { λ answer. Some (answer_text answer.speed answer.acceleration answer.outcome) };

    fn fmt<W: fmt::Write>(&self, f: &mut fmt::Formatter<W>) -> fmt::Result {
        let speed = self.speed;
        let acceleration = self.acceleration;
        match self.outcome {
            Ok(RunOut { travel, time, peak }) => {
                write!(
                    f,
                    "{speed} {acceleration}: travel {travel} time {time} peak {peak}"
                )
            }
            Err(fault) => write!(f, "{speed} {acceleration}: {}", Refused(fault)),
        }
    }
}

// The run-out of a speed and an acceleration, or its refusal.
pub fn ask(plate: &Plate, speed: i64, acceleration: i64) -> Answer
    ensures asked { (result.speed ≡ speed) × (result.acceleration ≡ acceleration) }
    ensures outcome { Answers run_out_fault (run_out_refused plate.now speed acceleration) (λ out. out ≡ run_out plate.now speed acceleration) result.outcome }
{
    Answer {
        speed,
        acceleration,
        outcome: run_out(plate, speed, acceleration),
    }
}
