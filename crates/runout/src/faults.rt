// Why there is no run-out.
ghost use Rattle.std.specs.Prelude.{Some};
ghost use Rattle.runout.specs.Faults.{run_out_fault, run_out_words};
ghost use Rattle.std.proofs.Common.{rules};

use refusals::{Fault, Layer};
use std::fmt;

// Why no run-out was given.
#[derive(Clone, Copy, Debug, PartialEq, Eq)]
pub enum RunOutFault {
    // the measured speed is below 0 or above 10,000,000
    Speed,
    // the acceleration is below −brake or above pull
    Acceleration,
}

impl Fault for RunOutFault {
    ghost says = { run_out_fault };

    ghost numbered = { Prim.search rules };

    fn layer(&self) -> Layer {
        Layer::Gate
    }

    fn number(&self) -> u8 {
        match self {
            RunOutFault::Speed => 32,
            RunOutFault::Acceleration => 33,
        }
    }
}

impl fmt::Display for RunOutFault {
    ghost output = { λ fault. Some (run_out_words fault) };

    fn fmt<W: fmt::Write>(&self, f: &mut fmt::Formatter<W>) -> fmt::Result {
        match self {
            RunOutFault::Speed => {
                f.write_str("field 3, the measured speed, is not from 0 to 10000000")
            }
            RunOutFault::Acceleration => {
                f.write_str("the acceleration is not from -brake to pull")
            }
        }
    }
}
