// The run-out of a cart: the worst journey that a proposal allows. What it needs of the layers below is named here too.
#![tactic(auto)]

mod faults;
mod formulas;
mod run_outs;
mod sums;

pub use faults::RunOutFault;
pub use formulas::{FASTEST, run_out};
pub use plates::{Plate, PlateFault, PlateField, PlateFields, Range};
pub use refusals::{Fault, Layer};
pub use run_outs::RunOut;
pub use sums::{EXACT, SAMPLE, WorkedSum, worked_sums};
