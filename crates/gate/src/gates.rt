// The gate itself. Declared apart, so that what its functions cite may name it.
use crate::parts::{Curve, State, Ticket};
use runout::Plate;

mod handling;

// A gate, never copied: its plate, the curve in force, the standing ticket, and whether it is open.
#[derive(Drop)]
pub struct Gate {
    plate: Plate,
    curve: Curve,
    ticket: Option<Ticket>,
    state: State,
}
