// How a refusal is written.
ghost use Rattle.std.specs.Option.{option_map};
ghost use Rattle.refusals.specs.Refusals.{refusal_text};

use crate::layers::Fault;
use std::fmt;

// A fault, as a refusal is written: its number, its layer and its words.
#[derive(Clone, Copy, Debug, PartialEq, Eq)]
pub struct Refused<F>(pub F);

impl<F: Fault + fmt::Display> fmt::Display for Refused<F> {
    ghost output = { λ refused. option_map (refusal_text (F.Fault.says refused.0)) (F.Display.output refused.0) };

    fn fmt<W: fmt::Write>(&self, f: &mut fmt::Formatter<W>) -> fmt::Result {
        let number = self.0.number();
        let layer = self.0.layer();
        let words = &self.0;
        write!(f, "refused {number} ({layer}): {words}")
    }
}
