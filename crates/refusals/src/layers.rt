// The layers of the product, and the trait that every fault type implements.
ghost use Rattle.std.specs.Prelude.{◌≡◌, Some};
ghost use Rattle.refusals.specs.Refusals.{Refusal, layer_of, layer_name};

use std::fmt;

// The part of the product that a fault comes from.
#[derive(Clone, Copy, Debug, PartialEq, Eq)]
pub enum Layer {
    // a cart's plate: 11 to 19
    Plate,
    // a thing, a table of things or a horizon, a floor of too many fixtures: 21 to 29
    Thing,
    // a tick, a release or a run-out: 31 to 49
    Gate,
    // a floor file or a block of it, a table or bytes too short for one: 51 to 53, and 56
    Block,
    // a record inside a block: 54, 55, 58 and 59
    Record,
}

impl fmt::Display for Layer {
    ghost output = { λ layer. Some (layer_name layer) };

    fn fmt<W: fmt::Write>(&self, f: &mut fmt::Formatter<W>) -> fmt::Result {
        match self {
            Layer::Plate => f.write_str("plate"),
            Layer::Thing => f.write_str("thing"),
            Layer::Gate => f.write_str("gate"),
            Layer::Block => f.write_str("block"),
            Layer::Record => f.write_str("record"),
        }
    }
}

// A fault: why a call gave nothing. Each type of fault has one definition of what its cases say, and its numbers are of its layer.
pub trait Fault {
    ghost says: { Self → Refusal };

    // The layer that refused.
    fn layer(&self) -> Layer
        ensures { result ≡ (says self.now).layer };

    // The refusal's number, as the rules count refusals: for whoever reads it, as the cases tell faults apart in code.
    fn number(&self) -> u8
        ensures { result ≡ (says self.now).number };

    ghost numbered: { (fault : Self) → layer_of (says fault).number ≡ Some (says fault).layer };
}
