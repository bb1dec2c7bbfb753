// Why no floor file is written.
ghost use Rattle.std.specs.Prelude.{Some};
ghost use Rattle.floor_writer.specs.Writing.{write_fault, write_words};
ghost use Rattle.std.proofs.Common.{rules};

use refusals::{Fault, Layer};
use std::fmt;

// Why no floor file is written.
#[derive(Clone, Copy, Debug, PartialEq, Eq)]
pub enum WriteFault {
    // more than 1,024 fixtures
    TooMany,
    // the bytes handed in are fewer than the file
    TooFewBytes,
}

impl Fault for WriteFault {
    ghost says = { write_fault };

    ghost numbered = { Prim.search rules };

    fn layer(&self) -> Layer {
        match self {
            WriteFault::TooMany => Layer::Thing,
            WriteFault::TooFewBytes => Layer::Block,
        }
    }

    fn number(&self) -> u8 {
        match self {
            WriteFault::TooMany => 23,
            WriteFault::TooFewBytes => 56,
        }
    }
}

impl fmt::Display for WriteFault {
    ghost output = { λ fault. Some (write_words fault) };

    fn fmt<W: fmt::Write>(&self, f: &mut fmt::Formatter<W>) -> fmt::Result {
        match self {
            WriteFault::TooMany => f.write_str("there are more than 1024 fixtures"),
            WriteFault::TooFewBytes => f.write_str("there are fewer bytes than the file has"),
        }
    }
}
