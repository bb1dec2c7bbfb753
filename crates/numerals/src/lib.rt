// Whole numbers as text, in decimal, and text as whole numbers.
#![tactic(auto)]

ghost use Rattle.std.specs.Prelude.{Some};
ghost use Rattle.std.specs.Fmt.{signed_decimal};

mod reading;
#[cfg(test)]
mod tests;

pub use reading::numbers;
use std::fmt;

// A whole number, as it is written: `-` if it is below 0, and then its digits with no zero before them. Every number of 64 bits fits, signed or not.
#[derive(Clone, Copy, Debug, PartialEq, Eq)]
pub struct Numeral(pub i128);

impl fmt::Display for Numeral {
    ghost output = { λ numeral. Some (signed_decimal numeral.0) };

    fn fmt<W: fmt::Write>(&self, f: &mut fmt::Formatter<W>) -> fmt::Result {
        let number = self.0;
        write!(f, "{number}")
    }
}
