// The lines that are written of a floor.
ghost use Rattle.std.specs.Prelude.{Some};
ghost use Rattle.plates.specs.Plates.{held};
ghost use Rattle.roll_call.specs.Lines.{blanked, plate_line, fixture_line, count_line, fault_line};

use floor_reader::{BlockFault, Fault, Fixture, Place, Plate};
use numerals::Numeral;
use std::fmt;

// Numbers, each after a blank.
#[derive(Clone, Copy, Debug, PartialEq, Eq)]
struct Blanked<const N: usize>([i64; N]);

impl<const N: usize> fmt::Display for Blanked<N> {
    ghost output = { λ numbers. Some (blanked numbers.0) };

    fn fmt<W: fmt::Write>(&self, f: &mut fmt::Formatter<W>) -> fmt::Result {
        for number in self.0 {
            let number = Numeral(i128::from(number));
            write!(f, " {number}")?;
        }
        Ok(())
    }
}

// The line of a plate.
#[derive(Clone, Copy, Debug, PartialEq, Eq)]
pub struct PlateLine(pub Plate);

impl fmt::Display for PlateLine {
    ghost output = { λ line. Some (plate_line (held line.0)) };

    fn fmt<W: fmt::Write>(&self, f: &mut fmt::Formatter<W>) -> fmt::Result {
        let numbers = Blanked(self.0.fields().into());
        write!(f, "plate{numbers}")
    }
}

// The line of a fixture.
#[derive(Clone, Copy, Debug, PartialEq, Eq)]
pub struct FixtureLine(pub Fixture);

impl fmt::Display for FixtureLine {
    ghost output = { λ line. Some (fixture_line line.0) };

    fn fmt<W: fmt::Write>(&self, f: &mut fmt::Formatter<W>) -> fmt::Result {
        let Fixture { label, x, y } = self.0;
        let label = Numeral(i128::from(label));
        let edges = Blanked([x.low, x.high, y.low, y.high]);
        write!(f, "{label}{edges}")
    }
}

// The line that says how many fixtures there are.
#[derive(Clone, Copy, Debug, PartialEq, Eq)]
pub struct CountLine(pub usize);

impl fmt::Display for CountLine {
    ghost output = { λ line. Some (count_line line.0) };

    fn fmt<W: fmt::Write>(&self, f: &mut fmt::Formatter<W>) -> fmt::Result {
        let count = Numeral(self.0 as i128);
        write!(f, "{count} fixtures")
    }
}

// The line of a fault. A fault's words have `block` and `byte` too; here each number is a numeral, as in every line.
#[derive(Clone, Copy, Debug, PartialEq, Eq)]
pub struct FaultLine(pub BlockFault);

impl fmt::Display for FaultLine {
    ghost output = { λ line. Some (fault_line line.0) };

    fn fmt<W: fmt::Write>(&self, f: &mut fmt::Formatter<W>) -> fmt::Result {
        let number = Numeral(i128::from(self.0.number()));
        let inner = Numeral(i128::from(self.0.inner()));
        match self.0.place() {
            Some(Place { block, byte }) => {
                let block = Numeral(block as i128);
                let byte = Numeral(byte as i128);
                write!(f, "fault {number} block {block} byte {byte} inner {inner}")
            }
            None => write!(f, "fault {number}"),
        }
    }
}
