// Rows of tables: plain records, whatever their fields hold.
ghost use Rattle.std.specs.Prelude.{◌≡◌, cond, is_some, None, Option};
ghost use Rattle.std.specs.Option.{option_map};
ghost use Rattle.refusals.specs.Refusals.{Refusal};
ghost use Rattle.refusals.specs.Answers.{Answers};
ghost use Rattle.claims.specs.Faults.{thing_fault};

use crate::faults::ThingFault;

// A row of a table: a thing of its kind, or else it counts as the thing whose every field is 0.
pub trait Row: Copy + Default {
    // why a row is no thing
    ghost refused: { Self → Option Refusal };

    // the thing whose every field is 0
    ghost zero: { Self };

    // The row as a thing, or why it is none.
    fn checked(self) -> Result<Self, ThingFault>
        ensures { Answers thing_fault (refused self) (λ made. made ≡ self) result };

    // The default is that thing.
    ghost zero_is_default: { (row : Self) → Self.is_default row → row ≡ zero };

    // It is not refused itself.
    ghost zero_allowed: { refused zero ≡ None };

    // Why the row is no thing.
    final fn fault(&self) -> Option<ThingFault>
        ensures { option_map thing_fault result ≡ refused self.now }
    {
        self.checked().err()
    }

    // The thing that the row counts as: itself, or where it is none, the one whose every field is 0.
    final fn counted(&self) -> Self
        ensures value { result ≡ cond (is_some (refused self.now)) zero self.now }
        ensures allowed { refused result ≡ None }
    {
        self.checked().unwrap_or_default()
    }
}
