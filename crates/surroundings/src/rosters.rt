// Rosters: tables of things of one kind.
ghost use Rattle.std.specs.Prelude.{◌≡◌, ◌≤◌, map, length};
ghost use Rattle.refusals.specs.Answers.{Answers};
ghost use Rattle.claims.specs.Faults.{thing_fault};
ghost use Rattle.claims.proofs.SoundLaws.{rows_sound};
ghost use Rattle.surroundings.specs.Rosters.{roster_refused};

use crate::asking::Surroundings;
use crate::kinds::Kind;
use claims::{Claim, Reach, ThingFault};
use refusals::check;
use std::alloc::AllocError;

// The most things that a roster may stand over. A floor file has as many fixtures at most, by a rule of its own.
const MOST: usize = 1_024;

// The claims of the things of a table, in table order.
pub struct Roster<'a, T> {
    rows: &'a [T],
    ghost few: { length rows.now ≤ 1024 },
}

// Copied whatever the rows are. Tried with `derive_where(Clone, Copy)`: refused beside a ghost field (`derive-over-ghost-field`); `derive` would ask `Clone` of the rows.
impl<T> Clone for Roster<'_, T> {
    ghost is_clone = { λ roster copy. copy ≡ roster };

    ghost is_infallible = { λ _. Unit {0} };

    fn clone(&self) -> Result<Self, AllocError> {
        Ok(*self)
    }
}

impl<T> Copy for Roster<'_, T> {}

impl<'a, T: Kind> Roster<'a, T> {
    // The roster over a table, unless it has more than 1,024 things.
    pub fn new(rows: &'a [T]) -> Result<Roster<'a, T>, ThingFault>
        ensures { Answers thing_fault (roster_refused (length rows.now)) (λ roster. roster.rows.now ≡ rows.now) result }
    {
        check(rows.len() <= MOST, ThingFault::TooMany)?;
        Ok(Roster { rows })
    }
}

impl<T: Kind> Surroundings for Roster<'_, T> {
    ghost claims = { λ roster. map T.Kind.claim roster.rows.now };

    ghost sound = { λ roster. rows_sound T.Kind.claim T.Kind.sound roster.rows.now };

    #[tactic(auto, unfolding(crate::specs::Asking::first_blocking))]
    fn first_blocking(&self, reach: &Reach) -> Option<Claim> {
        self.rows
            .iter()
            .map(|row| row.claim())
            .find(|claim| claim.blocks(reach))
    }
}
