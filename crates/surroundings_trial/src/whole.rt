// Everything around a cart: what is not seen, then fixtures, then movers.
ghost use Rattle.std.specs.Prelude.{◌≡◌, ◌++◌, map, length};
ghost use Rattle.refusals.specs.Answers.{Answers, or_else};
ghost use Rattle.claims.specs.Faults.{thing_fault};
ghost use Rattle.claims.specs.Horizons.{strips};
ghost use Rattle.claims.specs.Things.{fixture_claim, mover_claim};
ghost use Rattle.surroundings.specs.Asking.{first_blocking};
ghost use Rattle.surroundings.specs.Rosters.{roster_refused};

use surroundings::{
    Claim, Fixture, Horizon, Mover, Pair, Reach, Roster, Seen, Surroundings, ThingFault,
};

// The first of the four strips, the fixtures and the movers that blocks a reach; tables of more than 1,024 things are refused.
pub fn first_around(
    seen: Seen,
    fixtures: &[Fixture],
    movers: &[Mover],
    reach: &Reach,
) -> Result<Option<Claim>, ThingFault>
    ensures { Answers thing_fault
        (or_else (roster_refused (length fixtures.now)) (roster_refused (length movers.now)))
        (λ o. o ≡ first_blocking (strips seen.x seen.y seen.speed ++ (map fixture_claim fixtures.now ++ map mover_claim movers.now)) reach.now)
        result }
{
    let below = Pair {
        first: Roster::new(fixtures)?,
        second: Roster::new(movers)?,
    };
    Ok(Horizon { seen, below }.first_blocking(reach))
}
