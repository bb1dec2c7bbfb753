// Two surroundings, one after the other.
ghost use Rattle.std.specs.Prelude.{◌++◌};
ghost use Rattle.claims.proofs.SoundLaws.{append_sound};

use crate::asking::Surroundings;
use claims::{Claim, Reach};

// The claims of the first, and then those of the second.
#[derive(Clone, Copy, Debug, PartialEq, Eq)]
pub struct Pair<A, B> {
    pub first: A,
    pub second: B,
}

impl<A: Surroundings, B: Surroundings> Surroundings for Pair<A, B> {
    ghost claims = { λ pair. A.Surroundings.claims pair.first ++ B.Surroundings.claims pair.second };

    ghost sound = { λ pair. append_sound (A.Surroundings.claims pair.first) (B.Surroundings.claims pair.second) (A.Surroundings.sound pair.first) (B.Surroundings.sound pair.second) };

    #[tactic(auto, using(crate::proofs::AskLaws::first_append))]
    fn first_blocking(&self, reach: &Reach) -> Option<Claim> {
        self.first
            .first_blocking(reach)
            .or_else(|| self.second.first_blocking(reach))
    }
}
