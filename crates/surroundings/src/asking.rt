// Surroundings, and the one question to them.
ghost use Rattle.std.specs.Prelude.{◌≡◌, List, Option};
ghost use Rattle.std.specs.List.{AllByRecursion};
ghost use Rattle.claims.specs.declared.boxes.Claim.{Claim};
ghost use Rattle.claims.specs.Limits.{Sound};
ghost use Rattle.surroundings.specs.Asking.{FirstBlocking, first_blocking};

use claims::{Claim, Reach};

// What surrounds a cart. It means a list of claims, each within its limits; an implementation shows this, and that the question is answered from that list.
pub trait Surroundings {
    // the list
    ghost claims: { Self → List Claim };

    // The first claim of the list that blocks the reach, or none if no claim blocks.
    fn first_blocking(&self, reach: &Reach) -> Option<Claim>
        ensures { result ≡ first_blocking (claims self.now) reach.now };

    // Each claim of the list is within its limits.
    ghost sound: { (around : Self) → AllByRecursion Sound (claims around) };
}

// Surroundings that are lent mean the same list.
impl<S: Surroundings> Surroundings for &S {
    ghost claims = { λ around. S.Surroundings.claims around.now };

    ghost sound = { λ around. S.Surroundings.sound around.now };

    fn first_blocking(&self, reach: &Reach) -> Option<Claim> {
        (**self).first_blocking(reach)
    }
}

// The first claim of any surroundings that blocks a reach, or none.
#[tactic(auto, using(crate::proofs::AskLaws::first_said, crate::proofs::AskLaws::first_only))]
pub fn ask<S: Surroundings>(around: &S, reach: &Reach) -> Option<Claim>
    ensures value { result ≡ first_blocking (S.Surroundings.claims around.now) reach.now }
    ensures first { FirstBlocking (S.Surroundings.claims around.now) reach.now result }
    ensures only { (o : Option Claim) → FirstBlocking (S.Surroundings.claims around.now) reach.now o → o ≡ result }
{
    around.first_blocking(reach)
}
