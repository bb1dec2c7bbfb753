// Kinds of thing, by what each thing of the kind claims.
ghost use Rattle.std.specs.Prelude.{◌≡◌, ℕ};
ghost use Rattle.claims.specs.declared.boxes.Claim.{Claim};
ghost use Rattle.claims.specs.Limits.{NoFaster, Sound};
ghost use Rattle.claims.specs.Things.{fixture_claim, mover_claim};
ghost use Rattle.claims.proofs.SoundLaws.{fixture_sound, fixture_slow, mover_sound, mover_slow};

use claims::{Claim, Fixture, Mover};

// A kind of thing. An implementation shows that a thing gives the same claim whenever it is asked, that the claim is within its limits, and that none is faster than the kind's greatest speed.
pub trait Kind {
    // The greatest speed that a claim of this kind may have.
    const GREATEST_SPEED: u32;

    // the same number, for clauses
    ghost GREATEST_SPEED: { ℕ };

    // what a thing claims
    ghost claim: { Self → Claim };

    // What the thing claims.
    fn claim(&self) -> Claim
        ensures { result ≡ claim self.now };

    // The claim is within its limits.
    ghost sound: { (thing : Self) → Sound (claim thing) };

    // The claim is no faster than the greatest speed of the kind.
    ghost slow: { (thing : Self) → NoFaster GREATEST_SPEED (claim thing) };
}

impl Kind for Fixture {
    const GREATEST_SPEED: u32 = 0;

    ghost GREATEST_SPEED = { 0 };

    ghost claim = { fixture_claim };

    ghost sound = { fixture_sound };

    ghost slow = { fixture_slow };

    fn claim(&self) -> Claim {
        <Claim as From<Fixture>>::from(*self)
    }
}

impl Kind for Mover {
    // as the checks of `claims` have it, whose number is private
    const GREATEST_SPEED: u32 = 20_000_000;

    ghost GREATEST_SPEED = { 20000000 };

    ghost claim = { mover_claim };

    ghost sound = { mover_sound };

    ghost slow = { mover_slow };

    fn claim(&self) -> Claim {
        <Claim as From<Mover>>::from(*self)
    }
}
