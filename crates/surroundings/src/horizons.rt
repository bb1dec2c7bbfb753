// A horizon: what may come from outside of what is seen, and then the surroundings below.
ghost use Rattle.std.specs.Prelude.{◌≡◌, ◌++◌};
ghost use Rattle.claims.specs.Horizons.{strips};
ghost use Rattle.claims.proofs.SoundLaws.{append_sound, strips_sound};
ghost use Rattle.surroundings.specs.Asking.{first_blocking};

use crate::asking::Surroundings;
use claims::{Claim, Reach, Seen};

// The four strips around the rectangle that is seen, and then the claims of the surroundings below.
#[derive(Clone, Copy, Debug, PartialEq, Eq)]
pub struct Horizon<S> {
    pub seen: Seen,
    pub below: S,
}

impl<S: Surroundings> Surroundings for Horizon<S> {
    ghost claims = { λ h. strips h.seen.x h.seen.y h.seen.speed ++ S.Surroundings.claims h.below };

    ghost sound = { λ h. append_sound (strips h.seen.x h.seen.y h.seen.speed) (S.Surroundings.claims h.below) (strips_sound h.seen.x h.seen.y h.seen.speed h.seen.low_x_near h.seen.high_x_near h.seen.low_y_near h.seen.high_y_near h.seen.speed_ranged) (S.Surroundings.sound h.below) };

    #[tactic(auto, using(crate::proofs::AskLaws::first_after_strips))]
    fn first_blocking(&self, reach: &Reach) -> Option<Claim> {
        first_claim(&self.seen.strips(), reach).or_else(|| self.below.first_blocking(reach))
    }
}

// The first of some claims that blocks the reach. Tried over the strips in place: the proof did not close, as the check opens them down to their edges before it looks for the chain's.
#[tactic(auto, unfolding(crate::specs::Asking::first_blocking))]
fn first_claim(claims: &[Claim], reach: &Reach) -> Option<Claim>
    ensures { result ≡ first_blocking claims.now reach.now }
{
    claims.iter().copied().find(|claim| claim.blocks(reach))
}
