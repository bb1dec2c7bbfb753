// Surroundings of one's own: a barrier across a gateway, closed or open.
ghost use Rattle.surroundings_trial.specs.Barriers.{barrier_claims, barrier_sound};

use surroundings::{Claim, Reach, Span, Surroundings};

// The barrier, closed or open.
#[derive(Clone, Copy, Debug, PartialEq, Eq)]
pub struct Barrier {
    pub closed: bool,
}

// The bar across the gateway.
const BAR: Claim = Claim {
    label: 77,
    x: Span {
        low: 5_000_000_000,
        high: 5_100_000_000,
    },
    y: Span {
        low: 0,
        high: 4_000_000_000,
    },
    speed: 0,
};

impl Surroundings for Barrier {
    ghost claims = { λ barrier. barrier_claims barrier.closed };

    ghost sound = { λ barrier. barrier_sound barrier.closed };

    #[tactic(auto, unfolding(surroundings::specs::Asking::first_blocking))]
    fn first_blocking(&self, reach: &Reach) -> Option<Claim> {
        (self.closed && BAR.blocks(reach)).then_some(BAR)
    }
}
