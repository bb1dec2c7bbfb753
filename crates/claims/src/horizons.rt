// What a cart sees of its surroundings. Declared apart, so that what its functions cite may name it.
ghost use Rattle.std.specs.Prelude.{◌≡◌, ◌≤◌, true, ◌&&◌};
ghost use Rattle.claims.specs.Things.{near, ordered};

use crate::boxes::Span;

mod strips;

// The rectangle that a cart sees, and the speed at which unseen things may come from outside it.
#[derive(Clone, Copy, Debug, PartialEq, Eq)]
pub struct Seen {
    x: Span,
    y: Span,
    speed: u32,
    ghost low_x_near: { near x.low ≡ true },
    ghost high_x_near: { near x.high ≡ true },
    ghost low_y_near: { near y.low ≡ true },
    ghost high_y_near: { near y.high ≡ true },
    ghost speed_ranged: { speed ≤ 20000000 },
    ghost low_below_high: { (ordered x && ordered y) ≡ true },
}
