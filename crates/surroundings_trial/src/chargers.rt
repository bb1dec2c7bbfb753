// A kind of one's own: charging points, which have all one size and stay.
ghost use Rattle.std.specs.Prelude.{◌≡◌, true};
ghost use Rattle.claims.specs.Things.{near};

mod kind;

// A charging point by its centre.
#[derive(Clone, Copy, Debug, PartialEq, Eq)]
pub struct Charger {
    label: u32,
    x: i64,
    y: i64,
    ghost x_near: { near x ≡ true },
    ghost y_near: { near y ≡ true },
}
