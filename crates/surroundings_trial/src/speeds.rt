// What is known of the speed of a thing of any kind.
ghost use Rattle.std.specs.Prelude.{◌≡◌, ◌+◌};

use surroundings::Kind;

// By how much the greatest speed of its kind is above the speed that a thing claims.
pub fn spare_speed<T: Kind>(thing: &T) -> u32
    ensures { result + (T.Kind.claim thing.now).speed ≡ T.Kind.GREATEST_SPEED }
{
    T::GREATEST_SPEED - thing.claim().speed
}
