// The numbers of a plate, one by one.
ghost use Rattle.std.specs.Prelude.{◌≡◌};
ghost use Rattle.plates.specs.Plates.{held};

use crate::fields::PlateFields;
use crate::plates::Plate;

impl Plate {
    // The nine numbers that it was made of. A reader like those below: `PlateFields::from(*plate)` would be no plainer than `plate.fields()`.
    pub fn fields(&self) -> PlateFields
        ensures { result ≡ held self.now }
    {
        PlateFields {
            brake: self.brake as i64,
            pull: self.pull as i64,
            drive_error: self.drive_error as i64,
            hold: self.hold as i64,
            speed_error: self.speed_error as i64,
            place_error: self.place_error as i64,
            top_speed: self.top_speed as i64,
            turn_limit: self.turn_limit as i64,
            half_side: self.half_side as i64,
        }
    }

    // How strongly the cart brakes, in nm per ms per ms.
    pub fn brake(&self) -> u64
        ensures { result ≡ self.now.brake }
    {
        self.brake
    }

    // How strongly it accelerates, in nm per ms per ms.
    pub fn pull(&self) -> u64
        ensures { result ≡ self.now.pull }
    {
        self.pull
    }

    // How far the drive may depart from its order, in nm per ms per ms.
    pub fn drive_error(&self) -> u64
        ensures { result ≡ self.now.drive_error }
    {
        self.drive_error
    }

    // How long an order is obeyed before the cart brakes by itself, in ms.
    pub fn hold(&self) -> u64
        ensures { result ≡ self.now.hold }
    {
        self.hold
    }

    // How far the measured speed may be from the true one, in nm per ms.
    pub fn speed_error(&self) -> u64
        ensures { result ≡ self.now.speed_error }
    {
        self.speed_error
    }

    // How far the measured place may be from the true one on each axis, in nm.
    pub fn place_error(&self) -> u64
        ensures { result ≡ self.now.place_error }
    {
        self.place_error
    }

    // The highest speed that the cart may have, in nm per ms.
    pub fn top_speed(&self) -> u64
        ensures { result ≡ self.now.top_speed }
    {
        self.top_speed
    }

    // The highest rate of turning, in mrad per s.
    pub fn turn_limit(&self) -> u64
        ensures { result ≡ self.now.turn_limit }
    {
        self.turn_limit
    }

    // Half the side of the square that holds the cart, in nm.
    pub fn half_side(&self) -> u64
        ensures { result ≡ self.now.half_side }
    {
        self.half_side
    }
}
