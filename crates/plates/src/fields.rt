// The nine numbers of a plate, as they are given.
ghost use Rattle.std.specs.Prelude.{◌≡◌, length, pos, Some};
ghost use Rattle.plates.specs.Fields.{plate_fields, field_number, field_name, range_of, Ranged, given, in_order, numbers_of, in_range, InRange, first_outside};

use std::fmt;

// The numbers of a plate, of any value. Lengths are in nm, times in ms, speeds in nm per ms, accelerations in nm per ms per ms.
#[derive(Clone, Copy, Debug, PartialEq, Eq)]
pub struct PlateFields {
    // how strongly the cart brakes
    pub brake: i64,
    // how strongly it accelerates
    pub pull: i64,
    // how far the drive may depart from its order
    pub drive_error: i64,
    // how long an order is obeyed before the cart brakes by itself
    pub hold: i64,
    // how far the measured speed may be from the true one
    pub speed_error: i64,
    // how far the measured place may be from the true one, on each axis
    pub place_error: i64,
    // the highest speed that the cart may have
    pub top_speed: i64,
    // the highest rate of turning, in mrad per s
    pub turn_limit: i64,
    // half the side of the square that holds the cart
    pub half_side: i64,
}

// The name of one of these numbers.
#[derive(Clone, Copy, Debug, PartialEq, Eq)]
pub enum PlateField {
    Brake = 1,
    Pull,
    DriveError,
    Hold,
    SpeedError,
    PlaceError,
    TopSpeed,
    TurnLimit,
    HalfSide,
}

// The least and the greatest value of a field.
#[derive(Clone, Copy, Debug, PartialEq, Eq)]
pub struct Range {
    pub low: u64,
    pub high: u64,
}

// The fields in their order.
const FIELDS: [PlateField; 9] = [
    PlateField::Brake,
    PlateField::Pull,
    PlateField::DriveError,
    PlateField::Hold,
    PlateField::SpeedError,
    PlateField::PlaceError,
    PlateField::TopSpeed,
    PlateField::TurnLimit,
    PlateField::HalfSide,
];

impl PlateField {
    // Its place among the nine, from 1.
    pub fn number(self) -> u8
        ensures { result ≡ field_number self }
    {
        self as u8
    }

    // Its least and its greatest value.
    pub fn range(self) -> Range
        ensures { result ≡ range_of self }
    {
        let (low, high) = match self {
            PlateField::Brake => (50, 20_000),
            PlateField::Pull => (0, 10_000),
            PlateField::DriveError => (0, 19_950),
            PlateField::Hold => (1, 500),
            PlateField::SpeedError => (0, 1_000_000),
            PlateField::PlaceError => (0, 1_000_000_000),
            PlateField::TopSpeed => (1, 5_000_000),
            PlateField::TurnLimit => (1, 10_000),
            PlateField::HalfSide => (0, 5_000_000_000),
        };
        Range { low, high }
    }
}

impl fmt::Display for PlateField {
    ghost output = { λ field. Some (field_name field) };

    fn fmt<W: fmt::Write>(&self, f: &mut fmt::Formatter<W>) -> fmt::Result {
        match self {
            PlateField::Brake => f.write_str("brake"),
            PlateField::Pull => f.write_str("pull"),
            PlateField::DriveError => f.write_str("drive error"),
            PlateField::Hold => f.write_str("hold"),
            PlateField::SpeedError => f.write_str("speed error"),
            PlateField::PlaceError => f.write_str("place error"),
            PlateField::TopSpeed => f.write_str("top speed"),
            PlateField::TurnLimit => f.write_str("turn limit"),
            PlateField::HalfSide => f.write_str("half side"),
        }
    }
}

// Nine numbers in the order of the fields.
impl From<[i64; 9]> for PlateFields {
    ghost from_gives = { λ numbers fields. (fields ≡ in_order numbers) × (length numbers ≡ 9) };

    fn from(numbers: [i64; 9]) -> PlateFields {
        let [
            brake,
            pull,
            drive_error,
            hold,
            speed_error,
            place_error,
            top_speed,
            turn_limit,
            half_side,
        ] = numbers;
        PlateFields {
            brake,
            pull,
            drive_error,
            hold,
            speed_error,
            place_error,
            top_speed,
            turn_limit,
            half_side,
        }
    }
}

// The nine numbers in the order of the fields.
impl From<PlateFields> for [i64; 9] {
    ghost from_gives = { λ fields numbers. numbers ≡ numbers_of fields };

    fn from(fields: PlateFields) -> [i64; 9] {
        let PlateFields {
            brake,
            pull,
            drive_error,
            hold,
            speed_error,
            place_error,
            top_speed,
            turn_limit,
            half_side,
        } = fields;
        [
            brake,
            pull,
            drive_error,
            hold,
            speed_error,
            place_error,
            top_speed,
            turn_limit,
            half_side,
        ]
    }
}

impl PlateFields {
    // The number that was given for a field.
    fn given(&self, field: PlateField) -> i64
        ensures { result ≡ given self.now field }
    {
        match field {
            PlateField::Brake => self.brake,
            PlateField::Pull => self.pull,
            PlateField::DriveError => self.drive_error,
            PlateField::Hold => self.hold,
            PlateField::SpeedError => self.speed_error,
            PlateField::PlaceError => self.place_error,
            PlateField::TopSpeed => self.top_speed,
            PlateField::TurnLimit => self.turn_limit,
            PlateField::HalfSide => self.half_side,
        }
    }

    // Whether the number that was given for a field is in its range.
    fn in_range(&self, field: PlateField) -> bool
        ensures { result ≡ in_range self.now field }
    {
        let Range { low, high } = field.range();
        (low as i64..=high as i64).contains(&self.given(field))
    }

    // The number that was given for a field, which is in its range.
    pub(crate) fn unsigned(&self, field: PlateField) -> u64
        requires { InRange self.now field }
        ensures value { pos result ≡ given self.now field }
        ensures ranged { Ranged field result }
    {
        self.given(field) as u64
    }

    // The first of some fields whose number is out of its range.
    #[tactic(auto, unfolding(crate::specs::Fields::first_outside))]
    fn first_outside_of(&self, fields: &[PlateField]) -> Option<PlateField>
        ensures { result ≡ first_outside self.now fields.now }
    {
        fields.iter().copied().find(|field| !self.in_range(*field))
    }

    // The first field whose number is out of its range.
    pub(crate) fn first_outside(&self) -> Option<PlateField>
        ensures { result ≡ first_outside self.now plate_fields }
    {
        self.first_outside_of(&FIELDS)
    }
}
