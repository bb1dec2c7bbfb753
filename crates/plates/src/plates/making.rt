// A plate from nine numbers.
ghost use Rattle.std.specs.Prelude.{◌≡◌};
ghost use Rattle.refusals.specs.Answers.{Answers};
ghost use Rattle.plates.specs.Faults.{plate_fault};
ghost use Rattle.plates.specs.Plates.{plate_refused, Sound, held};

use crate::faults::PlateFault;
use crate::fields::{PlateField, PlateFields};
use crate::plates::Plate;
use refusals::check;

// The least real braking.
const LEAST_BRAKING: i64 = 50;

// The checks of nine numbers, in their order.
fn checked(fields: &PlateFields) -> Result<(), PlateFault>
    ensures { Answers plate_fault (plate_refused fields.now) (λ _. Unit {0}) result }
{
    // A search, and what it finds is the field of the fault: no check of a test.
    if let Some(field) = fields.first_outside() {
        return Err(PlateFault::OutOfRange(field));
    }
    check(
        fields.brake.saturating_sub(fields.drive_error) >= LEAST_BRAKING,
        PlateFault::WeakBraking,
    )?;
    check(
        fields.speed_error < fields.top_speed,
        PlateFault::SpeedErrorTooLarge,
    )
}

// The plate that holds nine numbers. One by one, as a plate's are unsigned.
fn holding(fields: PlateFields) -> Plate
    requires { Sound fields }
    ensures { held result ≡ fields }
{
    Plate {
        brake: fields.unsigned(PlateField::Brake),
        pull: fields.unsigned(PlateField::Pull),
        drive_error: fields.unsigned(PlateField::DriveError),
        hold: fields.unsigned(PlateField::Hold),
        speed_error: fields.unsigned(PlateField::SpeedError),
        place_error: fields.unsigned(PlateField::PlaceError),
        top_speed: fields.unsigned(PlateField::TopSpeed),
        turn_limit: fields.unsigned(PlateField::TurnLimit),
        half_side: fields.unsigned(PlateField::HalfSide),
    }
}

impl Plate {
    // The plate of nine numbers, unless a number is out of its range, the real braking is too weak, or the speed error too large.
    pub fn new(fields: PlateFields) -> Result<Plate, PlateFault>
        ensures { Answers plate_fault (plate_refused fields) (λ plate. held plate ≡ fields) result }
    {
        checked(&fields)?;
        Ok(holding(fields))
    }
}
