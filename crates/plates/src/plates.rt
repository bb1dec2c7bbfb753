// A plate: the numbers of one cart, each in its range.
ghost use Rattle.std.specs.Prelude.{◌+◌, ◌<◌, ◌≤◌};
ghost use Rattle.plates.specs.declared.fields.PlateField.TheVariants.{Brake, Pull, DriveError, Hold, SpeedError, PlaceError, TopSpeed, TurnLimit, HalfSide};
ghost use Rattle.plates.specs.Fields.{Ranged};

mod making;
mod reading;

// The numbers of one cart; `PlateFields` says what each is. Every plate that exists keeps what the ghost fields say.
#[derive(Clone, Copy, Debug, PartialEq, Eq)]
pub struct Plate {
    brake: u64,
    pull: u64,
    drive_error: u64,
    hold: u64,
    speed_error: u64,
    place_error: u64,
    top_speed: u64,
    turn_limit: u64,
    half_side: u64,
    ghost brake_ranged: { Ranged Brake brake },
    ghost pull_ranged: { Ranged Pull pull },
    ghost drive_error_ranged: { Ranged DriveError drive_error },
    ghost hold_ranged: { Ranged Hold hold },
    ghost speed_error_ranged: { Ranged SpeedError speed_error },
    ghost place_error_ranged: { Ranged PlaceError place_error },
    ghost top_speed_ranged: { Ranged TopSpeed top_speed },
    ghost turn_limit_ranged: { Ranged TurnLimit turn_limit },
    ghost half_side_ranged: { Ranged HalfSide half_side },
    // the real braking, brake less drive error, is at least 50
    ghost real_braking: { drive_error + 50 ≤ brake },
    ghost speed_error_below_top: { speed_error < top_speed },
}
