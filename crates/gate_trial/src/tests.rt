// Each answer of a gate, with what the drive is told and what the gate does next.
use gate::{
    Around, Curve, Gate, Measurement, MeasurementField, Order, ReleaseFault, TickFault,
    TickRefusal, WorkedTick, worked_ticks,
};
use runout::{Fault, Layer, Plate, SAMPLE, run_out};
use std::process::Abort;
use std::test::Fail;
use surroundings::{Fixture, Kind, Roster, Span, Surroundings};

// No fixtures.
const NONE: [Fixture; 0] = [];

// A fixture over a cart at (0, 0). Written out here, as a test writes its own inputs.
const OVER: Fixture = Fixture {
    label: 7,
    x: Span { low: -1, high: 1 },
    y: Span { low: -1, high: 1 },
};

// The brake of the sample plate, on a straight.
const BRAKE: Order = Order {
    acceleration: -1_200,
    curve: Curve::Straight,
};

// Most tests begin with a fresh gate of the sample plate.
fn fresh() -> Result<Gate, Fail> {
    Ok(Gate::new(Plate::new(SAMPLE)?))
}

// Most measurements differ by their speed only.
fn at(speed: i64) -> Measurement {
    Measurement { x: 0, y: 0, speed }
}

// An order in one line.
fn order(acceleration: i64, curve: Curve) -> Order {
    Order {
        acceleration,
        curve,
    }
}

// With nothing around, a tick passes with its own proposal as the order.
fn passes(
    rt: &impl Abort,
    gate: &mut Gate,
    measured: Measurement,
    proposal: Order,
) -> Result<(), Fail> {
    assert_eq!(rt;
        gate.tick(measured, proposal, &Roster::new(&NONE)?)?,
        proposal
    );
    Ok(())
}

// With nothing around, a gate that is open passes a cart at rest.
fn open(rt: &impl Abort, gate: &mut Gate) -> Result<(), Fail> {
    passes(rt, gate, at(0), order(-200, Curve::Straight))
}

// With nothing around, a tick is refused by a fault, and the drive is told to brake on the curve in force.
fn refuses(
    rt: &impl Abort,
    gate: &mut Gate,
    measured: Measurement,
    proposal: Order,
    fault: TickFault,
    brake: Order,
) -> Result<(), Fail> {
    let refusal = TickRefusal {
        fault,
        order: brake,
    };
    assert_eq!(rt;
        gate.tick(measured, proposal, &Roster::new(&NONE)?),
        Err(refusal)
    );
    Ok(())
}

// With nothing around, a tick of a gate of the sample plate that was last on a straight is refused.
fn stops(
    rt: &impl Abort,
    gate: &mut Gate,
    measured: Measurement,
    proposal: Order,
    fault: TickFault,
) -> Result<(), Fail> {
    refuses(rt, gate, measured, proposal, fault, BRAKE)
}

// A row of the table against the run-out and the gate.
fn right<S: Surroundings>(rt: &impl Abort, row: WorkedTick, around: &S) -> Result<(), Fail> {
    let plate = Plate::new(row.fields)?;
    assert_eq!(rt;
        run_out(&plate, row.measured.speed, row.proposal.acceleration)?,
        row.out
    );
    let brake = order(-(plate.brake() as i64), Curve::Straight);
    let mut gate = Gate::new(plate);
    match gate.tick(row.measured, row.proposal, around) {
        Ok(order) => {
            assert_eq!(rt; row.refused, None);
            assert_eq!(rt; order, row.proposal);
        }
        Err(refusal) => {
            assert_eq!(rt; row.refused, Some(refusal.fault.number()));
            assert_eq!(rt; refusal.fault.layer(), Layer::Gate);
            assert_eq!(rt; refusal.order, brake);
        }
    }
    Ok(())
}

// Every row, with what is around it as a roster.
#[test]
fn the_table_is_what_a_gate_answers(rt: HostRuntime) -> Result<(), Fail> {
    for row in worked_ticks() {
        match row.around {
            Around::Nothing => right(&rt, row, &Roster::new(&NONE)?)?,
            Around::Fixed(fixture) => right(&rt, row, &Roster::new(&[fixture])?)?,
            Around::Moving(mover) => right(&rt, row, &Roster::new(&[mover])?)?,
        }
    }
    Ok(())
}

// The range of the acceleration, at both ends and past them; a refusal leaves the gate open.
#[test]
fn an_acceleration_is_from_brake_to_pull(rt: HostRuntime) -> Result<(), Fail> {
    let mut gate = fresh()?;
    for acceleration in [801, -1_201, i64::MIN, i64::MAX] {
        let proposal = order(acceleration, Curve::Straight);
        stops(&rt, &mut gate, at(0), proposal, TickFault::Acceleration)?;
        open(&rt, &mut gate)?;
    }
    for acceleration in [800, -1_200] {
        passes(&rt, &mut gate, at(0), order(acceleration, Curve::Straight))?;
    }
    Ok(())
}

// The range of the radius, at both ends and past them; a refusal leaves the gate open.
#[test]
fn a_radius_is_neither_0_nor_too_large(rt: HostRuntime) -> Result<(), Fail> {
    let mut gate = fresh()?;
    for radius in [0, 1_000_001, -1_000_001, i64::MIN, i64::MAX] {
        let proposal = order(-200, Curve::Arc(radius));
        stops(&rt, &mut gate, at(0), proposal, TickFault::Radius)?;
        open(&rt, &mut gate)?;
    }
    for radius in [1_000_000, -1_000_000] {
        passes(&rt, &mut gate, at(0), order(-200, Curve::Arc(radius)))?;
    }
    Ok(())
}

// A trip outlasts good ticks and refused releases, and ends with a release at rest.
#[test]
fn a_tripped_gate_opens_only_by_a_release(rt: HostRuntime) -> Result<(), Fail> {
    let good = order(-200, Curve::Straight);
    let too_fast = TickFault::Measured(MeasurementField::Speed);
    let mut gate = fresh()?;
    stops(&rt, &mut gate, at(10_000_001), good, too_fast)?;
    stops(&rt, &mut gate, at(0), good, TickFault::Tripped)?;
    assert_eq!(rt; gate.release(at(10_001)), Err(ReleaseFault::Moving));
    let far = Measurement {
        x: 1_000_000_000_001,
        ..at(0)
    };
    assert_eq!(rt;
        gate.release(far),
        Err(ReleaseFault::Measured(MeasurementField::X))
    );
    stops(&rt, &mut gate, at(0), good, TickFault::Tripped)?;
    gate.release(at(10_000))?;
    open(&rt, &mut gate)?;
    assert_eq!(rt; gate.release(at(10_000)), Err(ReleaseFault::NotTripped));
    open(&rt, &mut gate)
}

// Each field past its range trips a fresh gate, the first of several is named, and the ends do not trip.
#[test]
fn a_measurement_trips_by_its_first_bad_field(rt: HostRuntime) -> Result<(), Fail> {
    let end = 1_000_000_000_000;
    let good = order(-200, Curve::Straight);
    for (x, y, speed, field) in [
        (end + 1, -end - 1, -1, MeasurementField::X),
        (i64::MIN, 0, 0, MeasurementField::X),
        (0, end + 1, -1, MeasurementField::Y),
        (end, -end - 1, 0, MeasurementField::Y),
        (-end, end, -1, MeasurementField::Speed),
        (0, 0, i64::MAX, MeasurementField::Speed),
    ] {
        let mut gate = fresh()?;
        let measured = Measurement { x, y, speed };
        stops(&rt, &mut gate, measured, good, TickFault::Measured(field))?;
        stops(&rt, &mut gate, at(0), good, TickFault::Tripped)?;
    }
    // the highest speed that may be measured is above the top speed, and does not trip
    let mut gate = fresh()?;
    let edge = Measurement {
        x: end,
        y: -end,
        speed: 10_000_000,
    };
    stops(&rt, &mut gate, edge, good, TickFault::TopSpeed)?;
    open(&rt, &mut gate)
}

// What is refused is not followed: the brake comes on the curve that was last accepted, through a trip too.
#[test]
fn a_refused_tick_keeps_the_curve_in_force(rt: HostRuntime) -> Result<(), Fail> {
    let brake = order(-1_200, Curve::Arc(-2_000));
    let straight = order(801, Curve::Straight);
    let mut gate = fresh()?;
    passes(&rt, &mut gate, at(990_000), order(-200, Curve::Arc(-2_000)))?;
    for (speed, fault) in [
        (990_000, TickFault::Acceleration),
        (-1, TickFault::Measured(MeasurementField::Speed)),
        (0, TickFault::Tripped),
    ] {
        refuses(&rt, &mut gate, at(speed), straight, fault, brake)?;
    }
    gate.release(at(0))?;
    refuses(
        &rt,
        &mut gate,
        at(0),
        straight,
        TickFault::Acceleration,
        brake,
    )?;
    open(&rt, &mut gate)?;
    let arc = order(801, Curve::Arc(5));
    stops(&rt, &mut gate, at(0), arc, TickFault::Acceleration)
}

// A tick is refused by the first of its faults, and a claim comes last.
#[test]
fn tick_refusals_come_in_their_order(rt: HostRuntime) -> Result<(), Fail> {
    let rows = [OVER];
    let over = Roster::new(&rows)?;
    let mut gate = fresh()?;
    for (speed, acceleration, radius, fault) in [
        (1_990_000, 801, 0, TickFault::Acceleration),
        (1_990_000, -199, 0, TickFault::Radius),
        (1_990_000, -199, 1, TickFault::TopSpeed),
        (1_990_000, -200, 3_999, TickFault::TurnLimit),
        (1_990_000, -200, 4_000, TickFault::Blocked(OVER.claim())),
        (-1, 801, 0, TickFault::Measured(MeasurementField::Speed)),
        (-1, 801, 0, TickFault::Tripped),
    ] {
        let proposal = order(acceleration, Curve::Arc(radius));
        let refusal = TickRefusal {
            fault,
            order: BRAKE,
        };
        assert_eq!(rt; gate.tick(at(speed), proposal, &over), Err(refusal));
    }
    Ok(())
}

// What a tick's faults say: layer, number and words, with the field or the label that they name.
#[test]
fn tick_faults_say_their_words(rt: HostRuntime) -> Result<(), Fail> {
    let heap = rt.alloc();
    let claim = OVER.claim();
    assert_eq!(rt; claim.label, 7);
    assert_eq!(rt; MeasurementField::Speed.number(), 3);
    for (fault, number, words) in [
        (TickFault::Tripped, 31, "the gate is tripped"),
        (
            TickFault::Measured(MeasurementField::Speed),
            32,
            "field 3 is out of its range",
        ),
        (
            TickFault::Acceleration,
            33,
            "the acceleration is not from -brake to pull",
        ),
        (TickFault::Radius, 34, "the radius is 0 or too large"),
        (TickFault::TopSpeed, 38, "the peak is above the top speed"),
        (TickFault::TurnLimit, 39, "the peak is too high for the arc"),
        (TickFault::Blocked(claim), 40, "blocked by 7"),
    ] {
        assert_eq!(rt; fault.layer(), Layer::Gate);
        assert_eq!(rt; fault.number(), number);
        let said = fault.to_string(heap)?;
        assert_eq!(rt; said.as_str(), words);
    }
    Ok(())
}

// What a release's faults say: layer, number and words, with the field that they name.
#[test]
fn release_faults_say_their_words(rt: HostRuntime) -> Result<(), Fail> {
    let heap = rt.alloc();
    assert_eq!(rt; MeasurementField::X.number(), 1);
    assert_eq!(rt; MeasurementField::Y.number(), 2);
    for (fault, number, words) in [
        (ReleaseFault::NotTripped, 41, "the gate is not tripped"),
        (
            ReleaseFault::Measured(MeasurementField::X),
            32,
            "field 1 is out of its range",
        ),
        (
            ReleaseFault::Moving,
            42,
            "the speed is above the speed error",
        ),
    ] {
        assert_eq!(rt; fault.layer(), Layer::Gate);
        assert_eq!(rt; fault.number(), number);
        let said = fault.to_string(heap)?;
        assert_eq!(rt; said.as_str(), words);
    }
    Ok(())
}
