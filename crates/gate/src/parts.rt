// What a gate is given, holds and answers.
use crate::faults::{ReleaseFault, TickFault};
use surroundings::Reach;

// The path that the cart follows: straight on, or an arc of a signed radius in mm.
// Not an `Option` of a radius: straight and arc are the defined words, which the clauses use, and `None` would say neither.
#[derive(Clone, Copy, Debug, PartialEq, Eq)]
pub enum Curve {
    Straight,
    Arc(i64),
}

// An acceleration with a curve: what a planner proposes, and what the drive is told.
#[derive(Clone, Copy, Debug, PartialEq, Eq)]
pub struct Order {
    pub acceleration: i64,
    pub curve: Curve,
}

// What the sensors say.
#[derive(Clone, Copy, Debug, PartialEq, Eq)]
pub struct Measurement {
    pub x: i64,
    pub y: i64,
    pub speed: i64,
}

// The name of one of these numbers.
#[derive(Clone, Copy, Debug, PartialEq, Eq)]
pub enum MeasurementField {
    X = 1,
    Y,
    Speed,
}

// What an accepted tick leaves standing: its acceleration, and where the cart may come and for how long.
#[derive(Clone, Copy, Debug, PartialEq, Eq)]
pub struct Ticket {
    pub acceleration: i64,
    pub reach: Reach,
}

// Whether a gate is open, or tripped by a field of a measurement.
// Not an `Option` of a field: open and tripped are the defined words, by which clauses and the match in place name the states, and `None` would say neither.
#[derive(Clone, Copy, Debug, PartialEq, Eq)]
pub enum State {
    Open,
    Tripped(MeasurementField),
}

// A refused tick: why, and what the drive is told instead.
#[derive(Clone, Copy, Debug, PartialEq, Eq)]
pub struct TickRefusal {
    pub fault: TickFault,
    pub order: Order,
}

// A tick: what was measured, what a planner proposes, and what is around the cart.
#[derive_where(Clone, Copy)]
pub struct Tick<'a, S> {
    pub measured: Measurement,
    pub proposal: Order,
    pub around: &'a S,
}

// What comes to a gate.
#[derive_where(Clone, Copy)]
pub enum Event<'a, S> {
    Tick(Tick<'a, S>),
    Release(Measurement),
}

// What a gate answers to it.
#[derive(Clone, Copy, Debug, PartialEq, Eq)]
pub enum Answer {
    Tick(Result<Order, TickRefusal>),
    Release(Result<(), ReleaseFault>),
}
