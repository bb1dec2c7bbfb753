// What comes to a gate, and what becomes of it.
ghost use Rattle.std.specs.Prelude.{◌≡◌};
ghost use Rattle.refusals.specs.Answers.{Answers};
ghost use Rattle.gate.specs.Faults.{release_fault};
ghost use Rattle.gate.specs.Gates.{fresh, braking, tripped_by, asked, TickAnswers, after_tick, opening_refused, release_refused, after_release, Handled, left};
ghost use Rattle.gate.specs.World.{Guarded, Justified};

use crate::faults::{ReleaseFault, TickFault};
use crate::gates::Gate;
use crate::parts::{Answer, Curve, Event, Measurement, Order, State, Tick, TickRefusal};
use refusals::check;
use runout::Plate;
use surroundings::{Fixture, Roster, Surroundings};

// The state in which a fault leaves an open gate: a measurement out of its ranges trips it.
#[tactic(auto, unfolding(crate::specs::Gates::tripped_by))]
fn state_after(fault: TickFault) -> State
    ensures { result ≡ tripped_by fault }
{
    match fault {
        TickFault::Measured(field) => State::Tripped(field),
        _ => State::Open,
    }
}

impl Gate {
    // A fresh gate. Over a cart of its plate that is parked anywhere, whatever ticks, releases and milliseconds follow, the run is guarded.
    #[tactic(auto, using(crate::proofs::Runs::guarded))]
    pub fn new(plate: Plate) -> Gate
        ensures made { result ≡ fresh plate }
        ensures guarded { Guarded result }
    {
        Gate {
            plate,
            curve: Curve::Straight,
            ticket: None,
            state: State::Open,
        }
    }

    // A proposal with what was measured: the order to the drive, or why it is refused, with the brake.
    pub fn tick<S: Surroundings>(
        &mut self,
        measured: Measurement,
        proposal: Order,
        around: &S,
    ) -> Result<Order, TickRefusal>
        ensures answer { TickAnswers self.old (asked measured proposal (S.Surroundings.claims around.now)) result }
        ensures gate { self.new ≡ after_tick self.old (asked measured proposal (S.Surroundings.claims around.now)) }
        ensures justified { Justified self.old (asked measured proposal (S.Surroundings.claims around.now)) }
    {
        match self.handle(Event::Tick(Tick {
            measured,
            proposal,
            around,
        })) {
            Answer::Tick(answer) => answer,
            // Proved not to come. A type of answer for each type of event would need a trait over events, and then no one match would have state and event in place.
            Answer::Release(_) => unreachable!(),
        }
    }

    // Opens a tripped gate, or says why not.
    pub fn release(&mut self, measured: Measurement) -> Result<(), ReleaseFault>
        ensures answer { Answers release_fault (release_refused self.old measured) (λ _. Unit {0}) result }
        ensures gate { self.new ≡ after_release self.old measured }
    {
        // A release has no surroundings: the roster names only a type of them.
        match self.handle::<Roster<Fixture>>(Event::Release(measured)) {
            Answer::Release(answer) => answer,
            // Proved not to come, as in `tick`.
            Answer::Tick(_) => unreachable!(),
        }
    }

    // The order of a refused tick: the brake, on the curve in force.
    fn braking(&self) -> Order
        ensures { result ≡ braking self.now }
    {
        Order {
            acceleration: -(self.plate.brake() as i64),
            curve: self.curve,
        }
    }

    // Nothing, or why a tripped gate may not be opened.
    fn opening(&self, measured: Measurement) -> Result<(), ReleaseFault>
        ensures { Answers release_fault (opening_refused self.now.plate measured) (λ _. Unit {0}) result }
    {
        measured.checked().map_err(ReleaseFault::Measured)?;
        check(
            measured.speed <= self.plate.speed_error() as i64,
            ReleaseFault::Moving,
        )
    }

    // What comes to the gate in its state. Inlined, as its answer is taken apart at once: without that a tick takes half as long again.
    #[inline(always)]
    #[tactic(auto, using(crate::proofs::Checking::left_open))]
    fn handle<S: Surroundings>(&mut self, event: Event<'_, S>) -> Answer
        ensures answer { Handled S.Surroundings.claims self.old event.entry result }
        ensures gate { self.new ≡ left S.Surroundings.claims self.old event.entry }
    {
        // One match in place on state and event: a rule of the project, so that both are seen together (docs/GATE.md).
        match (self.state, event) {
            (State::Open, Event::Tick(tick)) => {
                match tick.checked(&self.plate) {
                    Ok(ticket) => {
                        self.curve = tick.proposal.curve;
                        self.ticket = Some(ticket);
                        Answer::Tick(Ok(tick.proposal))
                    }
                    Err(fault) => {
                        self.state = state_after(fault);
                        Answer::Tick(Err(TickRefusal {
                            fault,
                            order: self.braking(),
                        }))
                    }
                }
            }
            (State::Tripped(_), Event::Tick(_)) => {
                Answer::Tick(Err(TickRefusal {
                    fault: TickFault::Tripped,
                    order: self.braking(),
                }))
            }
            (State::Tripped(_), Event::Release(measured)) => {
                let answer = self.opening(measured);
                if answer.is_ok() {
                    self.state = State::Open;
                }
                Answer::Release(answer)
            }
            (State::Open, Event::Release(_)) => Answer::Release(Err(ReleaseFault::NotTripped)),
        }
    }
}
