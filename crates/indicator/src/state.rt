ghost use Rattle.std.specs.Prelude.{◌≡◌};
ghost use Rattle.indicator.specs.StatesOf.{state_of, state_after};

use records::Weighing;

/// Waiting for an empty platform, ready to weigh, or pending: a weighing is to be stored.
#[derive(Clone, Copy)]
pub(crate) enum State {
    Waiting,
    Ready,
    Pending(Weighing),
}

/// What moves the state.
#[derive(Clone, Copy)]
pub(crate) enum Event {
    /// A sample came from an empty platform.
    Empty,
    /// A lorry was weighed.
    Weighed(Weighing),
    /// The weighing was stored.
    Stored,
    /// The weighing was voided.
    Voided,
}

impl State {
    /// The state after an event: an event that does not concern it leaves it as it is.
    pub(crate) fn after(self, event: Event) -> State
        ensures { state_of result ≡ state_after self event }
    {
        match (self, event) {
            (State::Waiting, Event::Empty) => State::Ready,
            (State::Ready, Event::Weighed(weighing)) => State::Pending(weighing),
            (State::Pending(_), Event::Stored) => State::Waiting,
            (State::Pending(_), Event::Voided) => State::Ready,
            _ => self,
        }
    }
}
