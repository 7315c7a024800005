// States, and comparing what calls answer with what they should. A refusal is expected by its number, a literal: the papers give
// refusals as numbers, and that the calls' refusals have these is tested too.
use crate::engine::Engine;
use arbiter::refusal::Refusal;
use arbiter::{Answer, Granted, State};
use rules::Head;
use thermometer::adder::Sum;

// The state of these.
pub(crate) fn state(width: usize, picks: usize, head: Head) -> State {
    State { width, picks, head }
}

// What a call returns that makes a state and is refused.
const NOTHING: State = State {
    width: 0,
    picks: 0,
    head: None,
};

// Whether a call that is no cycle is served and leaves this state.
pub(crate) fn serves(a: Answer<()>, state: State) -> bool {
    a == Answer {
        state,
        outcome: Ok(()),
    }
}

// Whether a cycle is served with this count, leaves this state and says this of more that are pending.
pub(crate) fn grants(a: Answer<Granted>, count: usize, state: State, more: bool) -> bool {
    a == Answer {
        state,
        outcome: Ok(Granted { count, more }),
    }
}

// Whether a call is refused by this number at this place and leaves this state.
pub(crate) fn refuses<T: Drop>(a: Answer<T>, number: usize, place: usize, state: State) -> bool {
    match a.outcome {
        Ok(_) => false,
        Err(refusal) => (refusal.number(), refusal.place()) == (number, place) && a.state == state,
    }
}

// Whether a call that makes a state is refused by this number at this place.
pub(crate) fn makes_nothing(a: Answer<()>, number: usize, place: usize) -> bool {
    refuses(a, number, place, NOTHING)
}

// Opens with the width, the picks and the head of a state. Whether this makes the state or is refused by this number.
pub(crate) fn opening(engine: Engine, s: State, expected: Result<(), usize>) -> bool {
    let a = engine.open(s);
    match expected {
        Ok(()) => serves(a, s),
        Err(number) => makes_nothing(a, number, 0),
    }
}

// Whether a sum is this code and is or is not cut off, or is refused by this number.
pub(crate) fn sum(sum: Result<Sum, Refusal>, expected: Result<(u8, bool), usize>) -> bool {
    sum.map(|s| (s.code, s.cut)).map_err(Refusal::number) == expected
}
