//! The examples of docs/CALLS.md: each is tried by a test, a literal for what it says. Nothing here is part of what a controller runs.
#![tactic(auto)]

mod cycles;
mod heads;
mod model;
mod openings;
mod parts;
mod texts;

use arbiter::refusal::Refusal;
use arbiter::{Answer, Granted, State};
use rules::Head;

// A state.
pub(crate) fn state(width: usize, picks: usize, head: Head) -> State {
    State { width, picks, head }
}

// The answer of a call that is no cycle, is served and leaves this state.
pub(crate) fn served(state: State) -> Answer<()> {
    Answer {
        state,
        outcome: Ok(()),
    }
}

// The answer of a cycle that is served with this count.
pub(crate) fn granted(count: usize, state: State, more: bool) -> Answer<Granted> {
    Answer {
        state,
        outcome: Ok(Granted { count, more }),
    }
}

// The number and the place of a refusal; 0 and 0 where there is none.
pub(crate) fn refused<A: Drop>(outcome: Result<A, Refusal>) -> (usize, usize) {
    match outcome {
        Ok(_) => (0, 0),
        Err(refusal) => (refusal.number(), refusal.place()),
    }
}
