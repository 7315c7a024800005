//! The questions that the token bus asks. Those that are the bus's alone stand here, the others in `arbiter`.
ghost use Rattle.std.specs.Prelude.{◌≡◌};
ghost use Rattle.token_bus.specs.Calls as BusCalls;

use arbiter::State;
use arbiter::question::{self, Verdict};
use arbiter::refusal::Refusal;
use rules::Head;

// Question 4 of the bus: is there a token, and is it a station?
fn token(width: usize, head: Head) -> Verdict
    ensures { result ≡ BusCalls.token_question width head }
{
    question::refuse_unless(head.is_some_and(|t| t < width), Refusal::HeadRange)
}

// Question 9: is acknowledge 0 or 1?
pub(crate) fn acknowledge(byte: u8) -> Verdict
    ensures { result ≡ BusCalls.acknowledge byte }
{
    question::refuse_unless(byte <= 1, Refusal::Acknowledge)
}

// Questions 1, 3 and 4.
pub(crate) fn state(state: &State) -> Verdict
    ensures { result ≡ BusCalls.state_questions state.now }
{
    question::width(state.width)?;
    question::one_pick(state.picks)?;
    token(state.width, state.head)
}
