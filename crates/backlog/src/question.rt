//! The questions of a cycle with messages waiting. Those that are the backlog's alone stand here, the others in `arbiter` and `engines`.
ghost use Rattle.std.specs.Prelude.{ℕ, ◌≡◌, ◌≤◌, ◌<◌, ltb, length, get_or};
ghost use Rattle.search.specs.Places as Places;
ghost use Rattle.backlog.specs.Calls as BacklogCalls;

use arbiter::State;
use arbiter::question::{self, Verdict};
use arbiter::refusal::Refusal;
use engines::Engine;

// Question 15: is there a waiting number for each station?
fn waiting_length(width: usize, length: usize) -> Verdict
    ensures { result ≡ BacklogCalls.waiting_length width length }
{
    question::refuse_unless(length == width, Refusal::WaitingLength)
}

// Question 16: does every number stay within its type when the arrivals are added? The place of a refusal is that of the first that
// would not. It is looked for only where the numbers or'ed are so large that a byte of arrivals might take one past the most.
fn overflow(arrivals: &[u8], waiting: &[u32]) -> Verdict
    requires { length arrivals.now ≡ length waiting.now }
    ensures { result ≡ BacklogCalls.overflow (BacklogCalls.arrived waiting.now arrivals.now) }
{
    if union(waiting) <= u32::MAX - u32::from(u8::MAX) {
        return Ok(());
    }
    match first_over(arrivals, waiting) {
        Some(place) => Err(Refusal::Overflow(place)),
        None => Ok(()),
    }
}

// The first place at which the sum of the two would not stay within the type, or none, one place at a time.
fn first_over(arrivals: &[u8], waiting: &[u32]) -> Option<usize>
    requires { length arrivals.now ≡ length waiting.now }
    ensures { result ≡ Places.first (Places.places (ltb BacklogCalls.max_waiting) 0 (BacklogCalls.arrived waiting.now arrivals.now)) }
{
    (0..waiting.len()).find(|i| u32::MAX - u32::from(arrivals[*i]) < waiting[*i])
}

// The bits of all numbers, or'ed. No number is larger.
fn union(numbers: &[u32]) -> u32
    ensures { (i : ℕ) → i < length numbers.now → get_or numbers.now i 0 ≤ result }
{
    numbers.iter().fold(0, |all, number| all | *number)
}

// Questions 1, 3 and 4 of the state, the tree 2 after 1; then 5, 6, 15, of the tree 7, and 16 of what a cycle is lent, whose grant and node
// buffers have these lengths.
pub(crate) fn cycle(
    engine: Engine,
    state: &State,
    arrivals: &[u8],
    waiting: &[u32],
    grants: usize,
    nodes: usize,
) -> Verdict
    ensures { result ≡ BacklogCalls.questions engine state.now arrivals.now waiting.now grants nodes }
{
    let width = state.width;
    engine.ask(state)?;
    question::read_length(width, arrivals.len())?;
    question::write_length(width, grants)?;
    waiting_length(width, waiting.len())?;
    engine.ask_nodes(width, nodes)?;
    overflow(arrivals, waiting)
}
