//! The questions that the packed scan asks. Those that are its alone stand here, the others in `arbiter`.
ghost use Rattle.std.specs.Prelude.{◌≡◌, length};
ghost use Rattle.rules.specs.Packing.{packed_length};
ghost use Rattle.packed_scan.specs.Calls as PackedCalls;

use crate::lines::first_in_byte;
use arbiter::State;
use arbiter::question::{self, Verdict};
use arbiter::refusal::Refusal;

// How many bytes the wires of so many stations take: eight to a byte, rounded up.
fn packed_length(width: usize) -> usize
    ensures { result ≡ packed_length width }
{
    width.div_ceil(8)
}

// Questions 1, 3 and 4.
pub(crate) fn state(state: &State) -> Verdict
    ensures { result ≡ PackedCalls.state_questions state.now }
{
    question::width(state.width)?;
    question::one_pick(state.picks)?;
    question::head(state.width, state.head)
}

// Question 14: is no bit set that is no station's? Only the last byte can have one; the place of a refusal is that of the byte.
#[tactic(auto, using(crate::specs::Calls::Laws::unused_none, crate::specs::Calls::Laws::unused_in, crate::specs::Lines::Laws::set_past, crate::specs::Lines::Laws::in_last))]
fn unused_bits(width: usize, requests: &[u8]) -> Verdict
    requires { length requests.now ≡ packed_length width }
    ensures { result ≡ PackedCalls.unused_bits width requests.now }
{
    let last = width / 8;
    if last == requests.len() {
        return Ok(());
    }
    match first_in_byte(width, requests) {
        None => Ok(()),
        Some(_) => Err(Refusal::UnusedBit(last)),
    }
}

// Questions 1, 3, 4, 5, 6 and 14 of a cycle whose grant buffer has `length` bytes.
pub(crate) fn cycle(state: &State, requests: &[u8], length: usize) -> Verdict
    ensures { result ≡ PackedCalls.questions state.now requests.now length }
{
    self::state(state)?;
    let stated = packed_length(state.width);
    question::read_length(stated, requests.len())?;
    question::write_length(stated, length)?;
    unused_bits(state.width, requests)
}
