// Every input for small widths against the model: every head and none, every number of picks, every set of requests.
use crate::conversions::byte;
use crate::engine::Engine;
use crate::{compare, model};
use arbiter::State;

// 256 sets of requests, 9 heads, 8 picks, 8 widths.
pub(crate) const INPUTS: usize = 256 * 9 * 8 * 8;

// The inputs with 2 acknowledge bytes. Only the bus takes the second of these.
pub(crate) const CASES: usize = INPUTS * 2;

// The case of a number, by an engine.
pub(crate) fn case(engine: Engine, i: usize) -> Option<bool> {
    let (s, requests) = input(i)?;
    let acknowledge = byte(i / INPUTS % 2);
    if !engine.takes_size(s)
        || !engine.takes(s.head)
        || (acknowledge == 1 && engine != Engine::Bus)
    {
        return None;
    }
    let requests = requests.get(..s.width)?;
    Some(model::run(engine, s, requests, acknowledge).same)
}

// The input of a number: a state, and the requests of 8 stations, of which it has the first. None where they are no input.
pub(crate) fn input(i: usize) -> Option<(State, [u8; 8])> {
    let set = i % 256;
    let head = head(i / 256 % 9);
    let picks = i / 2304 % 8 + 1;
    let width = i / 18432 % 8 + 1;
    if 1 << width <= set || width < picks || !is_within(head, width) {
        return None;
    }
    Some((compare::state(width, picks, head), spread::<8>(set)))
}

// The heads by number: 0 for none, and then the stations.
pub(crate) fn head(i: usize) -> Option<usize> {
    i.checked_sub(1)
}

// Whether a head is one of so many stations, or none.
pub(crate) fn is_within(head: Option<usize>, width: usize) -> bool {
    head.is_none_or(|station| station < width)
}

// A set of stations as request bytes: station i asks if bit i of the set is 1.
pub(crate) fn spread<const N: usize>(set: usize) -> [u8; N] {
    let mut requests = [0; N];
    let mut rest = set;
    for request in requests.iter_mut() {
        *request = byte(rest % 2);
        rest /= 2;
    }
    requests
}
