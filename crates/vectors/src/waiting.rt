// A cycle with messages waiting (02, N6) against the model, and every input for small widths. The model adds the arrivals in wide
// numbers, makes the requests of the sums, and takes from them whom the model of the rules grants.
ghost use Rattle.std.specs.Prelude.{◌≤◌};

use crate::conversions::byte;
use crate::engine::Engine;
use crate::{compare, model, small};
use arbiter::{Answer, Granted, State};
use backlog::Backlog;

// What a cycle came to: whether it is as the model says, and its answer.
#[derive(Clone, Copy)]
pub struct Cycle {
    pub same: bool,
    pub answer: Answer<Granted>,
}

// Runs one cycle that is to be served, and compares it. The waiting numbers are then those that it left. `N` is the room for the
// nodes, two for each station: small cycles are many, and make small arrays.
pub(crate) fn run<const N: usize>(
    engine: engines::Engine,
    s: State,
    arrivals: &[u8],
    waiting: &mut [u32],
    grants: &mut [u8],
) -> Cycle
    requires { N ≤ 2048 }
{
    let width = arrivals.len().min(N / 2);
    let numbers: [u64; N] = arrived(arrivals, waiting);
    let requests: [u8; N] = asking(&numbers);
    let requests = &requests[..width];
    let mut nodes = [7u8; N];
    let nodes = &mut nodes[..2 * width];
    let answer = Backlog(s).cycle(engine, arrivals, waiting, grants, nodes);
    let model = model::of(s, requests);
    let same = model::answers(&model, model.next(), answer)
        && model::same_grants(&model, grants)
        && same_left(&numbers, grants, waiting)
        && same_nodes(engine, s, requests, nodes);
    Cycle { same, answer }
}

// The numbers with the arrivals added.
fn arrived<const N: usize>(arrivals: &[u8], waiting: &[u32]) -> [u64; N] {
    let mut numbers = [0u64; N];
    let both = arrivals.iter().zip(waiting);
    for (number, (arrived, waiting)) in numbers.iter_mut().zip(both) {
        *number = u64::from(*waiting) + u64::from(*arrived);
    }
    numbers
}

// The requests of these numbers.
fn asking<const N: usize>(numbers: &[u64; N]) -> [u8; N] {
    let mut requests = [0u8; N];
    for (request, number) in requests.iter_mut().zip(numbers) {
        *request = u8::from(*number > 0);
    }
    requests
}

// Whether the numbers that are left, with the grants, are these.
fn same_left(numbers: &[u64], grants: &[u8], left: &[u32]) -> bool {
    let parts = left.iter().zip(grants);
    let sums = parts.map(|(left, grant)| u64::from(*left) + u64::from(*grant));
    sums.zip(numbers).all(|(sum, number)| sum == *number)
}

// Whether the tree wrote the model's nodes, or another engine none.
fn same_nodes(engine: engines::Engine, s: State, requests: &[u8], nodes: &[u8]) -> bool {
    match engine {
        engines::Engine::Tree => model::same_nodes(s, requests, nodes),
        _ => nodes.iter().all(|node| *node == 7),
    }
}

// 6,561 sets of 0 to 2 waiting and 0 to 2 arrivals, 5 heads, 4 picks, 4 widths.
pub(crate) const CASES: usize = 6561 * 5 * 4 * 4;

// How many of the sets are of 0 stations and of more.
static SETS: [usize; 5] = [1, 9, 81, 729, 6561];

// The case of a number, by an engine.
pub(crate) fn case(engine: engines::Engine, i: usize) -> Option<bool> {
    let set = i % 6561;
    let head = small::head(i / 6561 % 5);
    let picks = i / 32805 % 4 + 1;
    let width = i / 131220 % 4 + 1;
    let s = compare::state(width, picks, head);
    if SETS[width] <= set
        || !small::is_within(head, width)
        || !Engine::RoundRobin(engine).takes_size(s)
    {
        return None;
    }
    let (arrivals, mut waiting) = spread(set);
    let mut grants = [7u8; 4];
    let cycle = run::<8>(
        engine,
        s,
        &arrivals[..width],
        &mut waiting[..width],
        &mut grants[..width],
    );
    Some(cycle.same)
}

// A set as arrivals and waiting numbers. Each station has a digit of it to the base 9.
fn spread(set: usize) -> ([u8; 4], [u32; 4]) {
    let mut arrivals = [0u8; 4];
    let mut waiting = [0u32; 4];
    let mut rest = set;
    for (arrived, waiting) in arrivals.iter_mut().zip(waiting.iter_mut()) {
        *arrived = byte(rest % 3);
        *waiting = u32::from(byte(rest / 3 % 3));
        rest /= 9;
    }
    (arrivals, waiting)
}
