//! The cycles under C names, for the benchmark, all in one shape: a width, the picks, 1 if there is a head, the head, the requests, the
//! grant buffer, another buffer, which is the tree's node buffer or the backlog's waiting numbers, an acknowledge byte, and eight numbers
//! for the answer: number, place, count, width, picks, 1 if there is a head, the head, 1 if more are pending.
#![tactic(auto)]

ghost use Rattle.std.specs.Prelude.{[], ◌≡◌};
ghost use Rattle.arbiter.specs.Cycle as RoundRobinCalls;
ghost use Rattle.backlog.specs.Calls as BacklogCalls;
ghost use Rattle.bench_export.specs.Told.{given, told};
ghost use Rattle.engines.specs.declared.Engine.TheVariants as Engines;
ghost use Rattle.packed_scan.specs.Calls as PackedCalls;
ghost use Rattle.token_bus.specs.Calls as BusCalls;
ghost use Rattle.tree.specs.Calls as TreeCalls;

use arbiter::engine::RoundRobin;
use arbiter::refusal::Refusal;
use arbiter::{Granted, State};
use backlog::Backlog;
use engines::Engine;
use kogge_stone::KoggeStone;
use packed_scan::PackedScan;
use scan::Scan;
use thermometer::Thermometer;
use token_bus::TokenBus;
use tree::Tree;

// The state that these numbers say.
fn state(width: usize, picks: usize, kind: usize, head: usize) -> State
    ensures { result ≡ given width picks kind head }
{
    State {
        width,
        picks,
        head: if kind == 0 { None } else { Some(head) },
    }
}

// Tells the state after a cycle and what the cycle came to by eight numbers.
#[tactic(auto, using(crate::proofs::Eight::eight))]
fn put(state: &State, outcome: Result<Granted, Refusal>, out: &mut [usize; 8])
    ensures { out.new ≡ told (record { state = state.now; outcome = outcome }) }
{
    let (number, place, count, more) = match outcome {
        Ok(granted) => (0, 0, granted.count, granted.more),
        Err(refusal) => (refusal.number(), refusal.place(), 0, false),
    };
    out[0] = number;
    out[1] = place;
    out[2] = count;
    out[3] = state.width;
    out[4] = state.picks;
    out[5] = usize::from(state.head.is_some());
    out[6] = state.head.unwrap_or(0);
    out[7] = usize::from(more);
}

/// The plain scan.
#[unsafe(no_mangle)]
pub extern "C" fn ours_scan(
    width: usize,
    picks: usize,
    kind: usize,
    head: usize,
    requests: &[u8],
    grants: &mut [u8],
    extra: &mut [u8],
    acknowledge: u8,
    out: &mut [usize; 8],
)
    ensures answer { out.new ≡ told (RoundRobinCalls.cycle (given width picks kind head) requests.now grants.old).answer }
    ensures grants_after { grants.new ≡ (RoundRobinCalls.cycle (given width picks kind head) requests.now grants.old).written }
    ensures extra_stays { extra.new ≡ extra.old }
{
    let mut arbiter = Scan(state(width, picks, kind, head));
    let outcome = arbiter.advance(requests, grants);
    put(&arbiter.0, outcome, out);
}

/// The thermometer arbiter.
#[unsafe(no_mangle)]
pub extern "C" fn ours_thermometer(
    width: usize,
    picks: usize,
    kind: usize,
    head: usize,
    requests: &[u8],
    grants: &mut [u8],
    extra: &mut [u8],
    acknowledge: u8,
    out: &mut [usize; 8],
)
    ensures answer { out.new ≡ told (RoundRobinCalls.cycle (given width picks kind head) requests.now grants.old).answer }
    ensures grants_after { grants.new ≡ (RoundRobinCalls.cycle (given width picks kind head) requests.now grants.old).written }
    ensures extra_stays { extra.new ≡ extra.old }
{
    let mut arbiter = Thermometer(state(width, picks, kind, head));
    let outcome = arbiter.advance(requests, grants);
    put(&arbiter.0, outcome, out);
}

/// The Kogge-Stone arbiter.
#[unsafe(no_mangle)]
pub extern "C" fn ours_kogge_stone(
    width: usize,
    picks: usize,
    kind: usize,
    head: usize,
    requests: &[u8],
    grants: &mut [u8],
    extra: &mut [u8],
    acknowledge: u8,
    out: &mut [usize; 8],
)
    ensures answer { out.new ≡ told (RoundRobinCalls.cycle (given width picks kind head) requests.now grants.old).answer }
    ensures grants_after { grants.new ≡ (RoundRobinCalls.cycle (given width picks kind head) requests.now grants.old).written }
    ensures extra_stays { extra.new ≡ extra.old }
{
    let mut arbiter = KoggeStone(state(width, picks, kind, head));
    let outcome = arbiter.advance(requests, grants);
    put(&arbiter.0, outcome, out);
}

/// The tree; `extra` is the node buffer.
#[unsafe(no_mangle)]
pub extern "C" fn ours_tree(
    width: usize,
    picks: usize,
    kind: usize,
    head: usize,
    requests: &[u8],
    grants: &mut [u8],
    extra: &mut [u8],
    acknowledge: u8,
    out: &mut [usize; 8],
)
    ensures answer { out.new ≡ told (TreeCalls.cycle (given width picks kind head) requests.now grants.old extra.old).answer }
    ensures grants_after { grants.new ≡ (TreeCalls.cycle (given width picks kind head) requests.now grants.old extra.old).grants }
    ensures extra_after { extra.new ≡ (TreeCalls.cycle (given width picks kind head) requests.now grants.old extra.old).nodes }
{
    let mut arbiter = Tree(state(width, picks, kind, head));
    let outcome = arbiter.advance(requests, grants, extra);
    put(&arbiter.0, outcome, out);
}

/// The token bus.
#[unsafe(no_mangle)]
pub extern "C" fn ours_bus(
    width: usize,
    picks: usize,
    kind: usize,
    head: usize,
    requests: &[u8],
    grants: &mut [u8],
    extra: &mut [u8],
    acknowledge: u8,
    out: &mut [usize; 8],
)
    ensures answer { out.new ≡ told (BusCalls.cycle (given width picks kind head) requests.now grants.old acknowledge).answer }
    ensures grants_after { grants.new ≡ (BusCalls.cycle (given width picks kind head) requests.now grants.old acknowledge).written }
    ensures extra_stays { extra.new ≡ extra.old }
{
    let mut arbiter = TokenBus(state(width, picks, kind, head));
    let outcome = arbiter.advance(requests, grants, acknowledge);
    put(&arbiter.0, outcome, out);
}

/// The packed scan.
#[unsafe(no_mangle)]
pub extern "C" fn ours_packed(
    width: usize,
    picks: usize,
    kind: usize,
    head: usize,
    requests: &[u8],
    grants: &mut [u8],
    extra: &mut [u8],
    acknowledge: u8,
    out: &mut [usize; 8],
)
    ensures answer { out.new ≡ told (PackedCalls.cycle (given width picks kind head) requests.now grants.old).answer }
    ensures grants_after { grants.new ≡ (PackedCalls.cycle (given width picks kind head) requests.now grants.old).written }
    ensures extra_stays { extra.new ≡ extra.old }
{
    let mut arbiter = PackedScan(state(width, picks, kind, head));
    let outcome = arbiter.advance(requests, grants);
    put(&arbiter.0, outcome, out);
}

/// Messages waiting, by the plain scan: `requests` are the arrivals, `extra` the waiting numbers.
#[unsafe(no_mangle)]
pub extern "C" fn ours_backlog(
    width: usize,
    picks: usize,
    kind: usize,
    head: usize,
    requests: &[u8],
    grants: &mut [u8],
    extra: &mut [u32],
    acknowledge: u8,
    out: &mut [usize; 8],
)
    ensures answer { out.new ≡ told (BacklogCalls.cycle Engines.Scan (given width picks kind head) requests.now extra.old grants.old []).answer }
    ensures grants_after { grants.new ≡ (BacklogCalls.cycle Engines.Scan (given width picks kind head) requests.now extra.old grants.old []).grants }
    ensures extra_after { extra.new ≡ (BacklogCalls.cycle Engines.Scan (given width picks kind head) requests.now extra.old grants.old []).waiting }
{
    let mut arbiter = Backlog(state(width, picks, kind, head));
    let outcome = arbiter.advance(Engine::Scan, requests, extra, grants, &mut []);
    put(&arbiter.0, outcome, out);
}
