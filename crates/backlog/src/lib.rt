//! Messages waiting: a line model over the engines that grant by the round-robin rule. It has a number for each station, of messages
//! waiting; each cycle adds the arrivals, lets every station ask that has a message waiting, and takes one from each granted station.
#![tactic(auto)]

mod question;
pub mod theorems;

ghost use Rattle.std.specs.Prelude.{ℕ, true, ◌≡◌, ◌≤◌, ◌<◌, ◌+◌, length, get_or};
ghost use Rattle.arbiter.specs.Decisions.{requested};
ghost use Rattle.search.specs.Places.{Bits};
ghost use Rattle.backlog.specs.Calls as BacklogCalls;

use arbiter::refusal::Refusal;
use arbiter::{Answer, Granted, MAX_WIDTH, State};
use engines::Engine;

// A cycle with no more stations than this makes a small array of requests.
const FEW: usize = 64;

/// A state that any of the engines may serve.
#[derive(Clone, Copy)]
pub struct Backlog(pub State);

impl Backlog {
    /// A cycle of an engine in place: adds the arrivals to the waiting numbers, writes the grants of the stations that then have a message
    /// waiting, and the tree its nodes, takes one message from each granted station, takes the next head into the state, and answers with
    /// the count of the grants and whether more are pending. Asks 1, 3, 4, 5, 6, 15 and 16, in this order, the tree 2 after 1 and 7 after
    /// 15; refused, it leaves the state and all three buffers as they were. With 4 stations, one pick, head 2, waiting numbers 3 0 0 0 and
    /// arrivals 0 1 0 0 each engine grants 0, leaves 2 1 0 0 waiting and head 1, and answers with count 1 and more pending.
    #[tactic(auto, using(crate::specs::Calls::Laws::lent_passed, crate::specs::Calls::Laws::passed_cycle, crate::specs::Calls::Laws::granted_bits, crate::specs::Calls::Laws::granted_wait))]
    pub fn advance(
        &mut self,
        engine: Engine,
        arrivals: &[u8],
        waiting: &mut [u32],
        grants: &mut [u8],
        nodes: &mut [u8],
    ) -> Result<Granted, Refusal>
        ensures value { result ≡ (BacklogCalls.cycle engine self.old.0 arrivals.now waiting.old grants.old nodes.old).answer.outcome }
        ensures state_after { self.new.0 ≡ (BacklogCalls.cycle engine self.old.0 arrivals.now waiting.old grants.old nodes.old).answer.state }
        ensures waiting_after { waiting.new ≡ (BacklogCalls.cycle engine self.old.0 arrivals.now waiting.old grants.old nodes.old).waiting }
        ensures grants_after { grants.new ≡ (BacklogCalls.cycle engine self.old.0 arrivals.now waiting.old grants.old nodes.old).grants }
        ensures nodes_after { nodes.new ≡ (BacklogCalls.cycle engine self.old.0 arrivals.now waiting.old grants.old nodes.old).nodes }
    {
        let state = &self.0;
        question::cycle(engine, state, arrivals, waiting, grants.len(), nodes.len())?;
        let decided = if state.width <= FEW {
            let mut room = [0; FEW];
            let requests = receive(arrivals, waiting, &mut room);
            engine.arbitrate(state, requests, grants, nodes)
        } else {
            let mut room = [0; MAX_WIDTH];
            let requests = receive(arrivals, waiting, &mut room);
            engine.arbitrate(state, requests, grants, nodes)
        };
        take(grants, waiting);
        self.0.settle(decided)
    }

    /// A cycle of an engine by value: the same as `advance`, with the state handed in and back. Asks 1, 3, 4, 5, 6, 15 and 16, in this
    /// order, the tree 2 after 1 and 7 after 15; refused, it hands back the state that it was given, and leaves all three buffers as they
    /// were. With 4 stations, one pick, head 2, waiting numbers 3 0 0 0 and arrivals 0 1 0 0 each engine grants 0, leaves 2 1 0 0 waiting,
    /// and answers with a state of head 1, count 1 and more pending.
    pub fn cycle(
        mut self,
        engine: Engine,
        arrivals: &[u8],
        waiting: &mut [u32],
        grants: &mut [u8],
        nodes: &mut [u8],
    ) -> Answer<Granted>
        ensures value { result ≡ (BacklogCalls.cycle engine self.0 arrivals.now waiting.old grants.old nodes.old).answer }
        ensures waiting_after { waiting.new ≡ (BacklogCalls.cycle engine self.0 arrivals.now waiting.old grants.old nodes.old).waiting }
        ensures grants_after { grants.new ≡ (BacklogCalls.cycle engine self.0 arrivals.now waiting.old grants.old nodes.old).grants }
        ensures nodes_after { nodes.new ≡ (BacklogCalls.cycle engine self.0 arrivals.now waiting.old grants.old nodes.old).nodes }
    {
        let outcome = self.advance(engine, arrivals, waiting, grants, nodes);
        Answer {
            state: self.0,
            outcome,
        }
    }
}

// Adds the arrivals to the waiting numbers, and lets every station ask that then has a message waiting: writes the requests at the start of
// `room`, and lends them on. One pass, since reading the numbers is most of a large cycle's time. By index: of what is written through `zip`
// a proof knows the length alone.
fn receive<'a>(arrivals: &[u8], waiting: &mut [u32], room: &'a mut [u8]) -> &'a [u8]
    requires arrivals_len { length arrivals.now ≡ length waiting.old }
    requires room_len { length waiting.old ≤ length room.old }
    requires fitting { (i : ℕ) → i < length waiting.old → get_or waiting.old i 0 + get_or arrivals.now i 0 ≤ BacklogCalls.max_waiting }
    ensures waiting_after { waiting.new ≡ BacklogCalls.arrived waiting.old arrivals.now }
    ensures value { result.now ≡ BacklogCalls.requests (BacklogCalls.arrived waiting.old arrivals.now) }
{
    let requests = &mut room[..waiting.len()];
    for i in 0..waiting.len() {
        let number = waiting[i] + u32::from(arrivals[i]);
        waiting[i] = number;
        requests[i] = u8::from(number != 0);
    }
    requests
}

// Takes one from each granted station, whose byte is 1.
fn take(grants: &[u8], waiting: &mut [u32])
    requires grants_len { length grants.now ≡ length waiting.old }
    requires bits { Bits grants.now }
    requires some { (i : ℕ) → i < length waiting.old → requested grants.now i ≡ true → 1 ≤ get_or waiting.old i 0 }
    ensures { waiting.new ≡ BacklogCalls.taken waiting.old grants.now }
{
    for i in 0..waiting.len() {
        waiting[i] -= u32::from(grants[i]);
    }
}
