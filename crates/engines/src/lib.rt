//! The plain scan, the tree, the thermometer arbiter and the Kogge-Stone arbiter behind one set of calls, which name the engine.
#![tactic(auto)]

pub mod theorems;

ghost use Rattle.std.specs.Prelude.{◌≡◌};
ghost use Rattle.arbiter.specs.Answers as Answers;
ghost use Rattle.engines.specs.Calls as EngineCalls;

use arbiter::engine::{Arbiter, RoundRobin};
use arbiter::question::Verdict;
use arbiter::refusal::Refusal;
use arbiter::{Answer, Decision, Granted, State};
use kogge_stone::KoggeStone;
use rules::Head;
use scan::Scan;
use thermometer::Thermometer;
use tree::Tree;
use tree::question::nodes_length;

/// The engines that grant by the round-robin rule.
#[derive(Clone, Copy, Debug, PartialEq, Eq)]
pub enum Engine {
    Scan,
    Tree,
    Thermometer,
    KoggeStone,
}

impl Engine {
    /// The questions about a state: what the engine's own opening asks, 1, 3 and 4, the tree 2 after 1.
    pub fn ask(self, state: &State) -> Verdict
        ensures { result ≡ EngineCalls.state_questions self state.now }
    {
        match self {
            Engine::Scan => Scan::ask(state),
            Engine::Tree => Tree::ask(state),
            Engine::Thermometer => Thermometer::ask(state),
            Engine::KoggeStone => KoggeStone::ask(state),
        }
    }

    /// The question about a node buffer of this length: the tree asks 7, the others nothing.
    pub fn ask_nodes(self, width: usize, length: usize) -> Verdict
        ensures { result ≡ EngineCalls.nodes_question self width length }
    {
        match self {
            Engine::Scan | Engine::Thermometer | Engine::KoggeStone => Ok(()),
            Engine::Tree => nodes_length(width, length),
        }
    }

    /// Decides a cycle of the engine: writes the grants of these requests, and the tree its nodes, and answers with what is granted and the
    /// next head. The state stays as it is. Asks 1, 3, 4, 5, 6 and 8, in this order, the tree 2 after 1 and 7 after 6; refused, it leaves
    /// both buffers as they were. With 4 stations, one pick, head 2 and stations 0 and 1 asking, each engine grants 0, and answers with
    /// count 1, more pending and next head 1.
    pub fn arbitrate(
        self,
        state: &State,
        requests: &[u8],
        grants: &mut [u8],
        nodes: &mut [u8],
    ) -> Result<Decision, Refusal>
        ensures value { Answers.answered state.now result ≡ (EngineCalls.cycle self state.now requests.now grants.old nodes.old).answer }
        ensures grants_after { grants.new ≡ (EngineCalls.cycle self state.now requests.now grants.old nodes.old).grants }
        ensures nodes_after { nodes.new ≡ (EngineCalls.cycle self state.now requests.now grants.old nodes.old).nodes }
    {
        match self {
            Engine::Scan => Scan::arbitrate(state, requests, grants),
            Engine::Tree => Tree::arbitrate(state, requests, grants, nodes),
            Engine::Thermometer => Thermometer::arbitrate(state, requests, grants),
            Engine::KoggeStone => KoggeStone::arbitrate(state, requests, grants),
        }
    }

    // Opens the engine with this head or none.
    fn opening(self, width: usize, picks: usize, head: Head) -> Answer<()>
        ensures { result ≡ EngineCalls.opening self width picks head }
    {
        match self {
            Engine::Scan => Scan::opening(width, picks, head),
            Engine::Tree => Tree::opening(width, picks, head),
            Engine::Thermometer => Thermometer::opening(width, picks, head),
            Engine::KoggeStone => KoggeStone::opening(width, picks, head),
        }
    }
}

/// A state that any of these engines may serve.
#[derive(Clone, Copy)]
pub struct Dispatch(pub State);

impl Dispatch {
    /// Opens an engine with no head. Asks what the engine's own opening asks: 1, 3 and 4, the tree 2 after 1.
    pub fn open(engine: Engine, width: usize, picks: usize) -> Answer<()>
        ensures { result ≡ EngineCalls.opening engine width picks None }
    {
        engine.opening(width, picks, None)
    }

    /// Opens an engine with a head. Asks the same.
    pub fn open_at(engine: Engine, width: usize, picks: usize, head: usize) -> Answer<()>
        ensures { result ≡ EngineCalls.opening engine width picks (Some head) }
    {
        engine.opening(width, picks, Some(head))
    }

    /// A cycle of an engine in place: writes the grants of these requests, and the tree its nodes, takes the next head into the state, and
    /// answers with the count of the grants and whether more are pending. Asks 1, 3, 4, 5, 6 and 8, in this order, the tree 2 after 1 and 7
    /// after 6; refused, it leaves the state and both buffers as they were. With 4 stations, one pick, head 2 and stations 0 and 1 asking,
    /// each engine grants 0, leaves head 1, and answers with count 1 and more pending.
    pub fn advance(
        &mut self,
        engine: Engine,
        requests: &[u8],
        grants: &mut [u8],
        nodes: &mut [u8],
    ) -> Result<Granted, Refusal>
        ensures value { result ≡ (EngineCalls.cycle engine self.old.0 requests.now grants.old nodes.old).answer.outcome }
        ensures state_after { self.new.0 ≡ (EngineCalls.cycle engine self.old.0 requests.now grants.old nodes.old).answer.state }
        ensures grants_after { grants.new ≡ (EngineCalls.cycle engine self.old.0 requests.now grants.old nodes.old).grants }
        ensures nodes_after { nodes.new ≡ (EngineCalls.cycle engine self.old.0 requests.now grants.old nodes.old).nodes }
    {
        let decided = engine.arbitrate(&self.0, requests, grants, nodes);
        self.0.settle(decided)
    }

    /// A cycle of an engine by value: the same as `advance`, with the state handed in and back. Asks 1, 3, 4, 5, 6 and 8, in this order,
    /// the tree 2 after 1 and 7 after 6; refused, it hands back the state that it was given, and leaves both buffers as they were. With 4
    /// stations, one pick, head 2 and stations 0 and 1 asking, each engine grants 0, and answers with a state of head 1, count 1 and more
    /// pending.
    pub fn cycle(
        mut self,
        engine: Engine,
        requests: &[u8],
        grants: &mut [u8],
        nodes: &mut [u8],
    ) -> Answer<Granted>
        ensures value { result ≡ (EngineCalls.cycle engine self.0 requests.now grants.old nodes.old).answer }
        ensures grants_after { grants.new ≡ (EngineCalls.cycle engine self.0 requests.now grants.old nodes.old).grants }
        ensures nodes_after { nodes.new ≡ (EngineCalls.cycle engine self.0 requests.now grants.old nodes.old).nodes }
    {
        let outcome = self.advance(engine, requests, grants, nodes);
        Answer {
            state: self.0,
            outcome,
        }
    }
}
