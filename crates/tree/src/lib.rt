//! The tree arbiter: a tree of nodes over the stations, joined from the leaves up to the root, and a descent from the root to the
//! station that is granted.
#![tactic(auto)]

mod descent;
mod nodes;
pub mod question;
pub mod theorems;

ghost use Rattle.std.specs.Prelude.{◌≡◌, ◌*◌, ◌≤◌, length, replicate, Ok};
ghost use Rattle.rules.specs.RoundRobin as RoundRobinRule;
ghost use Rattle.rules.specs.Tree as TreeRule;
ghost use Rattle.arbiter.specs.Answers as Answers;
ghost use Rattle.search.specs.Places as Places;
ghost use Rattle.arbiter.specs.Decisions.{requested, decision};
ghost use Rattle.arbiter.specs.Questions.{◌then◌};
ghost use Rattle.tree.specs.Calls as TreeCalls;
ghost use Rattle.tree.specs.Steps as TreeSteps;

use arbiter::engine::{Arbiter, ServedCycle};
use arbiter::question::Verdict;
use arbiter::refusal::Refusal;
use arbiter::{Answer, Decision, Granted, State, decide};
use nodes::Nodes;

/// A state that the tree serves.
#[derive(Clone, Copy)]
pub struct Tree(pub State);

impl Arbiter for Tree {
    ghost questions = { TreeCalls.state_questions };

    // Asks 1, 2, 3 and 4: widths 1 and 6 are refused by 2, two picks by 3.
    fn ask(state: &State) -> Verdict {
        question::state(state)
    }
}

impl Tree {
    /// Decides a cycle: writes the grants of these requests and the tree of the requests and the head, and answers with what is granted and
    /// the next head. The state stays as it is. Asks 1, 2, 3, 4, 5, 6, 7 and 8, in this order; refused, it leaves both buffers as they
    /// were. With 4 stations, head 2 and stations 0 and 1 asking it grants 0, writes the nodes 0 2 1 2 1 1 2 0, and answers with count 1,
    /// more pending and next head 1.
    #[tactic(auto, using(crate::specs::Calls::Laws::ready, crate::specs::Calls::Laws::tree_grants, crate::specs::Calls::Laws::tree_values), unfolding(crate::specs::Calls::cycle))]
    pub fn arbitrate(
        state: &State,
        requests: &[u8],
        grants: &mut [u8],
        nodes: &mut [u8],
    ) -> Result<Decision, Refusal>
        ensures value { Answers.answered state.now result ≡ (TreeCalls.cycle state.now requests.now grants.old nodes.old).answer }
        ensures grants_after { grants.new ≡ (TreeCalls.cycle state.now requests.now grants.old nodes.old).grants }
        ensures nodes_after { nodes.new ≡ (TreeCalls.cycle state.now requests.now grants.old nodes.old).nodes }
    {
        question::cycle(state, requests, grants.len(), nodes.len())?;
        let width = state.width;
        let mut cycle = ServedCycle {
            picks: state.picks,
            head: state.head,
            requests,
            grants,
        };
        let mut tree = Nodes {
            width,
            bytes: nodes,
        };
        tree.build(&cycle);
        let granted = grant(&tree, &mut cycle);
        let count = usize::from(granted.is_some());
        let more = cycle.pending(count);
        Ok(decide(width, state.head, count, granted, more))
    }

    /// A cycle in place: writes the grants of these requests and the tree of the requests and the head, takes the next head into the state,
    /// and answers with the count of the grants and whether more are pending. Asks 1, 2, 3, 4, 5, 6, 7 and 8, in this order; refused, it
    /// leaves the state and both buffers as they were. With 4 stations, head 2 and stations 0 and 1 asking it grants 0, writes the nodes
    /// 0 2 1 2 1 1 2 0, leaves head 1, and answers with count 1 and more pending.
    pub fn advance(
        &mut self,
        requests: &[u8],
        grants: &mut [u8],
        nodes: &mut [u8],
    ) -> Result<Granted, Refusal>
        ensures value { result ≡ (TreeCalls.cycle self.old.0 requests.now grants.old nodes.old).answer.outcome }
        ensures state_after { self.new.0 ≡ (TreeCalls.cycle self.old.0 requests.now grants.old nodes.old).answer.state }
        ensures grants_after { grants.new ≡ (TreeCalls.cycle self.old.0 requests.now grants.old nodes.old).grants }
        ensures nodes_after { nodes.new ≡ (TreeCalls.cycle self.old.0 requests.now grants.old nodes.old).nodes }
    {
        let decided = Tree::arbitrate(&self.0, requests, grants, nodes);
        self.0.settle(decided)
    }

    /// A cycle by value: the same as `advance`, with the state handed in and back. Asks 1, 2, 3, 4, 5, 6, 7 and 8, in this order; refused,
    /// it hands back the state that it was given, and leaves both buffers as they were. With 4 stations, head 2 and stations 0 and 1 asking
    /// it grants 0, writes the nodes 0 2 1 2 1 1 2 0, and answers with a state of head 1, count 1 and more pending.
    pub fn cycle(mut self, requests: &[u8], grants: &mut [u8], nodes: &mut [u8]) -> Answer<Granted>
        ensures value { result ≡ (TreeCalls.cycle self.0 requests.now grants.old nodes.old).answer }
        ensures grants_after { grants.new ≡ (TreeCalls.cycle self.0 requests.now grants.old nodes.old).grants }
        ensures nodes_after { nodes.new ≡ (TreeCalls.cycle self.0 requests.now grants.old nodes.old).nodes }
    {
        let outcome = self.advance(requests, grants, nodes);
        Answer {
            state: self.0,
            outcome,
        }
    }
}

// Writes the grant of the station that the descent reaches, if it asks, and answers with it.
#[tactic(auto, using(rules::proofs::Tree::Laws::reached_station, crate::specs::Steps::Laws::chosen_one, crate::specs::Steps::Laws::chosen_none, crate::specs::Steps::Laws::grants_one, crate::specs::Steps::Laws::grants_none))]
fn grant(tree: &Nodes, cycle: &mut ServedCycle<'_>) -> Option<usize>
    requires width_value { tree.now.width ≡ length cycle.old.requests.now }
    requires values { TreeSteps.Values tree.now.width tree.now.bytes.now }
    ensures value { result ≡ Places.first (TreeRule.chosen tree.now.width tree.now.bytes.now) }
    ensures same_picks { cycle.new.picks ≡ cycle.old.picks }
    ensures same_requests { cycle.new.requests.now ≡ cycle.old.requests.now }
    ensures same_reference { cycle.new.grants.ghost_name ≡ cycle.old.grants.ghost_name }
    ensures grants_after { cycle.new.grants.now ≡ TreeRule.grants tree.now.width tree.now.bytes.now }
{
    cycle.grants.fill(0);
    let station = tree.reached();
    let leaf = tree.width + station;
    if nodes::s0(tree.bytes[leaf]) {
        cycle.grants[station] = 1;
        return Some(station);
    }
    None
}
