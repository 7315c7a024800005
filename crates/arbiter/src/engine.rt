//! What arbiters do alike. Each is a state that its kind serves, and a call is a method on it.
ghost use lib.Pointwise.{pointwise};
ghost use Rattle.std.specs.Prelude.{eqb, not, nat_eq, ◌&&◌, ◌≡◌, length, Ok};
ghost use Rattle.rules.specs.RoundRobin as RoundRobinRule;
ghost use Rattle.arbiter.specs.declared.State as States;
ghost use Rattle.arbiter.specs.Answers as Answers;
ghost use Rattle.arbiter.specs.Cycle as RoundRobinCalls;
ghost use Rattle.arbiter.specs.Decisions.{requested, decision};
ghost use Rattle.arbiter.specs.Questions as Questions;
ghost use Rattle.arbiter.specs.Questions.{◌then◌};
ghost use Rattle.rules.specs.RoundRobin.{start};
ghost use Rattle.search.specs.Places.{Bits};
ghost use Rattle.std.specs.Prelude.{◌≤◌, ◌<◌};

use crate::question::Verdict;
use crate::refusal::Refusal;
use crate::{Answer, Decision, Granted, State, idle, opened, question};
use rules::Head;

/// An arbiter: what it asks about a state, and how it opens.
pub trait Arbiter: Copy {
    ghost questions: { States.State → Questions.Verdict };

    /// The questions about a state, in their order.
    // It has no default: what it promises is the arbiter's own.
    fn ask(state: &State) -> Verdict
        ensures { result ≡ questions state.now };

    /// Opens with no head. Asks what the arbiter asks about a state: each asks 1 and 3, so a width of 1,025 is refused by 1, nine picks
    /// by 3.
    final fn open(width: usize, picks: usize) -> Answer<()>
        ensures { result ≡ (let s = Answers.made width picks None in Answers.opened (questions s) s) }
    {
        Self::opening(width, picks, None)
    }

    /// Opens with a head. Asks the same: of 4 stations, head 4 is refused by 4.
    final fn open_at(width: usize, picks: usize, head: usize) -> Answer<()>
        ensures { result ≡ (let s = Answers.made width picks (Some head) in Answers.opened (questions s) s) }
    {
        Self::opening(width, picks, Some(head))
    }

    /// Opens with this head or none.
    final fn opening(width: usize, picks: usize, head: Head) -> Answer<()>
        ensures { result ≡ (let s = Answers.made width picks head in Answers.opened (questions s) s) }
    {
        let state = State { width, picks, head };
        opened(Self::ask(&state).map(|()| state))
    }
}

/// A cycle that no question refuses: picks and head of its state, a request for each station, and the grant buffer, which may hold
/// anything. What the questions have answered is true of each such value, so whatever takes one has nothing to ask.
#[derive(Drop)]
pub struct ServedCycle<'a> {
    pub picks: usize,
    pub head: Head,
    pub requests: &'a [u8],
    pub grants: &'a mut [u8],
    ghost width_bound: { length requests.now ≤ Questions.max_width },
    ghost picked: { 1 ≤ picks },
    ghost picks_bound: { picks ≤ Questions.max_picks },
    ghost picks_le_width: { picks ≤ length requests.now },
    ghost head_bound: { start head < length requests.now },
    ghost grants_len: { length grants.now ≡ length requests.now },
    ghost bits: { Bits requests.now },
}

impl ServedCycle<'_> {
    /// Whether more are pending, where the grants are written and `count` stations are granted: if all picks are used, and somebody asks
    /// who is not granted.
    pub fn pending(&self, count: usize) -> bool
        ensures { result ≡ (eqb count self.now.picks && not (pointwise nat_eq self.now.requests.now self.now.grants.now)) }
    {
        count == self.picks && differ(self.requests, self.grants)
    }
}

// Whether these bytes are not the same ones. The two are lent for times of their own, so the comparison stands in a function.
fn differ(left: &[u8], right: &[u8]) -> bool
    ensures { result ≡ not (pointwise nat_eq left.now right.now) }
{
    *left != *right
}

/// An arbiter that grants by the round-robin rule, a byte for each station, with the state that it serves. Three functions run a cycle:
/// `arbitrate` decides it and leaves the state, `advance` moves the state in place, and `cycle` takes the state and hands it back.
pub trait RoundRobin: Arbiter {
    ghost state_of: { Self → States.State };

    /// The state.
    // This and the next have no default, since a trait sees no field.
    fn state(&self) -> &State
        ensures { result.now ≡ state_of self.now };

    /// Takes the next head where a cycle was decided. It says what is granted, or the refusal.
    fn settle(&mut self, decided: Result<Decision, Refusal>) -> Result<Granted, Refusal>
        ensures value { result ≡ (Answers.answered (state_of self.old) decided).outcome }
        ensures state_after { state_of self.new ≡ (Answers.answered (state_of self.old) decided).state };

    /// Writes the grants of a cycle, and says what it decides. Nothing else of the cycle changes.
    fn grant(cycle: &mut ServedCycle<'_>) -> Decision
        ensures value { result ≡ decision (length cycle.old.requests.now) cycle.old.picks cycle.old.head (requested cycle.old.requests.now) }
        ensures same_picks { cycle.new.picks ≡ cycle.old.picks }
        ensures same_head { cycle.new.head ≡ cycle.old.head }
        ensures same_requests { cycle.new.requests.now ≡ cycle.old.requests.now }
        ensures same_reference { cycle.new.grants.ghost_name ≡ cycle.old.grants.ghost_name }
        ensures grants_after { cycle.new.grants.now ≡ RoundRobinRule.grants (length cycle.old.requests.now) cycle.old.picks cycle.old.head (requested cycle.old.requests.now) };

    /// Decides a cycle: writes the grants of these requests, and answers with what is granted and the next head. The state stays as it
    /// is. Asks 1, 3, 4, 5, 6 and 8, in this order; refused, it leaves the grants as they were. With 4 stations, 2 picks, head 3 and all
    /// asking it grants 3 and 0, and answers with count 2, more pending and next head 1.
    // Where the highest byte of the requests is 0 nobody asks.
    final fn arbitrate(
        state: &State,
        requests: &[u8],
        grants: &mut [u8],
    ) -> Result<Decision, Refusal>
        ensures value { Answers.answered state.now result ≡ (RoundRobinCalls.cycle state.now requests.now grants.old).answer }
        ensures grants_after { grants.new ≡ (RoundRobinCalls.cycle state.now requests.now grants.old).written }
    {
        question::state(state)?;
        let high = question::cycle(state.width, requests, grants.len())?;
        if high == 0 {
            grants.fill(0);
            return Ok(idle(state.width, state.head));
        }
        let mut cycle = ServedCycle {
            picks: state.picks,
            head: state.head,
            requests,
            grants,
        };
        Ok(Self::grant(&mut cycle))
    }

    /// A cycle in place: writes the grants of these requests, takes the next head into the state, and answers with the count of the grants
    /// and whether more are pending. Asks 1, 3, 4, 5, 6 and 8, in this order; refused, it leaves state and grants as they were. With 4
    /// stations, 2 picks, head 3 and all asking it grants 3 and 0, leaves head 1, and answers with count 2 and more pending.
    final fn advance(&mut self, requests: &[u8], grants: &mut [u8]) -> Result<Granted, Refusal>
        ensures value { result ≡ (RoundRobinCalls.cycle (state_of self.old) requests.now grants.old).answer.outcome }
        ensures state_after { state_of self.new ≡ (RoundRobinCalls.cycle (state_of self.old) requests.now grants.old).answer.state }
        ensures grants_after { grants.new ≡ (RoundRobinCalls.cycle (state_of self.old) requests.now grants.old).written }
    {
        let decided = Self::arbitrate(self.state(), requests, grants);
        self.settle(decided)
    }

    /// A cycle by value: the same as `advance`, with the state handed in and back. Asks 1, 3, 4, 5, 6 and 8, in this order; refused, it
    /// hands back the state that it was given, and leaves the grants as they were. With 4 stations, 2 picks, head 3 and all asking it
    /// grants 3 and 0, and answers with a state of head 1, count 2 and more pending.
    final fn cycle(mut self, requests: &[u8], grants: &mut [u8]) -> Answer<Granted>
        ensures value { result ≡ (RoundRobinCalls.cycle (state_of self) requests.now grants.old).answer }
        ensures grants_after { grants.new ≡ (RoundRobinCalls.cycle (state_of self) requests.now grants.old).written }
    {
        let outcome = self.advance(requests, grants);
        Answer {
            state: *self.state(),
            outcome,
        }
    }
}
