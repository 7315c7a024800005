//! The token bus: a cycle grants the first station that asks from the token on, and the token moves by one when the grant is
//! acknowledged.
#![tactic(auto)]

mod question;
pub mod theorems;

ghost use Rattle.std.specs.Prelude.{cond, ◌≡◌, ◌+◌, ◌%◌, ◌<◌, length, replicate, Ok};
ghost use Rattle.rules.specs.Bus as BusRule;
ghost use Rattle.rules.specs.RoundRobin.{start};
ghost use Rattle.arbiter.specs.Answers as Answers;
ghost use Rattle.arbiter.specs.Decisions.{requested};
ghost use Rattle.search.specs.Places as Places;
ghost use Rattle.search.specs.Places.{highest};
ghost use Rattle.arbiter.specs.Questions.{◌then◌};
ghost use Rattle.token_bus.specs.Calls as BusCalls;

use arbiter::engine::{Arbiter, ServedCycle};
use arbiter::question::Verdict;
use arbiter::refusal::Refusal;
use arbiter::{Answer, Decision, Granted, State, first_station, headed, past};
use search::first_one;

/// A state that the token bus serves. Its head is the token.
#[derive(Clone, Copy)]
pub struct TokenBus(pub State);

impl Arbiter for TokenBus {
    ghost questions = { BusCalls.state_questions };

    // Asks 1, 3 and 4, and 4 refuses a state without a token: two picks are refused by 3, and of 4 stations token 4 by 4.
    fn ask(state: &State) -> Verdict {
        question::state(state)
    }
}

impl TokenBus {
    /// Decides a cycle: writes the grant of these requests, and answers with what is granted and the next token. The state stays as it is.
    /// Asks 1, 3, 4, 5, 6, 8 and 9, in this order; refused, it leaves the grants as they were. With 4 stations, token 2 and stations 0 and
    /// 1 asking it grants 0, and answers with count 1, more pending, and next token 3 where acknowledge is 1, 2 where it is 0.
    // Where the highest byte of the requests is 0 nobody asks, and the token stays.
    #[tactic(auto, using(crate::specs::Calls::Laws::allowed))]
    pub fn arbitrate(
        state: &State,
        requests: &[u8],
        grants: &mut [u8],
        acknowledge: u8,
    ) -> Result<Decision, Refusal>
        ensures value { Answers.answered state.now result ≡ (BusCalls.cycle state.now requests.now grants.old acknowledge).answer }
        ensures grants_after { grants.new ≡ (BusCalls.cycle state.now requests.now grants.old acknowledge).written }
    {
        question::state(state)?;
        let high = arbiter::question::cycle(state.width, requests, grants.len())?;
        question::acknowledge(acknowledge)?;
        if high == 0 {
            grants.fill(0);
            return Ok(headed(state.head));
        }
        let mut cycle = ServedCycle {
            picks: state.picks,
            head: state.head,
            requests,
            grants,
        };
        Ok(grant(&mut cycle, acknowledge == 1))
    }

    /// A cycle in place: writes the grant of these requests, takes the next token into the state, and answers with the count of grants and
    /// whether more are pending. Asks 1, 3, 4, 5, 6, 8 and 9, in this order; refused, it leaves state and grants as they were. With 4
    /// stations, token 2 and stations 0 and 1 asking it grants 0, leaves token 3 where acknowledge is 1 and 2 where it is 0, and answers
    /// with count 1 and more pending.
    pub fn advance(
        &mut self,
        requests: &[u8],
        grants: &mut [u8],
        acknowledge: u8,
    ) -> Result<Granted, Refusal>
        ensures value { result ≡ (BusCalls.cycle self.old.0 requests.now grants.old acknowledge).answer.outcome }
        ensures state_after { self.new.0 ≡ (BusCalls.cycle self.old.0 requests.now grants.old acknowledge).answer.state }
        ensures grants_after { grants.new ≡ (BusCalls.cycle self.old.0 requests.now grants.old acknowledge).written }
    {
        let decided = TokenBus::arbitrate(&self.0, requests, grants, acknowledge);
        self.0.settle(decided)
    }

    /// A cycle by value: the same as `advance`, with the state handed in and back. Asks 1, 3, 4, 5, 6, 8 and 9, in this order; refused, it
    /// hands back the state that it was given, and leaves the grants as they were. With 4 stations, token 2, stations 0 and 1 asking and
    /// acknowledge 1 it grants 0, and answers with a state of token 3, count 1 and more pending.
    pub fn cycle(mut self, requests: &[u8], grants: &mut [u8], acknowledge: u8) -> Answer<Granted>
        ensures value { result ≡ (BusCalls.cycle self.0 requests.now grants.old acknowledge).answer }
        ensures grants_after { grants.new ≡ (BusCalls.cycle self.0 requests.now grants.old acknowledge).written }
    {
        let outcome = self.advance(requests, grants, acknowledge);
        Answer {
            state: self.0,
            outcome,
        }
    }
}

// Writes the grant of a cycle, and says what it decides: the token stays where nobody is granted.
#[tactic(auto, using(crate::specs::Calls::Laws::idle_decides, crate::specs::Calls::Laws::idle_grants, crate::specs::Calls::Laws::granted_grants))]
fn grant(cycle: &mut ServedCycle<'_>, acknowledged: bool) -> Decision
    requires { cycle.old.picks ≡ 1 }
    ensures value { result ≡ BusCalls.decision (length cycle.old.requests.now) (start cycle.old.head) acknowledged (requested cycle.old.requests.now) }
    ensures same_reference { cycle.new.grants.ghost_name ≡ cycle.old.grants.ghost_name }
    ensures grants_after { cycle.new.grants.now ≡ BusRule.grants (length cycle.old.requests.now) (start cycle.old.head) (requested cycle.old.requests.now) }
{
    let width = cycle.requests.len();
    cycle.grants.fill(0);
    let token = first_station(cycle.head);
    let Some(station) = first_request(token, cycle.requests) else {
        return headed(Some(token));
    };
    cycle.grants[station] = 1;
    let more = cycle.pending(1);
    Decision {
        count: 1,
        next: Some(pass(width, token, acknowledged)),
        more,
    }
}

// The first station that asks in the order from the token, or none. Where none from the token to the last asks, it is the first that
// asks at all.
fn first_request(token: usize, requests: &[u8]) -> Option<usize>
    requires token_in_bounds { token < length requests.now }
    ensures { result ≡ Places.first (BusRule.granted (length requests.now) token (requested requests.now)) }
{
    first_one(token, requests).or_else(|| first_one(0, requests))
}

// The next token: one past `token`, modulo the width, if it moves, and else `token`.
fn pass(width: usize, token: usize, moves: bool) -> usize
    requires { token < width }
    ensures { result ≡ cond moves ((token + 1) % width) token }
{
    if moves { past(width, token) } else { token }
}
