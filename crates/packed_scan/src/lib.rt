//! The packed scan: requests and grants eight stations to a byte, and one pick. It looks for the first station that asks a byte at
//! a time, by a table.
#![tactic(auto)]

mod lines;
mod question;
mod table;
pub mod theorems;

ghost use Rattle.std.specs.Prelude.{◌++◌, ◌≡◌, ◌*◌, ◌≤◌, ◌<◌, length, replicate, Ok};
ghost use Rattle.rules.specs.Packing.{packed_length, pack, unpack};
ghost use Rattle.rules.specs.RoundRobin as RoundRobinRule;
ghost use Rattle.rules.specs.RoundRobin.{start};
ghost use Rattle.arbiter.specs.Answers as Answers;
ghost use Rattle.arbiter.specs.Decisions.{requested, decision};
ghost use Rattle.search.specs.Places as Places;
ghost use Rattle.arbiter.specs.Questions as Questions;
ghost use Rattle.arbiter.specs.Questions.{◌then◌};
ghost use Rattle.packed_scan.specs.Calls as PackedCalls;
ghost use Rattle.packed_scan.specs.Lines.{Packed, set_lines};

use arbiter::engine::Arbiter;
use arbiter::question::Verdict;
use arbiter::refusal::Refusal;
use arbiter::{Answer, Decision, Granted, State, decide, first_station, idle};
use rules::Head;
use search::highest;

/// A state that the packed scan serves.
#[derive(Clone, Copy)]
pub struct PackedScan(pub State);

impl Arbiter for PackedScan {
    ghost questions = { PackedCalls.state_questions };

    // Asks 1, 3 and 4; two picks are refused by 3.
    fn ask(state: &State) -> Verdict {
        question::state(state)
    }
}

impl PackedScan {
    /// Decides a cycle: writes the grant of these requests, both packed, and answers with what is granted and the next head. The state
    /// stays as it is. Asks 1, 3, 4, 5, 6 and 14, in this order; refused, it leaves the grants as they were. With 11 stations, head 8 and
    /// stations 0 and 3 asking, request bytes 9 0, it grants 0, grant bytes 1 0, and answers with count 1, more pending and next head 1.
    #[tactic(auto, using(crate::specs::Calls::Laws::ready))]
    pub fn arbitrate(state: &State, requests: &[u8], grants: &mut [u8]) -> Result<Decision, Refusal>
        ensures value { Answers.answered state.now result ≡ (PackedCalls.cycle state.now requests.now grants.old).answer }
        ensures grants_after { grants.new ≡ (PackedCalls.cycle state.now requests.now grants.old).written }
    {
        question::cycle(state, requests, grants.len())?;
        grants.fill(0);
        Ok(grant(state.width, state.head, requests, grants))
    }

    /// A cycle in place: writes the grant of these requests, both packed, takes the next head into the state, and answers with the count of
    /// grants and whether more are pending. Asks 1, 3, 4, 5, 6 and 14, in this order; refused, it leaves state and grants as they were.
    /// With 11 stations, head 8 and stations 0 and 3 asking, request bytes 9 0, it grants 0, grant bytes 1 0, leaves head 1, and answers
    /// with count 1 and more pending.
    pub fn advance(&mut self, requests: &[u8], grants: &mut [u8]) -> Result<Granted, Refusal>
        ensures value { result ≡ (PackedCalls.cycle self.old.0 requests.now grants.old).answer.outcome }
        ensures state_after { self.new.0 ≡ (PackedCalls.cycle self.old.0 requests.now grants.old).answer.state }
        ensures grants_after { grants.new ≡ (PackedCalls.cycle self.old.0 requests.now grants.old).written }
    {
        let decided = PackedScan::arbitrate(&self.0, requests, grants);
        self.0.settle(decided)
    }

    /// A cycle by value: the same as `advance`, with the state handed in and back. Asks 1, 3, 4, 5, 6 and 14, in this order; refused, it
    /// hands back the state that it was given, and leaves the grants as they were. With 11 stations, head 8 and stations 0 and 3 asking,
    /// request bytes 9 0, it grants 0, grant bytes 1 0, and answers with a state of head 1, count 1 and more pending.
    pub fn cycle(mut self, requests: &[u8], grants: &mut [u8]) -> Answer<Granted>
        ensures value { result ≡ (PackedCalls.cycle self.0 requests.now grants.old).answer }
        ensures grants_after { grants.new ≡ (PackedCalls.cycle self.0 requests.now grants.old).written }
    {
        let outcome = self.advance(requests, grants);
        Answer {
            state: self.0,
            outcome,
        }
    }
}

// A cycle that no question refuses, with a grant buffer that is all 0.
#[tactic(auto, using(crate::specs::Lines::Laws::none_decides, crate::specs::Lines::Laws::none_grants, crate::specs::Lines::Laws::one_below, crate::specs::Lines::Laws::one_decides, crate::specs::Lines::Laws::one_grants))]
fn grant(width: usize, head: Head, requests: &[u8], grants: &mut [u8]) -> Decision
    requires head_bound { start head < width }
    requires packed { Packed width requests.now }
    requires grants_value { grants.old ≡ replicate (packed_length width) 0 }
    ensures value { result ≡ decision width 1 head (requested (unpack width requests.now)) }
    ensures grants_after { grants.new ≡ pack (RoundRobinRule.grants width 1 head (requested (unpack width requests.now))) }
{
    let first = first_station(head);
    let Some(station) = first_request(first, requests) else {
        return idle(width, head);
    };
    grants[station / 8] = lines::single(station);
    let more = *requests != *grants;
    decide(width, head, 1, Some(station), more)
}

// The first station that asks from `first` on and then round, or none. In the byte of `first` it looks from that line on. Where none
// of these asks, nor any station at all, there is none; else it looks at the next byte that is not 0, the byte of `first` last.
#[tactic(auto, using(crate::specs::Lines::Laws::round_some, crate::specs::Lines::Laws::round_quiet, crate::specs::Lines::Laws::highest_zero, crate::specs::Lines::Laws::next_none, crate::specs::Lines::Laws::round_other))]
fn first_request(first: usize, requests: &[u8]) -> Option<usize>
    requires first_bound { first < 8 * length requests.now }
    requires requests_len_bound { length requests.now ≤ Questions.max_width }
    ensures { result ≡ Places.first (set_lines first requests.now ++ set_lines 0 requests.now) }
{
    if let Some(station) = lines::first_in_byte(first, requests) {
        return Some(station);
    }
    if highest(requests) == 0 {
        return None;
    }
    let byte = lines::next_byte(first / 8, requests)?;
    lines::first_in_byte(8 * byte, requests)
}
