//! The state of an arbiter, the answer of a call, the questions that most calls ask, what a cycle decides, and what all arbiters do alike.
#![tactic(auto)]

pub mod engine;
pub mod question;
pub mod refusal;
pub mod theorems;

ghost use Rattle.std.specs.Prelude.{[], false, ◌≡◌};
ghost use Rattle.rules.specs.RoundRobin.{start};
ghost use Rattle.arbiter.specs.Answers as Answers;
ghost use Rattle.arbiter.specs.Decisions as Decisions;

use refusal::Refusal;
use rules::Head;

/// The most stations.
pub const MAX_WIDTH: usize = 1024;

/// The most picks in one cycle.
pub const MAX_PICKS: usize = 8;

/// The state of an arbiter: the number of stations, the most grants in one cycle, and the head. The default has no station, no pick and
/// no head.
#[derive(Clone, Copy, Debug, Default, PartialEq, Eq)]
pub struct State {
    pub width: usize,
    pub picks: usize,
    pub head: Head,
}

/// What a served cycle grants: to how many stations, and whether another one asks, so that more are pending.
#[derive(Clone, Copy, Debug, PartialEq, Eq)]
pub struct Granted {
    pub count: usize,
    pub more: bool,
}

/// What a call answers that is given a state by value, or makes one: the state to go on from, and what the call came to. Served, a cycle
/// comes to what it grants, and another call to nothing; refused, each comes to its refusal. A refused call hands back the state that it
/// was given, and one that was to make a state returns width 0, no picks and no head. A cycle of 4 stations, 2 picks and head 3, in
/// which all ask, answers with a state of head 1, count 2 and more pending.
#[derive(Clone, Copy, Debug, PartialEq, Eq)]
pub struct Answer<T> {
    pub state: State,
    pub outcome: Result<T, Refusal>,
}

/// What a cycle decides, apart from any state: to how many stations it grants, the next head, and whether another station asks.
// Field by field, without a `Granted` inside: with one, a cycle of the Kogge-Stone arbiter of 8 stations took a tenth longer.
#[derive(Clone, Copy, Debug, PartialEq, Eq)]
pub struct Decision {
    pub count: usize,
    pub next: Head,
    pub more: bool,
}

impl State {
    /// Takes the next head where a cycle was decided, and stays where it was refused. It says what is granted, or the refusal.
    pub fn settle(&mut self, decided: Result<Decision, Refusal>) -> Result<Granted, Refusal>
        ensures value { result ≡ (Answers.answered self.old decided).outcome }
        ensures state_after { self.new ≡ (Answers.answered self.old decided).state }
    {
        let decision = decided?;
        self.head = decision.next;
        Ok(Granted {
            count: decision.count,
            more: decision.more,
        })
    }
}

/// The answer of a call that makes a state: served it returns the state, refused it returns width 0, no picks and no head.
pub fn opened(made: Result<State, Refusal>) -> Answer<()>
    ensures { result ≡ Answers.opens made }
{
    Answer {
        state: made.unwrap_or_default(),
        outcome: made.map(|_| ()),
    }
}

/// What is decided where no one is granted and no more are pending, with this for the next head.
pub fn headed(head: Head) -> Decision
    ensures { result ≡ Decisions.headed head }
{
    Decision {
        count: 0,
        next: head,
        more: false,
    }
}

/// What a cycle decides in which nobody asks: a head stays, and no head becomes the last station, or 0 where there is no station.
#[tactic(auto, using(rules::proofs::RoundRobin::Laws::after_idle))]
pub fn idle(width: usize, head: Head) -> Decision
    ensures { result ≡ Decisions.deciding width head [] false }
{
    headed(Some(head.unwrap_or(width.saturating_sub(1))))
}

/// What a cycle decides that grants `count` stations, `last` the last of them: the next head is one past it. `more` says whether
/// another one asks. With no last nobody asks.
pub fn decide(width: usize, head: Head, count: usize, last: Option<usize>, more: bool) -> Decision
    ensures { result ≡ Decisions.counted width head count last more }
{
    let Some(station) = last else {
        return idle(width, head);
    };
    Decision {
        count,
        next: Some(past(width, station)),
        more,
    }
}

/// One past a station: 0 after the last, or after a number that is no station's.
pub fn past(width: usize, station: usize) -> usize
    ensures { result ≡ Decisions.past width station }
{
    if station < width.saturating_sub(1) {
        return station + 1;
    }
    0
}

/// The station that comes first in the order: the head, or 0 where there is none.
#[tactic(auto, using(rules::proofs::RoundRobin::Laws::start_is))]
pub fn first_station(head: Head) -> usize
    ensures { result ≡ start head }
{
    head.unwrap_or(0)
}
