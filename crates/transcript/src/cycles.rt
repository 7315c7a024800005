//! Opening an engine, and its cycle lines.
ghost use Rattle.std.specs.Prelude.{◌≡◌, ◌+◌, ◌*◌, ◌≤◌, ◌==◌, true, map, length, get_or, replicate};
ghost use Rattle.std.specs.Fn.{ComputesKey};
ghost use Rattle.std.specs.Slice.Iter.{split_callee};
ghost use Rattle.text.specs.Characters.{line_feed};
ghost use Rattle.text.specs.Output.{Written};
ghost use Rattle.arbiter.specs.Answers as Answers;
ghost use Rattle.arbiter.specs.Questions.{max_width};
ghost use Rattle.engines.specs.Calls as EngineCalls;
ghost use Rattle.token_bus.specs.Calls as BusCalls;
ghost use Rattle.transcript.specs.Cycles as Cycles;
ghost use Rattle.transcript.specs.Lines as Lines;
ghost use Rattle.transcript.specs.Text as Text;

use crate::first_line::Kind;
use crate::output;
use arbiter::engine::Arbiter;
use arbiter::refusal::Refusal;
use arbiter::{Answer, Decision, Granted, MAX_WIDTH, State, first_station};
use engines::{Dispatch, Engine};
use std::slice::Split;
use text::Output;
use token_bus::TokenBus;

// Opens an engine without a head, the bus with token 0.
pub(crate) fn open(kind: Kind, width: usize, picks: usize) -> Answer<()>
    ensures { result ≡ Cycles.opening kind width picks }
{
    match kind {
        Kind::RoundRobin(engine) => Dispatch::open(engine, width, picks),
        Kind::TokenBus => TokenBus::open_at(width, picks, 0),
    }
}

// How far a run has come: what runs, its state, and the number of the next line, which each line moves on with the state. An
// `enumerate` over the lines would carry it beside them; tried, and the proof of the loop's start did not close.
#[derive(Clone, Copy)]
pub(crate) struct Progress {
    pub(crate) kind: Kind,
    pub(crate) state: State,
    pub(crate) number: usize,
    ghost wide: { state.width ≤ max_width },
}

impl Progress {
    // Runs the cycle lines that are left, and writes what each prints.
    pub(crate) fn print_lines<P: FnMut(&u8) -> bool>(
        mut self,
        lines: Split<'_, u8, P>,
        out: &mut Output,
    )
        requires at_line_feeds { ComputesKey P.FnMut (λ byte. byte == line_feed) (split_callee lines) }
        requires callable { P.IsAlwaysCallable (split_callee lines) }
        requires lines_bound { self.number + length (Lines.left lines) ≤ Text.max_input + 1 }
        ensures { Written out.old (Cycles.run self.kind self.state self.number (Lines.left lines.entry)) out.new }
    {
        for line in lines {
            self.print_line(line, out);
        }
    }

    // One cycle line: runs it, writes what it prints, and goes on to the next.
    #[tactic(auto, using(std::proofs::lemmas::List::take_at, crate::specs::Cycles::Laws::cycle_printable), unfolding(crate::specs::Cycles::printed))]
    fn print_line(&mut self, line: &[u8], out: &mut Output)
        requires number_bound { self.old.number ≤ Text.max_input + 1 }
        ensures written { Written out.old (Cycles.printed self.old.number (Cycles.cycle self.old.kind self.old.state line.now)) out.new }
        ensures same_kind { self.new.kind ≡ self.old.kind }
        ensures state_value { self.new.state ≡ (Cycles.cycle self.old.kind self.old.state line.now).answer.state }
        ensures number_value { self.new.number ≡ self.old.number + 1 }
    {
        let mut grants = [0u8; MAX_WIDTH];
        let width = self.state.width;
        let outcome = self.advance(line, &mut grants[..width]);
        let next = first_station(self.state.head);
        output::put_cycle(self.number, outcome, &grants[..width], next, out);
        self.number += 1;
    }

    // The cycle of one line in place, with a grant buffer of zeros: decides it, and takes the next head into the state.
    #[tactic(auto, using(crate::specs::Cycles::Laws::cycle_width), unfolding(crate::specs::Cycles::cycle))]
    fn advance(&mut self, line: &[u8], grants: &mut [u8]) -> Result<Granted, Refusal>
        requires { grants.old ≡ replicate self.old.state.width 0 }
        ensures value { result ≡ (Cycles.cycle self.old.kind self.old.state line.now).answer.outcome }
        ensures state_after { self.new.state ≡ (Cycles.cycle self.old.kind self.old.state line.now).answer.state }
        ensures same_kind { self.new.kind ≡ self.old.kind }
        ensures same_number { self.new.number ≡ self.old.number }
        ensures grants_after { grants.new ≡ (Cycles.cycle self.old.kind self.old.state line.now).written }
    {
        let decided = decide(self.kind, &self.state, line, grants);
        self.state.settle(decided)
    }
}

// Decides the cycle of one line, with a grant buffer of zeros; the state stays. Question 5 lets a line pass that has as many characters
// as there are stations; on the bus, a space and the acknowledge character after them. Only the tree asks about the node buffer.
#[tactic(auto, unfolding(crate::specs::Cycles::cycle))]
fn decide(kind: Kind, state: &State, line: &[u8], grants: &mut [u8]) -> Result<Decision, Refusal>
    requires wide { state.now.width ≤ max_width }
    requires zeros { grants.old ≡ replicate state.now.width 0 }
    ensures value { Answers.answered state.now result ≡ (Cycles.cycle kind state.now line.now).answer }
    ensures grants_after { grants.new ≡ (Cycles.cycle kind state.now line.now).written }
{
    let Some((stations, rest)) = line.split_at_checked(state.width) else {
        return Err(Refusal::ReadLength);
    };
    match (kind, rest) {
        (Kind::RoundRobin(engine), []) => by_engine(engine, state, stations, grants),
        (Kind::TokenBus, [b' ', acknowledge]) => {
            on_bus(state, stations, wire(*acknowledge), grants)
        }
        _ => Err(Refusal::ReadLength),
    }
}

// What an engine decides of a line of this many stations. The requests have their array here, so that a line that is refused by its
// length clears none.
fn by_engine(
    engine: Engine,
    state: &State,
    stations: &[u8],
    grants: &mut [u8],
) -> Result<Decision, Refusal>
    requires wide { state.now.width ≤ max_width }
    requires long { length stations.now ≡ state.now.width }
    requires zeros { grants.old ≡ replicate state.now.width 0 }
    ensures value { Answers.answered state.now result ≡ (EngineCalls.cycle engine state.now (map Cycles.wire stations.now) (replicate state.now.width 0) (replicate (2 * state.now.width) 0)).answer }
    ensures grants_after { grants.new ≡ (EngineCalls.cycle engine state.now (map Cycles.wire stations.now) (replicate state.now.width 0) (replicate (2 * state.now.width) 0)).grants }
{
    let mut requests = [0u8; MAX_WIDTH];
    let requests = &mut requests[..state.width];
    read_wires(stations, requests);
    let mut nodes = [0; 2 * MAX_WIDTH];
    let end = 2 * state.width;
    engine.arbitrate(state, requests, grants, &mut nodes[..end])
}

// What the bus decides of such a line and an acknowledge byte.
fn on_bus(
    state: &State,
    stations: &[u8],
    acknowledge: u8,
    grants: &mut [u8],
) -> Result<Decision, Refusal>
    requires wide { state.now.width ≤ max_width }
    requires long { length stations.now ≡ state.now.width }
    requires zeros { grants.old ≡ replicate state.now.width 0 }
    ensures value { Answers.answered state.now result ≡ (BusCalls.cycle state.now (map Cycles.wire stations.now) (replicate state.now.width 0) acknowledge).answer }
    ensures grants_after { grants.new ≡ (BusCalls.cycle state.now (map Cycles.wire stations.now) (replicate state.now.width 0) acknowledge).written }
{
    let mut requests = [0u8; MAX_WIDTH];
    let requests = &mut requests[..state.width];
    read_wires(stations, requests);
    TokenBus::arbitrate(state, requests, grants, acknowledge)
}

// The bytes that the characters of the stations stand for. They are written by index, since of a slice that comes back from
// `iter_mut().zip` only the length is known.
fn read_wires(line: &[u8], requests: &mut [u8])
    requires { length requests.old ≡ length line.now }
    ensures { requests.new ≡ map Cycles.wire line.now }
{
    for (i, character) in line.iter().enumerate() {
        requests[i] = wire(*character);
    }
}

// The byte that a character stands for: any but 0 and 1 for byte 2, which no call takes for a wire.
#[tactic(auto, unfolding(crate::specs::Cycles::wire))]
fn wire(character: u8) -> u8
    ensures { result ≡ Cycles.wire character }
{
    match character {
        b'0' => 0,
        b'1' => 1,
        _ => 2,
    }
}
