// A whole use of the calls, which docs/CALLING.md walks through: a line of four stations with two picks.
#![tactic(auto)]

use arbiter::refusal::Refusal;
use arbiter::{Granted, State};
use engines::{Dispatch, Engine};
use snapshot::Snapshot;
use std::io;

fn main(rt: HostRuntime) -> io::Result<()> {
    let opened = Dispatch::open(Engine::Thermometer, 4, 2);
    if let Err(refusal) = opened.outcome {
        return println!(rt; "not opened: refused by {}", refusal.number());
    }
    let state = run(&rt, opened.state)?;
    let state = save(&rt, state)?;
    go_on(&rt, state)
}

// Some cycles of the thermometer arbiter, in place: each starts from the state that the one before has left.
fn run(rt: &impl Print, state: State) -> io::Result<State> {
    let mut line = Dispatch(state);
    let mut grants = [0; 4];
    let mut nodes = [0; 8];
    for requests in [[1, 1, 0, 1], [0, 0, 0, 1], [0, 0, 0, 0], [1, 0, 2, 1]] {
        let outcome = line.advance(Engine::Thermometer, &requests, &mut grants, &mut nodes);
        report(rt, outcome, &line.0, &grants)?;
    }
    Ok(line.0)
}

// Saves the state as six bytes, and reads it back.
fn save(rt: &impl Print, state: State) -> io::Result<State> {
    let mut saved = [0; 6];
    let written = Snapshot(state).write(&mut saved);
    if let Err(refusal) = written.outcome {
        println!(rt; "not saved: refused by {}", refusal.number())?;
    }
    println!(rt; "saved: {saved:?}")?;
    let restored = Snapshot::read(&saved);
    if let Err(refusal) = restored.outcome {
        println!(rt; "not read: refused by {}", refusal.number())?;
    }
    Ok(restored.state)
}

// The scan goes on where the thermometer arbiter left off. The tree has one pick, so it refuses a state with two.
fn go_on(rt: &impl Print, state: State) -> io::Result<()> {
    let mut line = Dispatch(state);
    let mut grants = [0; 4];
    let mut nodes = [0; 8];
    for engine in [Engine::Scan, Engine::Tree] {
        let outcome = line.advance(engine, &[1, 0, 1, 1], &mut grants, &mut nodes);
        report(rt, outcome, &line.0, &grants)?;
    }
    Ok(())
}

// Prints what a cycle came to, and whom it has granted.
fn report(
    rt: &impl Print,
    outcome: Result<Granted, Refusal>,
    state: &State,
    grants: &[u8],
) -> io::Result<()> {
    match outcome {
        Ok(granted) => {
            println!(rt;
                "{} granted: {grants:?}, next head {:?}, more pending: {}",
                granted.count, state.head, granted.more
            )
        }
        Err(refusal) => {
            println!(rt;
                "refused by {} at place {}",
                refusal.number(),
                refusal.place()
            )
        }
    }
}
