// The test program. It runs the calls on known inputs, and against the model of the crate `reference`. For each group it prints
// how many cases there are and how many differ, and above that line the numbers of the first of these. The module of a group says
// how a number is taken apart.
#![tactic(auto)]

mod compare;
mod conversions;
mod engine;
mod known;
mod model;
mod packed;
mod program;
mod refusals;
mod report;
mod running;
mod runs;
mod small;
mod sums;
mod tables;
mod texts;
mod waiting;
mod waiting_known;
mod waiting_runs;
mod walk;

use engine::{Engine, WIDEST};
use program::Program;
use refusals::Call;
use runs::Run;
use std::io;
use tables::{Table, Walk};
use walk::numbers;

fn main(rt: HostRuntime) -> io::Result<()> {
    documents(&rt)?;
    small_inputs(&rt)?;
    long_runs(&rt)?;
    packed_scan(&rt)?;
    messages_waiting(&rt)?;
    adder(&rt)?;
    refused(&rt)?;
    converted(&rt)?;
    let mut program = Program::new();
    texts::first_lines(&rt, &mut program)?;
    texts::cycle_lines(&rt, &mut program)?;
    texts::long_inputs(&rt, &mut program)
}

// The known turns of 01, and the tables of the source documents.
fn documents(rt: &impl Print) -> io::Result<()> {
    numbers(rt, "known turns", known::CASES, known::case)?;
    for (name, table) in [
        ("tree, table 2 of 000", Table::Table2),
        ("tree, table II of 002", Table::TableII),
        ("tree, equation 13 of 002", Table::Equation13),
    ] {
        let mut walk = Walk::new(table);
        numbers(rt, name, tables::CASES, |i| walk.case(i))?;
    }
    numbers(
        rt,
        "tree, worked example of 000",
        known::EXAMPLE.len(),
        |i| known::EXAMPLE.get(i).map(known::node_buffer),
    )?;
    numbers(
        rt,
        "adder, truth table of 001",
        sums::TRUTH_TABLE.len(),
        |i| sums::TRUTH_TABLE.get(i).map(sums::known),
    )
}

// The engines on every small input.
fn small_inputs(rt: &impl Print) -> io::Result<()> {
    for (name, engine) in [
        ("scan, every input for widths 1 to 8", engine::SCAN),
        ("tree, every input for widths 2, 4 and 8", engine::TREE),
        (
            "thermometer, every input for widths 1 to 8",
            engine::THERMOMETER,
        ),
        (
            "Kogge-Stone, every input for widths 1 to 8",
            engine::KOGGE_STONE,
        ),
        ("bus, every input for widths 1 to 8", Engine::Bus),
    ] {
        numbers(rt, name, small::CASES, |i| small::case(engine, i))?;
    }
    Ok(())
}

// The engines on runs.
fn long_runs(rt: &impl Print) -> io::Result<()> {
    for (name, engine) in [
        ("scan, runs on widths 1 to 1024", engine::SCAN),
        ("tree, runs on widths 2 to 1024", engine::TREE),
        ("thermometer, runs on widths 1 to 1024", engine::THERMOMETER),
        ("Kogge-Stone, runs on widths 1 to 1024", engine::KOGGE_STONE),
        ("bus, runs on widths 1 to 1024", Engine::Bus),
        ("packed scan, runs on widths 1 to 1024", Engine::Packed),
    ] {
        let mut run = Run::new(engine);
        numbers(rt, name, runs::CASES, |i| run.case(i))?;
    }
    Ok(())
}

// The packed scan, beside the plain one.
fn packed_scan(rt: &impl Print) -> io::Result<()> {
    numbers(
        rt,
        "packed scan, known cycles",
        packed::CYCLES.len(),
        |i| packed::CYCLES.get(i).map(packed::known),
    )?;
    numbers(
        rt,
        "packed scan, every input for widths 1 to 12",
        packed::CASES,
        packed::case,
    )
}

// The cycle with messages waiting.
fn messages_waiting(rt: &impl Print) -> io::Result<()> {
    numbers(
        rt,
        "messages waiting, known cycles",
        waiting_known::CASES,
        waiting_known::case,
    )?;
    for (name, engine) in [
        (
            "messages waiting, scan, every input for widths 1 to 4",
            engines::Engine::Scan,
        ),
        (
            "messages waiting, tree, every input for widths 2 and 4",
            engines::Engine::Tree,
        ),
        (
            "messages waiting, thermometer, every input for widths 1 to 4",
            engines::Engine::Thermometer,
        ),
        (
            "messages waiting, Kogge-Stone, every input for widths 1 to 4",
            engines::Engine::KoggeStone,
        ),
    ] {
        numbers(rt, name, waiting::CASES, |i| waiting::case(engine, i))?;
    }
    let mut run = waiting_runs::Run::new();
    numbers(
        rt,
        "messages waiting, runs on widths 1 to 1024",
        waiting_runs::CASES,
        |i| run.case(i),
    )
}

// The adder, alone and as the running codes of a cycle.
fn adder(rt: &impl Print) -> io::Result<()> {
    numbers(
        rt,
        "adder, all pairs of bytes for 0 to 9 picks",
        sums::CASES,
        sums::case,
    )?;
    numbers(
        rt,
        "adder, codes of counts and counts of bytes",
        sums::CODES,
        sums::code,
    )?;
    numbers(
        rt,
        "running codes, examples of 001",
        running::EXAMPLES.len(),
        |i| running::EXAMPLES.get(i).map(running::known),
    )?;
    numbers(
        rt,
        "running codes, every input for widths 1 to 8",
        running::CASES,
        running::case,
    )
}

// Every refusal of every call.
fn refused(rt: &impl Print) -> io::Result<()> {
    for (name, call) in [
        ("opening without a head, refusals", Call::Open),
        ("opening with a head, refusals", Call::OpenAt),
        ("cycle, refusals", Call::Cycle),
        ("reading an image, refusals", Call::ReadOneHot),
        ("writing an image, refusals", Call::WriteOneHot),
        ("reading a snapshot, refusals", Call::ReadSnapshot),
        ("writing a snapshot, refusals", Call::WriteSnapshot),
        ("adder, refusals", Call::Add),
        (
            "reading a short snapshot, refusals",
            Call::ReadShortSnapshot,
        ),
        ("cycle with messages waiting, refusals", Call::Backlog),
    ] {
        numbers(rt, name, refusals::CASES, |i| refusals::case(call, i))?;
    }
    Ok(())
}

// The image and the snapshot of a state.
fn converted(rt: &impl Print) -> io::Result<()> {
    numbers(rt, "one-hot image, each way", conversions::CASES, |i| {
        conversions::case(i, WIDEST, conversions::images)
    })?;
    numbers(rt, "snapshot, each way", conversions::CASES, |i| {
        conversions::case(i, WIDEST, conversions::snapshots)
    })?;
    numbers(rt, "short snapshot, read", conversions::CASES, |i| {
        conversions::case(i, conversions::SHORT_WIDEST, conversions::short_snapshots)
    })?;
    numbers(
        rt,
        "snapshots of four and six bytes, written down",
        conversions::SAVED.len(),
        |i| conversions::SAVED.get(i).map(conversions::known),
    )
}
