//! Runs two machines on many programs by chance, and compares them: the core of crate `cpu`, by clock, by leap and by both in turns, and the
//! interpreter of crate `second`, which shares no code with it. Damaged lines and decks are compared by what they are refused for.
#![tactic(auto)]

mod cases;
mod chance;
mod course;
mod decks;
mod finished;
mod running;
mod runs;
mod tally;
mod trial;
mod words;

use cases::Length;
use chance::Random;
use std::alloc::{AllocError, Global};
use std::io;
use std::ops::Range;
use tally::{Counts, Report};
use trial::Trial;

// How many cases of each length there are, and how many decks.
const SHORT: u64 = 20_000;

const LONG: u64 = 150;

const WHOLE_FEEDS: u64 = 12;

const DECKS: u64 = 20_000;

// The case of a seed.
fn run_case(
    alloc: Global,
    seed: u64,
    length: Length,
    report: &mut Report,
) -> Result<(), AllocError> {
    let mut random = Random::new(seed);
    report.seed = seed;
    let trial = Trial::new(alloc, length, &mut random, report)?;
    report.count(&trial.course)?;
    runs::run_all(&trial, &mut random, report)
}

fn run_cases(
    alloc: Global,
    seeds: Range<u64>,
    length: Length,
    report: &mut Report,
) -> Result<(), AllocError> {
    for seed in seeds {
        run_case(alloc, seed, length, report)?;
    }
    Ok(())
}

fn compare_all(alloc: Global, report: &mut Report) -> Result<(), AllocError> {
    run_cases(alloc, 1..1 + SHORT, Length::Short, report)?;
    run_cases(alloc, 1_000_000..1_000_000 + LONG, Length::Long, report)?;
    run_cases(
        alloc,
        2_000_000..2_000_000 + WHOLE_FEEDS,
        Length::WholeFeed,
        report,
    )?;
    for seed in 3_000_000..3_000_000 + DECKS {
        decks::run(alloc, seed, report)?;
    }
    Ok(())
}

fn show_programs(rt: &impl Print, counts: &Counts) -> io::Result<()> {
    println!(rt;
        "programs: {programs}, each by clock, by leap, mixed, and by the second machine",
        programs = counts.programs.0
    )?;
    println!(rt;
        "lines: {lines}, {stalls} of them stalled",
        lines = counts.lines.0,
        stalls = counts.stalls.0
    )?;
    println!(rt;
        "calls: {clockings} clockings, {leaps} leaps",
        clockings = counts.clockings.0,
        leaps = counts.leaps.0
    )
}

fn show_finished(rt: &impl Print, report: &Report) -> io::Result<()> {
    let finished = &report.finished;
    let classes = &finished.classes;
    println!(rt;
        "instructions: {instructions}, {acknowledged} of them with an acknowledged tick",
        instructions = report.counts.instructions.0,
        acknowledged = classes.acknowledged.0
    )?;
    println!(rt;
        "  register operations: {operations}, {empty} of them the word 0; multiplies: {multiplies}; divides: {divides}",
        operations = classes.operations.0,
        empty = classes.empty.0,
        multiplies = classes.multiplies.0,
        divides = classes.divides.0
    )?;
    println!(rt;
        "  loads: {loads}; stores: {stores}; branches: {branches}, {returns} of them returns from interrupt",
        loads = classes.loads.0,
        stores = classes.stores.0,
        branches = classes.branches.0,
        returns = classes.returns.0
    )?;
    println!(rt;
        "  kinds of words: {kinds} of 256, each at least {rarest} times",
        kinds = finished.kinds(),
        rarest = finished.rarest()
    )
}

fn show_refusals(rt: &impl Print, report: &Report) -> io::Result<()> {
    println!(rt;
        "decks: {decks}, {loaded} of them loaded",
        decks = report.counts.decks.0,
        loaded = report.counts.loaded.0
    )?;
    print!(rt; "refusals by number:")?;
    for number in 5..=12 {
        let count = report.refusals.get(&number).map_or(0, |count| count.0);
        print!(rt; " {number}: {count}")?;
    }
    println!(rt)
}

fn show(rt: &impl Print, report: &Report) -> io::Result<()> {
    show_programs(rt, &report.counts)?;
    show_finished(rt, report)?;
    show_refusals(rt, report)?;
    for difference in &report.kept {
        println!(rt; "{difference}")?;
    }
    println!(rt;
        "comparisons: {compared}, differences: {differences}",
        compared = report.counts.compared.0,
        differences = report.counts.differences.0
    )
}

fn run(rt: &(impl Print + AllocGlobal)) -> anyhow::Result<()> {
    let mut report = Report::new(rt.alloc());
    compare_all(rt.alloc(), &mut report)?;
    show(rt, &report)?;
    Ok(())
}

fn main(rt: HostRuntime) -> anyhow::Result<()> {
    run(&rt)
}
