//! Runs a deck from standard input and prints its listing: a line for each instruction that finished, then the leap's three numbers; or, of a refused
//! deck, the refusal.
#![tactic(auto)]

use deck_run::Failure;
use machine::Record;
use refusal::Refusal;
use std::io;
use std::io::Read;
use std::process::ExitCode;

// One byte more than the longest deck has, so that a longer one is refused and not cut.
const MOST_BYTES: u64 = 65_521;

const LINES: usize = 65_535;

const RECORDS: usize = 1_024;

// Address, word, clocks, stalled lines, and 1 if an interrupt was acknowledged.
fn show_record(rt: &impl Print, record: Record) -> io::Result<()> {
    let Record {
        address,
        word,
        clocks,
        stalls,
        acknowledged,
    } = record;
    println!(rt; "{address:>8}{word:>11}{clocks:>3}{stalls:>6}{acknowledged:>2}")
}

fn show_answer(rt: &impl Print, answer: (u32, u32, u32), trace: &[Record]) -> io::Result<()> {
    let (used, written, more) = answer;
    for record in trace.iter().take(written as usize) {
        show_record(rt, *record)?;
    }
    println!(rt; "{written:>8}{used:>11}{more:>3}")
}

fn show_refusal(rt: &impl Print, refusal: Refusal) -> io::Result<()> {
    println!(rt;
        "{:>8}{:>11}{:>3}",
        refusal.number(),
        refusal.place(),
        refusal.layer()
    )
}

fn run(rt: &(impl Print + Input + AllocGlobal)) -> anyhow::Result<()> {
    let mut deck: Vec<u8> = Vec::new(rt.alloc());
    rt.reader().take(MOST_BYTES).read_to_end(&mut deck)?;
    let mut lines = vec![in rt.alloc(); 0u8; LINES]?;
    let mut trace = vec![in rt.alloc(); Record::default(); RECORDS]?;
    match deck_run::run(rt.alloc(), &deck, &mut lines, &mut trace) {
        Ok(answer) => show_answer(rt, answer, &trace)?,
        Err(Failure::Refused(refusal)) => show_refusal(rt, refusal)?,
        Err(failure) => return Err(failure.into()),
    }
    Ok(())
}

fn main(rt: HostRuntime) -> ExitCode {
    ending::of(&rt, "run_deck", run(&rt))
}
