//! Reads order lines from standard input and runs the house's checking program on each, by clock and by leap: on which clock the verdict was stored,
//! which quantity was read, and that both runs agree.
#![tactic(auto)]

mod house;

use house::{ByClock, ByLeap, Setting, Totals};
use order::Field;
use std::io;
use std::process::ExitCode;

fn tell_clock(rt: &impl Print, run: ByClock) -> io::Result<()> {
    let ByClock { stalls, outcome } = run;
    let instructions = outcome.instructions;
    let lines = house::LINES;
    println!(rt;
        "   By clock: {lines} lines, {instructions} instructions finished, {stalls} lines stalled."
    )
}

fn tell_leap(rt: &impl Print, run: ByLeap) -> io::Result<()> {
    let ByLeap {
        lines,
        totals,
        outcome,
    } = run;
    let Totals {
        clocks,
        stalls,
        acknowledged,
    } = totals;
    let instructions = outcome.instructions;
    println!(rt;
        "   By leap: {lines} lines used, {instructions} instructions recorded, {acknowledged} of them with an acknowledged tick;"
    )?;
    println!(rt;
        "      {clocks} clocks by the table and {stalls} stalls are {sum} lines.",
        sum = clocks.saturating_add(stalls)
    )
}

fn tell_agreement(rt: &impl Print, clocked: ByClock, leapt: ByLeap) -> io::Result<()> {
    if clocked.outcome == leapt.outcome {
        println!(rt; "   Both runs agree on instructions, registers, H, flags and verdict.")
    } else {
        println!(rt; "   The two runs DIFFER.")
    }
}

// One of the house's programs over the order's bytes.
fn tell_program(
    rt: &(impl Print + AllocGlobal),
    program: &[u32],
    field: Field,
) -> anyhow::Result<()> {
    let setting = || Setting::new(rt.alloc(), program, field);
    let clocked = setting()?.by_clock()?;
    let leapt = setting()?.by_leap()?;
    println!(rt;
        "   Quantity that the card read: {quantity}",
        quantity = clocked.outcome.quantity()
    )?;
    match clocked.outcome.verdict {
        Ok(verdict) => println!(rt; "   Verdict: {verdict}.")?,
        Err(none) => println!(rt; "   {none}.")?,
    }
    match setting()?.verdict_clock() {
        Some(clock) => println!(rt; "   The verdict was stored on clock {clock}.")?,
        None => println!(rt; "   No verdict was stored.")?,
    }
    tell_clock(rt, clocked)?;
    tell_leap(rt, leapt)?;
    tell_agreement(rt, clocked, leapt)?;
    Ok(())
}

fn tell(rt: &(impl Print + AllocGlobal), text: &str, field: Field) -> anyhow::Result<()> {
    println!(rt; "Order line: {text}")?;
    println!(rt;
        "The house's program on the card: it compares the quantity with its limit, {limit}, and stores its verdict.",
        limit = house::LIMIT
    )?;
    println!(rt;
        "{lines} lines, every third of them stalled, the tick up on every other sixteen; each tick is answered by an interrupt.",
        lines = house::LINES
    )?;
    println!(rt; "Reading the quantity by one word load:")?;
    tell_program(rt, &house::BY_WORD, field)?;
    println!(rt; "Reading it byte by byte, the first byte highest, as it was sent:")?;
    tell_program(rt, &house::BY_BYTES, field)
}

fn main(rt: HostRuntime) -> ExitCode {
    let outcome = order_lines::each(&rt, |text, field| tell(&rt, text, field));
    ending::of(&rt, "order_runs", outcome)
}
