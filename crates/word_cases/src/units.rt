//! Cases on the step units: all steps at once, clock by clock, and natively.
use crate::words;
use crate::words::Given;
use alu::write_flags;
use anyhow::bail;
use isa::{Flags, Kind};
use unit::divider::Divider;
use unit::multiplier::Multiplier;
use unit::{AtOnce, Division, Factors, Pair, StepUnit, Words, waiting};

// The pair that a wait of `total` clocks ends with, and the clocks that it took until it did not go on.
fn wait<U: StepUnit<Pair = Pair>>(operands: U::Operands, lead: u16, total: u16) -> (Pair, u32) {
    let mut pair = Pair::default();
    for s in 0..u16::MAX {
        pair = waiting::carried::<U>(lead, operands, s, pair);
        if !waiting::goes_on(s, total) {
            return (pair, u32::from(s) + 1);
        }
    }
    (pair, u32::from(u16::MAX))
}

// The same words in three ways.
#[derive(Clone, Copy, PartialEq, Eq, Debug)]
struct Ways {
    at_once: Words,
    by_clocks: Words,
    clocks: u32,
    native: Words,
}

fn ways_of<U: AtOnce<Pair = Pair, Answer = Words>>(
    operands: U::Operands,
    lead: u16,
    closing: u16,
) -> Ways {
    let total = lead.saturating_add(U::STEPS).saturating_add(closing);
    let (pair, clocks) = wait::<U>(operands, lead, total);
    Ways {
        at_once: waiting::run::<U>(operands),
        by_clocks: U::result(operands, pair),
        clocks,
        native: U::at_once(operands),
    }
}

// What a word asks of a unit.
#[derive(Clone, Copy, PartialEq, Eq, Debug)]
enum Work {
    Multiply(Factors),
    Divide(Division),
}

fn work_of(given: Given) -> anyhow::Result<Work> {
    let Given { instruction, b, .. } = given;
    match instruction.kind() {
        Kind::Multiply => Ok(Work::Multiply(Factors {
            first: b,
            second: given.n(),
            signed: !instruction.u(),
        })),
        Kind::Divide => Ok(Work::Divide(Division {
            dividend: b,
            divisor: given.n(),
        })),
        _ => bail!("the word is no multiply or divide"),
    }
}

fn tell(rt: &impl Print, ways: Ways, flags: Flags) -> anyhow::Result<()> {
    let after = u8::from(write_flags(ways.native.low, flags));
    print!(rt;
        " at once {:08X} {:08X}",
        ways.at_once.low, ways.at_once.high
    )?;
    print!(rt;
        ", in {} clocks {:08X} {:08X}",
        ways.clocks, ways.by_clocks.low, ways.by_clocks.high
    )?;
    println!(rt;
        ", natively {:08X} {:08X}, flags {after:X}",
        ways.native.low, ways.native.high
    )?;
    Ok(())
}

pub(crate) fn unit(
    rt: &impl Print,
    given: Given,
    digit: u32,
    lead: u32,
    closing: u32,
) -> anyhow::Result<()> {
    let flags = words::flags_from(digit)?;
    let lead = u16::try_from(lead)?;
    let closing = u16::try_from(closing)?;
    let ways = match work_of(given)? {
        Work::Multiply(factors) => ways_of::<Multiplier>(factors, lead, closing),
        Work::Divide(division) => ways_of::<Divider>(division, lead, closing),
    };
    tell(rt, ways, flags)
}

pub(crate) fn pair(rt: &impl Print, given: Given, lead: u32, total: u32) -> anyhow::Result<()> {
    let lead = u16::try_from(lead)?;
    let total = u16::try_from(total)?;
    let (pair, clocks) = match work_of(given)? {
        Work::Multiply(factors) => wait::<Multiplier>(factors, lead, total),
        Work::Divide(division) => wait::<Divider>(division, lead, total),
    };
    println!(rt; " after {clocks} clocks {} {:08X}", pair.high, pair.low)?;
    Ok(())
}
