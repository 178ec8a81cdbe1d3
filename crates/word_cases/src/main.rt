//! Reads cases from standard input, one a line, and prints each with what the card makes of it.
//!
//! A case is a name and numbers in hexadecimal, with blanks between them. WORD is an instruction word; B, C and H are the values of R.b,
//! R.c and H. Flags are one digit, in which N counts 8, Z 4, C 2 and V 1; other switches are 0 or 1.
//!
//!     fields WORD                       its kind, clocks, bits and fields
//!     kinds WORD                        kind and clocks of the sixteen words that differ from it in op alone, for op 0 to 15
//!     op WORD B C H FLAGS               a register operation: operand n, value and flags after it
//!     load WORD B SHOWN FLAGS           a load that is shown a word: byte address, word address, value and flags after it
//!     store WORD B VALUE                a store: byte address, word address, word sent and marks, byte 0 first
//!     taken WORD                        whether a branch is taken, under the flags 0 to F
//!     branch WORD PC C FLAGS ENABLE     a branch: where it goes (if it does not return), link, flags, whether it returns, and enable
//!     unit WORD B C FLAGS LEAD CLOSING  a multiply or divide: its words by all steps at once, clock by clock with LEAD clocks before the
//!                                       first step and CLOSING after the last, and natively; flags after it
//!     pair WORD B C LEAD TOTAL          a multiply or divide: its pair after a wait of TOTAL clocks
//!
//! Any other line ends the run with a message.
#![tactic(auto)]

use anyhow::{Context, anyhow, bail};

mod units;
mod words;

use words::Given;

// The numbers stay a slice up to here, and no type for each case: this table is all that such a type would say. What several cases share is `Given`.
fn case(rt: &impl Print, name: &str, numbers: &[u32]) -> anyhow::Result<()> {
    match (name, numbers) {
        ("fields", &[word]) => words::fields(rt, word),
        ("kinds", &[word]) => words::kinds(rt, word),
        ("op", &[word, b, c, h, flags]) => words::op(rt, Given::new(word, b, c), h, flags),
        ("load", &[word, b, shown, flags]) => words::load(rt, word, b, shown, flags),
        ("store", &[word, b, value]) => words::store(rt, word, b, value),
        ("taken", &[word]) => words::taken(rt, word),
        ("branch", &[word, pc, c, flags, enable]) => words::branch(rt, word, pc, c, flags, enable),
        ("unit", &[word, b, c, flags, lead, closing]) => {
            units::unit(rt, Given::new(word, b, c), flags, lead, closing)
        }
        ("pair", &[word, b, c, lead, total]) => {
            units::pair(rt, Given::new(word, b, c), lead, total)
        }
        _ => bail!("no such case, or not as many numbers"),
    }
}

fn read_case(rt: &(impl Print + AllocGlobal), text: &str) -> anyhow::Result<()> {
    let mut parts = text.split_whitespace();
    let name = parts.next().context("an empty line")?;
    let mut numbers = Vec::new(rt.alloc());
    for part in parts {
        numbers.push(u32::from_str_radix(part, 16)?)?;
    }
    print!(rt; "{text} ->")?;
    case(rt, name, numbers.as_slice())
}

fn run(rt: &(impl Print + Input + AllocGlobal)) -> anyhow::Result<()> {
    for (number, text) in (1u64..).zip(rt.lines(rt.alloc())) {
        let text = text?;
        read_case(rt, text.as_str()).map_err(|error| anyhow!("line {number}: {error}"))?;
    }
    Ok(())
}

fn main(rt: HostRuntime) -> anyhow::Result<()> {
    run(&rt)
}
