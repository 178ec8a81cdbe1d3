//! Loads decks from a table of cases on standard input and tells what each leaves: a row of the table is a case,
//!
//!     LABEL;WORDS;LINES;COUNT*TEXT;COUNT*TEXT;..
//!
//! a deck of each text so many times, loaded over so many words that are 0, registers that are 0, and so many lines that are 255.
//! In a text `\n` is a newline and `\xHH` the byte with these two hexadecimal digits.
#![tactic(auto)]

ghost use Rattle.std.specs.Prelude.{◌≤◌, length};
ghost use Rattle.std.specs.Str.Iter.{bytes_rest};

use anyhow::{Context, bail};
use deck::loading::load;
use std::alloc::{AllocError, Global};
use std::io;
use std::str::Bytes;

// More bytes than any deck may have, so that no case takes more.
const MOST_BYTES: usize = 70_000;

// A hexadecimal digit, in capitals.
fn digit(byte: u8) -> Option<u8> {
    if byte.is_ascii_lowercase() {
        return None;
    }
    let digit = char::from(byte).to_digit(16)?;
    u8::try_from(digit).ok()
}

// The byte that an escape says by what follows its backslash, if it says one.
fn escaped(rest: &mut Bytes<'_>) -> Option<u8>
    ensures { length (bytes_rest rest.new) ≤ length (bytes_rest rest.old) }
{
    match rest.next()? {
        b'x' => {
            let high = digit(rest.next()?)?;
            let low = digit(rest.next()?)?;
            Some(high << 4 | low)
        }
        b'n' => Some(b'\n'),
        byte => Some(byte),
    }
}

fn push_text(bytes: &mut Vec<u8>, text: &str) -> Result<(), AllocError> {
    let mut rest = text.bytes();
    while let Some(byte) = rest.next() {
        match byte {
            b'\\' => bytes.extend(escaped(&mut rest))?,
            _ => bytes.push(byte)?,
        }
    }
    Ok(())
}

// A part of a case, COUNT*TEXT.
fn push_part(bytes: &mut Vec<u8>, part: &str) -> anyhow::Result<()> {
    let (count, text) = part
        .split_once('*')
        .context("a part of a case is COUNT*TEXT")?;
    for _ in 0..count.parse::<u16>()? {
        if bytes.len() < MOST_BYTES {
            push_text(bytes, text)?;
        }
    }
    Ok(())
}

// Each value that is not 0, with its place.
fn show_set(rt: &impl Print, name: &str, values: &[u32]) -> io::Result<()> {
    print!(rt; "; {name}")?;
    for (place, value) in values.iter().enumerate() {
        if *value != 0 {
            print!(rt; " {place}={value}")?;
        }
    }
    Ok(())
}

// Lines as runs of equal ones.
fn show_lines(rt: &impl Print, lines: &[u8]) -> io::Result<()> {
    print!(rt; "; lines")?;
    for run in lines.chunk_by(|a, b| a == b) {
        if let Some(value) = run.first() {
            print!(rt; " {value}*{}", run.len())?;
        }
    }
    println!(rt)
}

// A row of the table: a deck, and over how many words and lines it is loaded.
#[derive(Drop)]
struct Case<'a> {
    label: &'a str,
    words: u16,
    lines: u16,
    deck: Vec<u8>,
}

impl<'a> Case<'a> {
    fn read(alloc: Global, text: &'a str) -> anyhow::Result<Case<'a>> {
        let mut parts = text.split(';');
        let (Some(label), Some(words), Some(lines)) = (parts.next(), parts.next(), parts.next())
        else {
            bail!("a case is LABEL;WORDS;LINES;COUNT*TEXT;..");
        };
        let mut deck = Vec::new(alloc);
        for part in parts {
            push_part(&mut deck, part)?;
        }
        Ok(Case {
            label,
            words: words.parse()?,
            lines: lines.parse()?,
            deck,
        })
    }

    // Loads the deck and tells what it leaves.
    fn run(&self, rt: &(impl Print + AllocGlobal)) -> anyhow::Result<()> {
        let mut memory = vec![in rt.alloc(); 0u32; usize::from(self.words)]?;
        let mut registers = [0u32; 16];
        let mut buffer = vec![in rt.alloc(); 255u8; usize::from(self.lines)]?;
        match load(&self.deck, &mut memory, &mut registers, &mut buffer) {
            Ok(count) => print!(rt; "{}: loaded {count} lines", self.label)?,
            Err(refusal) => {
                print!(rt;
                    "{}: refused {} {} {}",
                    self.label,
                    refusal.number(),
                    refusal.place(),
                    refusal.layer()
                )?
            }
        }
        show_set(rt, "words", &memory)?;
        show_set(rt, "registers", &registers)?;
        show_lines(rt, &buffer)?;
        Ok(())
    }
}

fn run(rt: &(impl Print + Input + AllocGlobal)) -> anyhow::Result<()> {
    for text in rt.lines(rt.alloc()) {
        let text = text?;
        Case::read(rt.alloc(), text.as_str())?.run(rt)?;
    }
    Ok(())
}

fn main(rt: HostRuntime) -> anyhow::Result<()> {
    run(&rt)
}
