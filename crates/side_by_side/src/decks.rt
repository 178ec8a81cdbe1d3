//! Decks by chance, most of them damaged: what each is refused for, by both machines.
use crate::chance::Random;
use crate::tally::{Heard, Outcome, Part, Report, Run};
use deck::loading::load;
use second::Second;
use std::alloc::{AllocError, Global};
use std::fmt;

// What stands in words, registers and lines before a load.
const WORD: u32 = 0x1234_5678;

const LINE: u8 = 9;

// One more than the largest word.
const WORD_END: u64 = 0x1_0000_0000;

// What a row asks for.
#[derive(Clone, Copy, PartialEq, Eq, Debug)]
enum Row {
    Word { address: u64, value: u64 },
    Register { number: u64, value: u64 },
    Lines { line: u64, count: u64 },
}

impl Row {
    fn any(random: &mut Random, words: u32) -> Row {
        match random.below(3) {
            0 => Row::Word {
                address: about(random, u64::from(words), 24),
                value: about(random, WORD_END, 24),
            },
            1 => Row::Register {
                number: about(random, 16, 24),
                value: about(random, WORD_END, 24),
            },
            _ => Row::Lines {
                line: about(random, 4, 24),
                count: any_count(random),
            },
        }
    }
}

// As it is written in a deck, without the newline.
impl fmt::Display for Row {
    fn fmt<W: fmt::Write>(&self, f: &mut fmt::Formatter<W>) -> fmt::Result {
        match *self {
            Row::Word { address, value } => write!(f, "W{address:>8}{value:>10}"),
            Row::Register { number, value } => write!(f, "R{number:>8}{value:>10}"),
            Row::Lines { line, count } => write!(f, "L{line:>8}{count:>10}"),
        }
    }
}

// What is loaded into.
#[derive(Drop)]
struct Target {
    words: Vec<u32>,
    registers: [u32; 16],
    lines: Vec<u8>,
}

impl Target {
    fn new(alloc: Global, words: u32, room: u32) -> Result<Target, AllocError> {
        Ok(Target {
            words: vec![in alloc; WORD; words as usize]?,
            registers: [WORD; 16],
            lines: vec![in alloc; LINE; room as usize]?,
        })
    }

    // What rows without fault leave. Answers how many lines they add.
    fn put_all(&mut self, rows: &[Row]) -> Result<usize, AllocError> {
        let room = self.lines.len();
        self.lines.clear();
        for row in rows {
            self.put(*row)?;
        }
        let added = self.lines.len();
        self.lines.resize(room, LINE)?;
        Ok(added)
    }

    fn put(&mut self, row: Row) -> Result<(), AllocError> {
        match row {
            Row::Word { address, value } => store(&mut self.words, address, value),
            Row::Register { number, value } => store(&mut self.registers, number, value),
            Row::Lines { line, count } => {
                let end = self.lines.len().saturating_add(count.min(100_000) as usize);
                self.lines.resize(end, (line % 256) as u8)?;
            }
        }
        Ok(())
    }
}

fn store(values: &mut [u32], place: u64, value: u64) {
    if let Some(at) = values.get_mut(place as usize) {
        *at = (value % WORD_END) as u32;
    }
}

// How many values of two lists differ.
fn unlike<T: PartialEq>(first: &[T], second: &[T]) -> u64 {
    first
        .iter()
        .zip(second)
        .filter(|(one, other)| one != other)
        .count() as u64
}

fn compare_targets(
    report: &mut Report,
    outcome: Outcome,
    loaded: &Target,
    must: &Target,
) -> Result<(), AllocError> {
    report.compare(
        Part::DeckWords(outcome),
        0u8,
        unlike(&loaded.words, &must.words),
        0u8,
    )?;
    report.compare(
        Part::DeckRegisters(outcome),
        0u8,
        unlike(&loaded.registers, &must.registers),
        0u8,
    )?;
    report.compare(
        Part::DeckLines(outcome),
        0u8,
        unlike(&loaded.lines, &must.lines),
        0u8,
    )
}

// A number below a bound, or, once in so many times, one at the bound or far above it.
fn about(random: &mut Random, bound: u64, times: u32) -> u64 {
    if random.one_in(times) {
        return match random.below(3) {
            0 => bound,
            1 => bound.saturating_add(u64::from(random.below(200))),
            _ => bound.saturating_mul(u64::from(random.below(10))),
        };
    }
    if random.one_in(8) {
        return bound.saturating_sub(1);
    }
    u64::from(random.word()) % bound.max(1)
}

fn any_count(random: &mut Random) -> u64 {
    if random.one_in(3) {
        about(random, 65_536, 8)
    } else {
        u64::from(random.below(40))
    }
}

fn row_count(random: &mut Random) -> u32 {
    match random.below(300) {
        0 => random.below(12) + 3_270,
        _ => random.below(12),
    }
}

fn any_rows(alloc: Global, random: &mut Random, words: u32) -> Result<Vec<Row>, AllocError> {
    let count = row_count(random);
    (0..count).map(|_| Row::any(random, words)).collect(alloc)
}

fn written(alloc: Global, rows: &[Row]) -> Result<Vec<u8>, AllocError> {
    let mut deck = String::new(alloc);
    for row in rows {
        writeln!(deck, "{row}")?;
    }
    Ok(deck.into_bytes())
}

// A byte that is near to what a deck has.
fn likely(random: &mut Random) -> u8 {
    match random.below(16) {
        0 | 1 => b' ',
        2 | 3 => b'0',
        4 => b'1',
        5 => b'9',
        6 => b'\n',
        7 => b'\r',
        8 => b'\t',
        9 => 0,
        10 => b'-',
        11 => b'W',
        12 => b'R',
        13 => b'L',
        14 => b'w',
        _ => random.byte(),
    }
}

// A place in a deck of so many bytes: any, or a row's letter, or a row's end.
fn any_place(random: &mut Random, length: usize) -> usize {
    let any = random.word() as usize % length.max(1);
    match random.below(6) {
        0 => any / 20 * 20,
        1 => (any / 20 * 20 + 19) % length.max(1),
        _ => any,
    }
}

// One damage to a deck: a byte changed, two exchanged, one put in, one taken out, or the end cut off.
fn damage(random: &mut Random, deck: &mut Vec<u8>) -> Result<(), AllocError> {
    let length = deck.len();
    if length == 0 {
        deck.push(likely(random))?;
        return Ok(());
    }
    let at = any_place(random, length) % length;
    let other = any_place(random, length) % length;
    let byte = likely(random);
    match random.below(24) {
        0 => deck.insert(at, byte)?,
        1 => {
            let _gone = deck.remove(at);
        }
        2 => deck.truncate(at),
        3..=6 => deck.swap(at, other),
        7..=9 => deck[at] = random.byte(),
        _ => deck[at] = byte,
    }
    Ok(())
}

// A deck, the rows that it was written from unless it was damaged since, and what it is loaded into: so many words, and room for so many lines.
#[derive(Drop)]
struct Sample {
    rows: Option<Vec<Row>>,
    deck: Vec<u8>,
    words: u32,
    room: u32,
}

impl Sample {
    fn new(alloc: Global, random: &mut Random) -> Result<Sample, AllocError> {
        let words = random.below(300);
        let room = if random.one_in(3) {
            65_535
        } else {
            random.below(120)
        };
        let rows = any_rows(alloc, random, words)?;
        let mut deck = written(alloc, &rows)?;
        let damages = random.below(4);
        for _ in 0..damages {
            damage(random, &mut deck)?;
        }
        Ok(Sample {
            rows: (damages == 0).then_some(rows),
            deck,
            words,
            room,
        })
    }

    fn target(&self, alloc: Global) -> Result<Target, AllocError> {
        Target::new(alloc, self.words, self.room)
    }

    // Loads the deck and compares its refusal. A refused deck changes nothing; an undamaged one that is loaded leaves what its rows say.
    fn compare(&self, alloc: Global, report: &mut Report) -> Result<(), AllocError> {
        let mut loaded = self.target(alloc)?;
        let mut must = self.target(alloc)?;
        let told = load(
            &self.deck,
            &mut loaded.words,
            &mut loaded.registers,
            &mut loaded.lines,
        );
        let fault = Second::check_deck(&self.deck, self.words, self.room).err();
        report.compare_refusals(0, told.err(), fault.map(Heard::from))?;
        let Ok(used) = told else {
            return compare_targets(report, Outcome::Refused, &loaded, &must);
        };
        report.counts.loaded += 1;
        let Some(rows) = &self.rows else {
            return Ok(());
        };
        let added = must.put_all(rows)?;
        report.compare(Part::LinesAdded, 0u8, used as u64, added as u64)?;
        compare_targets(report, Outcome::Loaded, &loaded, &must)
    }
}

/// The deck of a seed.
pub fn run(alloc: Global, seed: u64, report: &mut Report) -> Result<(), AllocError> {
    report.seed = seed;
    report.run = Run::Deck;
    report.counts.decks += 1;
    Sample::new(alloc, &mut Random::new(seed))?.compare(alloc, report)
}
