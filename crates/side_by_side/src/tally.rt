//! What was compared, and what differed.
use crate::course::Course;
use crate::finished::Finished;
use refusal::Refusal;
use second::Fault;
use std::alloc::{AllocError, Global};
use std::collections::BTreeMap;
use std::fmt;
use std::num::Saturating;

/// How the first machine was run.
#[derive(Clone, Copy, PartialEq, Eq, Debug)]
pub enum Run {
    ByClock,
    ByLeap,
    Mixed,
    Deck,
}

impl fmt::Display for Run {
    fn fmt<W: fmt::Write>(&self, f: &mut fmt::Formatter<W>) -> fmt::Result {
        f.write_str(match self {
            Run::ByClock => "by clock",
            Run::ByLeap => "by leap",
            Run::Mixed => "mixed",
            Run::Deck => "deck",
        })
    }
}

/// What became of a deck.
#[derive(Clone, Copy, PartialEq, Eq, Debug)]
pub enum Outcome {
    Refused,
    Loaded,
}

/// What was compared.
#[derive(Clone, Copy, PartialEq, Eq, Debug)]
pub enum Part {
    Instructions,
    Stalls,
    LinesUsed,
    Written,
    Further,
    Address,
    Word,
    Clocks,
    RecordStalls,
    Acknowledged,
    Unwritten,
    RefusalNumber,
    RefusalPlace,
    Preset,
    Register,
    H,
    Flags,
    Shown,
    LinesTaken,
    LinesAdded,
    DeckWords(Outcome),
    DeckRegisters(Outcome),
    DeckLines(Outcome),
}

impl fmt::Display for Part {
    fn fmt<W: fmt::Write>(&self, f: &mut fmt::Formatter<W>) -> fmt::Result {
        f.write_str(match self {
            Part::Instructions => "instructions told",
            Part::Stalls => "stalls told",
            Part::LinesUsed => "lines used",
            Part::Written => "records written",
            Part::Further => "whether a share remained",
            Part::Address => "a record's address",
            Part::Word => "a record's word",
            Part::Clocks => "a record's clocks",
            Part::RecordStalls => "a record's stalls",
            Part::Acknowledged => "a record's acknowledgement",
            Part::Unwritten => "a place behind the records",
            Part::RefusalNumber => "a refusal's number",
            Part::RefusalPlace => "a refusal's place",
            Part::Preset => "a preset",
            Part::Register => "a register",
            Part::H => "H",
            Part::Flags => "the flags",
            Part::Shown => "a word shown",
            Part::LinesTaken => "lines taken",
            Part::LinesAdded => "lines that a deck added",
            Part::DeckWords(Outcome::Refused) => "words that a refused deck left",
            Part::DeckWords(Outcome::Loaded) => "words that a deck loaded",
            Part::DeckRegisters(Outcome::Refused) => "registers that a refused deck left",
            Part::DeckRegisters(Outcome::Loaded) => "registers that a deck loaded",
            Part::DeckLines(Outcome::Refused) => "lines that a refused deck left",
            Part::DeckLines(Outcome::Loaded) => "lines that a deck loaded",
        })
    }
}

/// What a refusal tells: its number and its place.
#[derive(Clone, Copy, PartialEq, Eq, Default, Debug)]
pub struct Heard {
    pub number: u32,
    pub place: u32,
}

impl From<Refusal> for Heard {
    fn from(refusal: Refusal) -> Heard {
        Heard {
            number: u32::from(refusal.number()),
            place: refusal.place(),
        }
    }
}

impl From<Fault> for Heard {
    fn from(fault: Fault) -> Heard {
        Heard {
            number: fault.number(),
            place: fault.place(),
        }
    }
}

/// A difference: in the case or deck of a seed, at a place (a line, a register, an address, a row), what each machine told.
#[derive(Clone, Copy, PartialEq, Eq, Debug)]
pub struct Difference {
    pub seed: u64,
    pub run: Run,
    pub part: Part,
    pub place: u64,
    pub first: u64,
    pub second: u64,
}

impl fmt::Display for Difference {
    fn fmt<W: fmt::Write>(&self, f: &mut fmt::Formatter<W>) -> fmt::Result {
        let Difference {
            seed,
            run,
            part,
            place,
            first,
            second,
        } = *self;
        write!(
            f,
            "seed {seed}, {run}: {part} at {place}: first {first}, second {second}"
        )
    }
}

// How many differences are kept to be printed; the others are counted.
const MOST_KEPT: usize = 40;

/// How much was run and compared.
#[derive(Clone, Copy, PartialEq, Eq, Default, Debug)]
pub struct Counts {
    pub programs: Saturating<u64>,
    pub lines: Saturating<u64>,
    pub stalls: Saturating<u64>,
    pub instructions: Saturating<u64>,
    pub clockings: Saturating<u64>,
    pub leaps: Saturating<u64>,
    pub decks: Saturating<u64>,
    pub loaded: Saturating<u64>,
    pub compared: Saturating<u64>,
    pub differences: Saturating<u64>,
}

/// Counts of all that was compared, and the differences.
#[derive(Drop)]
pub struct Report {
    pub seed: u64,
    pub run: Run,
    pub counts: Counts,
    pub finished: Finished,
    /// How often each refusal was heard from the first machine, by its number.
    pub refusals: BTreeMap<u32, Saturating<u64>>,
    pub kept: Vec<Difference>,
}

impl Report {
    pub fn new(alloc: Global) -> Report {
        Report {
            seed: 0,
            run: Run::ByClock,
            counts: Counts::default(),
            finished: Finished::new(alloc),
            refusals: BTreeMap::new(alloc),
            kept: Vec::new(alloc),
        }
    }

    /// Counts a program by its course.
    pub fn count(&mut self, course: &Course) -> Result<(), AllocError> {
        self.counts.programs += 1;
        self.counts.lines += course.lines() as u64;
        self.counts.stalls += course.stalls() as u64;
        for finish in course.finishes() {
            self.counts.instructions += 1;
            self.finished.count(finish.done)?;
        }
        Ok(())
    }

    /// Compares what the two machines told of a part.
    pub fn compare(
        &mut self,
        part: Part,
        place: impl Into<u64>,
        first: impl Into<u64>,
        second: impl Into<u64>,
    ) -> Result<(), AllocError> {
        let difference = Difference {
            seed: self.seed,
            run: self.run,
            part,
            place: place.into(),
            first: first.into(),
            second: second.into(),
        };
        self.counts.compared += 1;
        if difference.first != difference.second {
            self.counts.differences += 1;
            if self.kept.len() < MOST_KEPT {
                self.kept.push(difference)?;
            }
        }
        Ok(())
    }

    /// Compares what a call was refused for with what it must be refused for; no refusal counts as number 0 at place 0.
    pub fn compare_refusals(
        &mut self,
        place: u64,
        first: Option<Refusal>,
        second: Option<Heard>,
    ) -> Result<(), AllocError> {
        let first = first.map(Heard::from);
        if let Some(heard) = first {
            *self.refusals.entry(heard.number)?.or_default() += 1;
        }
        let first = first.unwrap_or_default();
        let second = second.unwrap_or_default();
        self.compare(Part::RefusalNumber, place, first.number, second.number)?;
        self.compare(Part::RefusalPlace, place, first.place, second.place)
    }
}
