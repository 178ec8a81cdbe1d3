//! The first machine on a case, call by call, each call compared with the course of the second.
use crate::chance::Random;
use crate::tally::{Heard, Part, Report};
use crate::trial::Trial;
use bus::Bus;
use card::Card;
use cpu::{Held, Live};
use machine::Record;
use second::{Done, Second};
use std::alloc::AllocError;
use std::ops::Range;

/// The most lines that a call is given.
pub const MOST_LINES: usize = 65_535;

// What stands in a trace where no record is written.
const MARK: Record = Record {
    address: 0xAAAA_AAAA,
    word: 0x5555_5555,
    clocks: 0xA5A5,
    stalls: 0x5A5A,
    acknowledged: 0xA5,
};

// What a leap inside an instruction is refused for.
const INSIDE_INSTRUCTION: Heard = Heard {
    number: 7,
    place: 0,
};

/// The first machine at work on a case: its card, its core, and how many of the case's lines it has taken; beside it, the numbers that its calls are
/// drawn by, and the report of what they tell.
#[derive(Drop)]
pub struct Running<'a> {
    pub trial: &'a Trial,
    pub random: &'a mut Random,
    report: &'a mut Report,
    card: Card,
    live: Live,
    taken: usize,
}

fn compare_record(
    report: &mut Report,
    place: u64,
    record: Record,
    done: Done,
) -> Result<(), AllocError> {
    report.compare(Part::Address, place, record.address, done.address)?;
    report.compare(Part::Word, place, record.word, done.word)?;
    report.compare(Part::Clocks, place, record.clocks, done.clocks)?;
    report.compare(Part::RecordStalls, place, record.stalls, done.stalls)?;
    report.compare(
        Part::Acknowledged,
        place,
        record.acknowledged,
        done.acknowledged,
    )
}

// That a place of a trace is as it was.
fn compare_mark(report: &mut Report, place: u64, record: Record) -> Result<(), AllocError> {
    report.compare(Part::Unwritten, place, record == MARK, true)
}

fn compare_registers(report: &mut Report, held: &Held, second: &Second) -> Result<(), AllocError> {
    for number in 0..16 {
        let value = held.register(number).map_or(u64::MAX, u64::from);
        report.compare(Part::Register, number, value, second.register(number))?;
    }
    report.compare(Part::H, 0u8, held.h(), second.h())?;
    report.compare(Part::Flags, 0u8, u8::from(held.flags()), second.flags())
}

impl<'a> Running<'a> {
    /// A card of the case, and a core with its registers, released over it.
    pub fn begin(
        trial: &'a Trial,
        random: &'a mut Random,
        report: &'a mut Report,
    ) -> Result<Running<'a>, AllocError> {
        let card = card::stack(trial.case.words.clone()?, &trial.case.feed);
        let live = Held::with_registers(trial.case.registers).release(&card);
        Ok(Running {
            trial,
            random,
            report,
            card,
            live,
            taken: 0,
        })
    }

    /// How many lines of the course are left.
    pub fn left(&self) -> usize {
        self.trial.course.lines().saturating_sub(self.taken)
    }

    // The lines at some places; none where they end before.
    fn lines(&self, places: Range<usize>) -> &'a [u8] {
        self.trial.case.lines.get(places).unwrap_or(&[])
    }

    /// Clocks so many of the next lines.
    pub fn clock(&mut self, count: usize) -> Result<(), AllocError> {
        let from = self.taken;
        let to = from.saturating_add(count);
        let lines = self.lines(from..to);
        self.report.counts.clockings += 1;
        let told = self.live.clock(&mut self.card, lines);
        self.taken = to;
        let (finished, stalls) = told.unwrap_or((0, 0));
        let must = self.trial.course.clocked(from..to);
        let place = from as u64;
        let report = &mut *self.report;
        report.compare(Part::Instructions, place, finished, must.finished as u64)?;
        report.compare(Part::Stalls, place, stalls, must.stalls as u64)?;
        report.compare_refusals(place, told.err(), None)
    }

    /// Leaps over so many of the next lines, with room for so many records. Answers how many of them it used.
    pub fn leap(&mut self, count: usize, room: usize) -> Result<usize, AllocError> {
        let course = &self.trial.course;
        let from = self.taken;
        let to = from.saturating_add(count);
        let lines = self.lines(from..to);
        let mut trace = vec![in self.trial.alloc; MARK; room]?;
        self.report.counts.leaps += 1;
        let told = self.live.leap(&mut self.card, lines, &mut trace);
        let place = from as u64;
        if !course.at_rest(from) {
            self.report
                .compare_refusals(place, told.err(), Some(INSIDE_INSTRUCTION))?;
            self.compare_trace(&trace, 0)?;
            return Ok(0);
        }
        let (used, written, further) = told.unwrap_or((0, 0, 0));
        let must = course.leapt(from..to, room);
        let report = &mut *self.report;
        report.compare(Part::LinesUsed, place, used, must.used as u64)?;
        report.compare(Part::Written, place, written, must.written as u64)?;
        report.compare(Part::Further, place, further, must.further)?;
        report.compare_refusals(place, told.err(), None)?;
        self.compare_trace(&trace, must.written)?;
        self.taken = from.saturating_add(must.used);
        Ok(must.used)
    }

    // The whole of the trace of a leap that began here and must have written so many records.
    fn compare_trace(&mut self, trace: &[Record], written: usize) -> Result<(), AllocError> {
        let place = self.taken as u64;
        for (at, record) in trace.iter().enumerate() {
            match self.trial.course.record(self.taken, at) {
                Some(done) if at < written => compare_record(self.report, place, *record, done)?,
                _ => compare_mark(self.report, place, *record)?,
            }
        }
        Ok(())
    }

    /// A call that must be refused for its lines, by clock or by leap. Lines without fault are not tried.
    pub fn misuse(&mut self, lines: &[u8]) -> Result<(), AllocError> {
        let Err(fault) = Second::check_lines(lines) else {
            return Ok(());
        };
        let must = Some(Heard::from(fault));
        let place = self.taken as u64;
        if self.random.one_in(2) {
            let told = self.live.clock(&mut self.card, lines);
            return self.report.compare_refusals(place, told.err(), must);
        }
        let mut trace = vec![in self.trial.alloc; MARK; self.random.size_below(4)]?;
        let told = self.live.leap(&mut self.card, lines, &mut trace);
        for record in trace.iter() {
            compare_mark(self.report, place, *record)?;
        }
        self.report.compare_refusals(place, told.err(), must)
    }

    /// Clocks all lines that are left.
    pub fn finish(&mut self) -> Result<(), AllocError> {
        let end = self.taken.saturating_add(self.left());
        for lines in self.lines(self.taken..end).chunks(MOST_LINES) {
            self.clock(lines.len())?;
        }
        Ok(())
    }

    fn compare_shown(&mut self, addresses: Range<u32>) -> Result<(), AllocError> {
        for at in addresses {
            self.report.compare(
                Part::Shown,
                at,
                self.card.fetch(at),
                self.trial.second.shown(at),
            )?;
        }
        Ok(())
    }

    // All of the case's memory and a little more, both ends of the ROM, the panel, and on to address 0 again.
    fn compare_buses(&mut self) -> Result<(), AllocError> {
        let count = self.trial.case.words.len().min(300_000) as u32;
        self.compare_shown(0..count.saturating_add(4))?;
        self.compare_shown(0x3F_F7FE..0x3F_F804)?;
        self.compare_shown(0x3F_F9FE..0x3F_FA02)?;
        self.compare_shown(0x3F_FFE8..0x40_0004)
    }

    /// Ends the run: holds the core and compares all that can be read of core and bus.
    pub fn end(mut self) -> Result<(), AllocError> {
        let taken = self.taken as u64;
        let lines = self.trial.course.lines() as u64;
        self.report.compare(Part::LinesTaken, 0u8, taken, lines)?;
        self.compare_buses()?;
        let Running {
            trial,
            random: _,
            report,
            card: _,
            live,
            taken: _,
        } = self;
        compare_registers(report, &live.hold(), &trial.second)
    }
}
