//! The course of a case by the second machine: what it finished on each line, and what each call on the first must therefore tell.
use second::{Done, Second};
use std::alloc::{AllocError, Global};
use std::ops::Range;

/// A finished instruction, and how many lines were taken by then.
#[derive(Clone, Copy, PartialEq, Eq, Debug)]
pub struct Finish {
    pub end: usize,
    pub done: Done,
}

// How it stands after so many lines: instructions finished, lines stalled, and whether the step number is 0.
#[derive(Clone, Copy, PartialEq, Eq, Default, Debug)]
struct Standing {
    finished: usize,
    stalls: usize,
    at_rest: bool,
}

/// What the second machine made of some lines, one by one.
#[derive(Drop)]
pub struct Course {
    standings: Vec<Standing>,
    finishes: Vec<Finish>,
}

/// What clocking must answer: instructions finished, and stalled lines.
#[derive(Clone, Copy, PartialEq, Eq, Debug)]
pub struct Clocking {
    pub finished: usize,
    pub stalls: usize,
}

/// What a leap must answer.
#[derive(Clone, Copy, PartialEq, Eq, Debug)]
pub struct Leap {
    pub used: usize,
    pub written: usize,
    pub further: bool,
}

impl Course {
    /// Clocks the second machine over lines, up to the first end of an instruction behind so many of them if there is one.
    pub fn follow(
        alloc: Global,
        second: &mut Second,
        lines: &[u8],
        least: usize,
    ) -> Result<Course, AllocError> {
        let mut finishes = Vec::new(alloc);
        let mut standing = Standing {
            finished: 0,
            stalls: 0,
            at_rest: true,
        };
        let mut standings = vec![in alloc; standing]?;
        for line in lines {
            let done = second.clock(*line);
            if let Some(done) = done {
                let end = standings.len();
                finishes.push(Finish { end, done })?;
            }
            let stalled = Second::stalled(*line);
            standing = Standing {
                finished: finishes.len(),
                stalls: standing.stalls.saturating_add(usize::from(stalled)),
                at_rest: second.step() == 0,
            };
            standings.push(standing)?;
            if done.is_some() && standings.len() > least {
                break;
            }
        }
        Ok(Course {
            standings,
            finishes,
        })
    }

    // Behind the last line nothing stands, and no leap may begin.
    fn standing(&self, taken: usize) -> Standing {
        self.standings.get(taken).copied().unwrap_or_default()
    }

    /// How many lines the second machine took.
    pub fn lines(&self) -> usize {
        self.standings.len().saturating_sub(1)
    }

    /// How many of them stalled.
    pub fn stalls(&self) -> usize {
        self.standing(self.lines()).stalls
    }

    /// The instructions that it finished.
    pub fn finishes(&self) -> &[Finish] {
        &self.finishes
    }

    /// Whether a leap may begin after so many lines.
    pub fn at_rest(&self, taken: usize) -> bool {
        self.standing(taken).at_rest
    }

    /// What clocking over some of the lines must answer.
    pub fn clocked(&self, lines: Range<usize>) -> Clocking {
        let before = self.standing(lines.start);
        let after = self.standing(lines.end);
        Clocking {
            finished: after.finished.saturating_sub(before.finished),
            stalls: after.stalls.saturating_sub(before.stalls),
        }
    }

    // How many lines were taken when so many instructions were finished.
    fn end_of(&self, finished: usize) -> usize {
        finished
            .checked_sub(1)
            .and_then(|last| self.finishes.get(last))
            .map_or(0, |finish| finish.end)
    }

    /// What a leap must answer that is given some of the lines, and has room for so many records.
    pub fn leapt(&self, lines: Range<usize>, room: usize) -> Leap {
        let from = lines.start;
        let whole = self.clocked(lines).finished;
        let written = whole.min(room);
        let before = self.standing(from).finished;
        let used = if written == 0 {
            0
        } else {
            self.end_of(before.saturating_add(written))
                .saturating_sub(from)
        };
        Leap {
            used,
            written,
            further: whole > room,
        }
    }

    /// The record that a leap must write at a place of its trace, if it begins after `from` lines. Stalled lines in front of its first instruction that
    /// were taken before the leap are not of its share.
    pub fn record(&self, from: usize, place: usize) -> Option<Done> {
        let before = self.standing(from).finished;
        let mut done = self.finishes.get(before.saturating_add(place))?.done;
        if place == 0 {
            let gone = from.saturating_sub(self.end_of(before));
            done.stalls = done.stalls.saturating_sub(gone.min(65_535) as u32);
        }
        Some(done)
    }
}
