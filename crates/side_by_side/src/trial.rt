//! A case with its course by the second machine, over which the first is run.
use crate::cases::{Case, Length};
use crate::chance::Random;
use crate::course::Course;
use crate::tally::{Part, Report};
use cpu::Held;
use second::Second;
use std::alloc::{AllocError, Global};

/// A case, the second machine as the case leaves it, and its course.
#[derive(Drop)]
pub struct Trial {
    pub alloc: Global,
    pub case: Case,
    pub second: Second,
    pub course: Course,
}

impl Trial {
    /// A case of some length, and the second machine's course over it. Half of the cases end as an instruction ends, the others anywhere.
    pub fn new(
        alloc: Global,
        length: Length,
        random: &mut Random,
        report: &mut Report,
    ) -> Result<Trial, AllocError> {
        let mut case = Case::new(alloc, random, length)?;
        let mut second = begin_second(&case, report)?;
        let least = if random.one_in(2) {
            case.lines.len() / 2
        } else {
            usize::MAX
        };
        let course = Course::follow(alloc, &mut second, &case.lines, least)?;
        case.lines.truncate(course.lines());
        Ok(Trial {
            alloc,
            case,
            second,
            course,
        })
    }
}

// The second machine on a case: preset beside a held core of the first, which must hold the same, and started.
fn begin_second(case: &Case, report: &mut Report) -> Result<Second, AllocError> {
    let mut second = Second::new(case.words.clone()?, &case.feed);
    let held = preset(case, &mut second, report)?;
    for number in 0..16 {
        if let Ok(value) = held.register(number) {
            report.compare(Part::Register, number, value, second.register(number))?;
        }
    }
    second.start();
    Ok(second)
}

// A held core with the case's registers preset, and numbers over 15 tried; the second machine beside it.
fn preset(case: &Case, second: &mut Second, report: &mut Report) -> Result<Held, AllocError> {
    let mut held = Held::new();
    for number in 0..20 {
        let value = case.registers.get(number as usize).copied().unwrap_or(7);
        let told = held.preset(number, value).is_ok();
        let done = second.preset(number, value).is_ok();
        report.compare(Part::Preset, number, told, done)?;
    }
    Ok(held)
}
