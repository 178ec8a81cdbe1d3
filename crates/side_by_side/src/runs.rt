//! The three runs of the first machine over a case: by clock, by leap, and mixed.
use crate::chance::Random;
use crate::running::{MOST_LINES, Running};
use crate::tally::{Report, Run};
use crate::trial::Trial;
use std::alloc::{AllocError, Global};
use std::ops::ControlFlow;

// More calls than any run needs; what is left after them is clocked at once.
const MOST_CALLS: u32 = 5_000;

// How many lines a call is given: often few, sometimes none, never more than are left.
fn piece(running: &mut Running<'_>) -> usize {
    let longest = running.trial.case.length.longest_call();
    let random = &mut *running.random;
    let count = match random.below(8) {
        0 => random.size_below(3),
        1 => random.size_below(longest),
        _ => random.size_below(60),
    };
    count.min(running.left())
}

fn room(random: &mut Random) -> usize {
    match random.below(4) {
        0 => random.size_below(300),
        _ => random.size_below(8),
    }
}

// Lines with a fault: some that are over 3, or more lines than a call takes.
fn damaged(alloc: Global, random: &mut Random) -> Result<Vec<u8>, AllocError> {
    let count = match random.below(400) {
        0 => random.size_below(3).saturating_add(MOST_LINES),
        _ => random.size_below(50),
    };
    let mut lines: Vec<u8> = (0..count).map(|_| random.byte() % 4).collect(alloc)?;
    for _ in 0..random.below(4) {
        let at = random.size_below(70_000) % count.max(1);
        let value = random.byte();
        if let Some(line) = lines.get_mut(at) {
            *line = value;
        }
    }
    Ok(lines)
}

// One call by clock, until no line is left.
fn by_clock(running: &mut Running<'_>) -> Result<ControlFlow<()>, AllocError> {
    if running.left() == 0 {
        return Ok(ControlFlow::Break(()));
    }
    let count = piece(running);
    running.clock(count)?;
    Ok(ControlFlow::Continue(()))
}

// One call by leap, until no whole share is left.
fn by_leap(running: &mut Running<'_>) -> Result<ControlFlow<()>, AllocError> {
    let left = running.left();
    let count = piece(running);
    let room = room(running.random);
    let used = running.leap(count, room)?;
    if used == 0 && count == left && room > 0 {
        return Ok(ControlFlow::Break(()));
    }
    Ok(ControlFlow::Continue(()))
}

// One call by clock, by leap, or one that must be refused, until no line is left.
fn mixed(running: &mut Running<'_>) -> Result<ControlFlow<()>, AllocError> {
    if running.left() == 0 {
        return Ok(ControlFlow::Break(()));
    }
    let count = piece(running);
    match running.random.below(8) {
        0 | 1 => {
            let lines = damaged(running.trial.alloc, running.random)?;
            running.misuse(&lines)?;
        }
        2..=4 => running.clock(count)?,
        _ => {
            let room = room(running.random);
            let _used = running.leap(count, room)?;
        }
    }
    Ok(ControlFlow::Continue(()))
}

// One run: call by call as a step makes them, then by clock what is left. Both machines must end alike.
fn run<F>(
    trial: &Trial,
    name: Run,
    step: F,
    random: &mut Random,
    report: &mut Report,
) -> Result<(), AllocError>
where
    F: Fn(&mut Running<'_>) -> Result<ControlFlow<()>, AllocError> + Drop,
    requires { F.IsAlwaysCallable step }
{
    report.run = name;
    let mut running = Running::begin(trial, random, report)?;
    for _ in 0..MOST_CALLS {
        if step(&mut running)?.is_break() {
            break;
        }
    }
    running.finish()?;
    running.end()
}

/// The three runs.
pub fn run_all(trial: &Trial, random: &mut Random, report: &mut Report) -> Result<(), AllocError> {
    run(trial, Run::ByClock, by_clock, random, report)?;
    run(trial, Run::ByLeap, by_leap, random, report)?;
    run(trial, Run::Mixed, mixed, random, report)
}
