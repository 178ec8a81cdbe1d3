//! On which clock a word changes.
ghost use Rattle.std.specs.Prelude.{◌≡◌, take};
ghost use Rattle.machine.specs.Clock.{clock, run};
ghost use Rattle.risc5.specs.Set.{card, pace};
ghost use Rattle.cpu.specs.Cores.{state};
ghost use Rattle.history.specs.Watching.{Tells, taken, SteppedBy, left_after};

use bus::Bus;
use cpu::Live;
use refusal::Refusal;
use std::fmt;

/// A word stayed 0 over so many lines.
#[derive(Clone, Copy, PartialEq, Eq, Debug)]
pub struct Unseen {
    pub lines: usize,
}

impl fmt::Display for Unseen {
    fn fmt<W: fmt::Write>(&self, f: &mut fmt::Formatter<W>) -> fmt::Result {
        let lines = self.lines;
        write!(f, "the word stayed 0 over {lines} lines")
    }
}

impl std::error::Error for Unseen {}

// One line by clock.
fn step<B: Bus>(live: &mut Live, bus: &mut B, line: u8) -> Result<(), Refusal>
    ensures taken { SteppedBy line result }
    ensures state { state live.new (B.Bus.contents bus.new) ≡ left_after result (clock B.Bus.meaning card pace line (state live.old (B.Bus.contents bus.old))) (state live.old (B.Bus.contents bus.old)) }
{
    live.clock(bus, &[line])?;
    Ok(())
}

/// Clocks a core line by line until the word shown at an address is not 0, or a line is over 3, or no line is left. Answers the clock, counted from 1,
/// after which the word was first seen not to be 0.
pub fn watch<B: Bus>(
    live: &mut Live,
    bus: &mut B,
    lines: &[u8],
    address: u32,
) -> Result<usize, Unseen>
    ensures tells { Tells B.Bus.meaning (state live.old (B.Bus.contents bus.old)) lines.now address result }
    ensures core { live.new.core ≡ (run B.Bus.meaning card pace (take (taken result) lines.now) (state live.old (B.Bus.contents bus.old))).core }
    ensures contents { B.Bus.contents bus.new ≡ (run B.Bus.meaning card pace (take (taken result) lines.now) (state live.old (B.Bus.contents bus.old))).contents }
{
    for (at, line) in lines.iter().enumerate() {
        if step(live, bus, *line).is_err() {
            return Err(Unseen { lines: at });
        }
        if bus.fetch(address) != 0 {
            return Ok(at + 1);
        }
    }
    Err(Unseen { lines: lines.len() })
}
