//! Running a core by clock.
ghost use Rattle.std.specs.Prelude.{◌≡◌, ◌+◌, ◌<◌, true, false, not};
ghost use Rattle.refusal.specs.Heard.{heard};
ghost use Rattle.unit.specs.Waiting.{goes_on};
ghost use Rattle.machine.specs.Lines.{stalls};
ghost use Rattle.machine.specs.Clock.{held, goes, ends, clock, run, finished};
ghost use Rattle.machine.specs.Histories.{Did};
ghost use Rattle.risc5.specs.Set.{card, pace};
ghost use Rattle.cpu.specs.Cores.{state};
ghost use Rattle.cpu.specs.Calls.{lines_heard, clock_answer, clock_left, clock_call};

use crate::lines::Lines;
use crate::{AT_REST, Live, finishing, line};
use bus::Bus;
use isa::Kind;
use machine::Waiting;
use refusal::Refusal;
use risc5::units;
use unit::divider::Divider;
use unit::multiplier::Multiplier;
use unit::{Pair, waiting};

impl Live {
    // A stalled line.
    fn stall<B: Bus>(&mut self, bus: &mut B, line: u8)
        ensures core { self.new.core ≡ (held B.Bus.meaning line (state self.old (B.Bus.contents bus.old))).core }
        ensures contents { B.Bus.contents bus.new ≡ B.Bus.meaning.passed (B.Bus.contents bus.old) 1 }
    {
        line::note(&mut self.core.context.ticks, line);
        bus.pass(1);
    }

    // An unstalled line below the last step.
    fn wait<B: Bus>(&mut self, bus: &mut B, line: u8, pair: Pair)
        requires { self.old.core.waiting.step < 65535 }
        ensures core { self.new.core ≡ (goes B.Bus.meaning card pace true line self.old.core.context (record { step = self.old.core.waiting.step + 1; pair = pair }) (B.Bus.contents bus.old)).core }
        ensures contents { B.Bus.contents bus.new ≡ B.Bus.meaning.passed (B.Bus.contents bus.old) 1 }
    {
        line::note(&mut self.core.context.ticks, line);
        self.core.waiting = Waiting {
            step: self.core.waiting.step + 1,
            pair,
        };
        bus.pass(1);
    }

    // The last line of an instruction: it writes and finishes.
    fn end<B: Bus>(&mut self, bus: &mut B, line: u8, pair: Pair)
        ensures core { self.new.core ≡ (goes B.Bus.meaning card pace false line self.old.core.context (record { step = self.old.core.waiting.step + 1; pair = pair }) (B.Bus.contents bus.old)).core }
        ensures contents { B.Bus.contents bus.new ≡ B.Bus.meaning.passed (B.Bus.contents bus.old) 1 }
    {
        let fetched = self.core.context.fetched;
        let next = risc5::next(&self.core.context.registers, fetched);
        risc5::write(&mut self.core.context.registers, fetched, pair);
        finishing::finish(&mut self.core.context, bus, next, line);
        self.core.waiting = AT_REST;
    }

    // An unstalled line, after its access and its unit's step: the instruction of so many clocks waits on or finishes.
    fn go<B: Bus>(&mut self, bus: &mut B, line: u8, total: u16, pair: Pair) -> bool
        ensures answer { result ≡ not (goes_on total self.old.core.waiting.step) }
        ensures core { self.new.core ≡ (goes B.Bus.meaning card pace (goes_on total self.old.core.waiting.step) line self.old.core.context (record { step = self.old.core.waiting.step + 1; pair = pair }) (B.Bus.contents bus.old)).core }
        ensures contents { B.Bus.contents bus.new ≡ B.Bus.meaning.passed (B.Bus.contents bus.old) 1 }
    {
        if waiting::goes_on(self.core.waiting.step, total) {
            self.wait(bus, line, pair);
            false
        } else {
            self.end(bus, line, pair);
            true
        }
    }

    /// One clock, on a line whose bit 0 is the tick and whose bit 1 is the stall. Answers whether an instruction finished.
    #[tactic(auto, unfolding(risc5::specs::Units::multiplying, risc5::specs::Units::dividing))]
    fn clock_line<B: Bus>(&mut self, bus: &mut B, line: u8) -> bool
        ensures answer { result ≡ ends B.Bus.meaning card pace line (state self.old (B.Bus.contents bus.old)) }
        ensures core { self.new.core ≡ (clock B.Bus.meaning card pace line (state self.old (B.Bus.contents bus.old))).core }
        ensures contents { B.Bus.contents bus.new ≡ (clock B.Bus.meaning card pace line (state self.old (B.Bus.contents bus.old))).contents }
    {
        if line::is_stalled(line) {
            self.stall(bus, line);
            return false;
        }
        let instruction = self.core.context.fetched.instruction();
        let total = instruction.clocks();
        let waiting = self.core.waiting;
        match (instruction.kind(), waiting.step) {
            (Kind::Load, 0) => {
                risc5::load(&mut self.core.context.registers, instruction, bus);
                self.go(bus, line, total, waiting.pair)
            }
            (Kind::Store, 0) => {
                risc5::store(&self.core.context.registers, instruction, bus);
                self.go(bus, line, total, waiting.pair)
            }
            (Kind::Multiply, _) => {
                let registers = &self.core.context.registers;
                let pair = units::clock::<Multiplier>(registers, instruction, waiting);
                self.go(bus, line, total, pair)
            }
            (Kind::Divide, _) => {
                let registers = &self.core.context.registers;
                let pair = units::clock::<Divider>(registers, instruction, waiting);
                self.go(bus, line, total, pair)
            }
            _ => self.go(bus, line, total, waiting.pair),
        }
    }

    fn clock_lines<B: Bus>(&mut self, bus: &mut B, lines: Lines) -> (u32, u32)
        ensures finished { result.0 ≡ finished B.Bus.meaning card pace lines.entry.bytes.now (state self.old (B.Bus.contents bus.old)) }
        ensures stalls { result.1 ≡ stalls lines.entry.bytes.now }
        ensures core { self.new.core ≡ (run B.Bus.meaning card pace lines.entry.bytes.now (state self.old (B.Bus.contents bus.old))).core }
        ensures contents { B.Bus.contents bus.new ≡ (run B.Bus.meaning card pace lines.entry.bytes.now (state self.old (B.Bus.contents bus.old))).contents }
    {
        // One loop for both counts, so that each line is looked at once.
        let mut done = 0;
        let mut stalled = 0;
        for line in lines.as_slice() {
            done += u32::from(self.clock_line(bus, *line));
            stalled += u32::from(line::is_stalled(*line));
        }
        (done, stalled)
    }

    /// Clocks all of some lines: the instructions finished, and the stalled lines. Refuses more than 65,535 lines, and a line over 3.
    pub fn clock<B: Bus>(&mut self, bus: &mut B, lines: &[u8]) -> Result<(u32, u32), Refusal>
        ensures answer { result ≡ clock_answer B.Bus.meaning lines.now (state self.old (B.Bus.contents bus.old)) }
        ensures core { self.new.core ≡ (clock_left B.Bus.meaning lines.now (state self.old (B.Bus.contents bus.old))).core }
        ensures contents { B.Bus.contents bus.new ≡ (clock_left B.Bus.meaning lines.now (state self.old (B.Bus.contents bus.old))).contents }
        ensures refusal { heard result ≡ lines_heard lines.now }
        ensures step { Did B.Bus.meaning card pace (state self.old (B.Bus.contents bus.old)) (clock_call lines.now result) (state self.new (B.Bus.contents bus.new)) }
    {
        let lines = Lines::checked(lines)?;
        Ok(self.clock_lines(bus, lines))
    }
}
