//! The end of an instruction, the same for clocking and leaping.
ghost use Rattle.std.specs.Prelude.{◌≡◌, not, ◌&&◌};
ghost use Rattle.machine.specs.Clock.{finish_at};
ghost use Rattle.risc5.specs.Set.{card};

use crate::line;
use bus::Bus;
use machine::{Context, Fetched, Interrupts, Ticks};

/// Whether a core with these ticks and interrupts acknowledges a tick as it finishes.
pub fn acknowledges(ticks: &Ticks, interrupts: &Interrupts) -> bool
    ensures { result ≡ ticks.now.pending && (interrupts.now.enable && not interrupts.now.mode) }
{
    ticks.pending && interrupts.enable && !interrupts.mode
}

/// Finishes an instruction that has written its registers and that goes to `next` unless it returns: fetches the next word and lets a clock pass.
#[tactic(auto, unfolding(machine::specs::Clock::finish_at))]
pub fn finish<B: Bus>(context: &mut Context, bus: &mut B, next: u32, line: u8)
    ensures context { context.new ≡ finish_at B.Bus.meaning card context.old next context.old.registers line (B.Bus.contents bus.old) }
    ensures contents { B.Bus.contents bus.new ≡ B.Bus.meaning.passed (B.Bus.contents bus.old) 1 }
{
    let instruction = context.fetched.instruction();
    let acknowledged = acknowledges(&context.ticks, &context.interrupts);
    let returns = risc5::returns(instruction);
    let mut to = next;
    if returns {
        context.registers.flags = context.interrupts.saved_flags;
        to = context.interrupts.saved_pc;
    }
    context.interrupts.enable = risc5::enables(instruction, context.interrupts.enable);
    context.interrupts.mode = !returns && (context.interrupts.mode || acknowledged);
    if acknowledged {
        context.interrupts.saved_pc = to;
        context.interrupts.saved_flags = context.registers.flags;
        to = 1;
        line::clear(&mut context.ticks, line);
    } else {
        line::note(&mut context.ticks, line);
    }
    context.fetched = Fetched {
        pc: to,
        ir: bus.fetch(to),
    };
    bus.pass(1);
}
