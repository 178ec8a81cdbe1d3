//! Running a core by whole instructions.
ghost use Rattle.std.specs.Prelude.{◌≡◌, ◌≤◌, None, length};
ghost use Rattle.std.specs.Result.{result_err};
ghost use Rattle.refusal.specs.Heard.{heard};
ghost use Rattle.isa.specs.Kinds.{clocks_of};
ghost use Rattle.machine.specs.State.{with_registers};
ghost use Rattle.machine.specs.Instructions.{ready_at, leaps};
ghost use Rattle.machine.specs.Histories.{or_inside, Did};
ghost use Rattle.risc5.specs.Set.{card, pace};
ghost use Rattle.cpu.specs.Cores.{state, boundary};
ghost use Rattle.cpu.specs.Measures.{after_share, record_of};
ghost use Rattle.cpu.specs.Calls.{run_answer, leap_answer, leap_left, leap_records, overlaid, leap_call, leap_heard};

use crate::lines::Lines;
use crate::share::Share;
use crate::{AT_REST, Live, finishing};
use bus::Bus;
use isa::Kind;
use machine::{Context, Record};
use refusal::Refusal;

// The access of a load or store, with the clocks before and after it; the clocks alone of every other instruction.
#[tactic(auto, unfolding(machine::specs::Instructions::ready_at))]
fn reach<B: Bus>(context: &mut Context, bus: &mut B, share: Share)
    ensures context { context.new ≡ with_registers context.old (ready_at B.Bus.meaning card share.before share.ahead (boundary context.old (B.Bus.contents bus.old))).registers }
    ensures contents { B.Bus.contents bus.new ≡ (ready_at B.Bus.meaning card share.before share.ahead (boundary context.old (B.Bus.contents bus.old))).contents }
{
    let instruction = context.fetched.instruction();
    match instruction.kind() {
        Kind::Load => {
            bus.pass(share.ahead);
            risc5::load(&mut context.registers, instruction, bus);
            bus.pass(share.before - share.ahead);
        }
        Kind::Store => {
            bus.pass(share.ahead);
            risc5::store(&context.registers, instruction, bus);
            bus.pass(share.before - share.ahead);
        }
        _ => bus.pass(share.before),
    }
}

// One instruction over its share.
fn instruct<B: Bus>(context: &mut Context, bus: &mut B, share: Share)
    ensures context { context.new ≡ (after_share B.Bus.meaning (boundary context.old (B.Bus.contents bus.old)) share).context }
    ensures contents { B.Bus.contents bus.new ≡ (after_share B.Bus.meaning (boundary context.old (B.Bus.contents bus.old)) share).contents }
{
    let fetched = context.fetched;
    reach(context, bus, share);
    context.ticks = share.ticks;
    let next = risc5::next(&context.registers, fetched);
    risc5::effect(&mut context.registers, fetched);
    finishing::finish(context, bus, next, share.last);
}

// What is recorded of the instruction in hand over its share.
fn record_of(context: &Context, share: Share) -> Record
    ensures { result ≡ record_of context.now share }
{
    let acknowledged = finishing::acknowledges(&share.ticks, &context.interrupts);
    Record {
        address: context.fetched.pc,
        word: context.fetched.ir,
        clocks: share.clocks,
        stalls: share.before - (share.clocks - 1),
        acknowledged: u8::from(acknowledged),
    }
}

// How many clocks the instruction in hand takes.
fn count_of(context: &Context) -> u16
    ensures value { result ≡ clocks_of context.now.fetched.ir }
    ensures least { 1 ≤ result }
{
    context.fetched.instruction().clocks()
}

// Instruction by instruction, while a whole share and room for a record remain. The lines left go on to the next instruction.
fn leap_lines<B: Bus>(
    context: &mut Context,
    bus: &mut B,
    lines: Lines,
    trace: &mut [Record],
) -> (u32, u32, u32)
    ensures answer { result ≡ run_answer B.Bus.meaning (leaps B.Bus.meaning card pace (length trace.old) (boundary context.old (B.Bus.contents bus.old)) lines.entry.bytes.now) }
    ensures context { context.new ≡ (leaps B.Bus.meaning card pace (length trace.old) (boundary context.old (B.Bus.contents bus.old)) lines.entry.bytes.now).state.context }
    ensures contents { B.Bus.contents bus.new ≡ (leaps B.Bus.meaning card pace (length trace.old) (boundary context.old (B.Bus.contents bus.old)) lines.entry.bytes.now).state.contents }
    ensures trace { trace.new ≡ overlaid (leaps B.Bus.meaning card pace (length trace.old) (boundary context.old (B.Bus.contents bus.old)) lines.entry.bytes.now).records trace.old }
{
    let mut rest = lines;
    let mut used = 0;
    for (written, slot) in trace.iter_mut().enumerate() {
        let Some(share) = rest.share(count_of(context), context.ticks) else {
            return (used, written as u32, 0);
        };
        *slot = record_of(context, share);
        instruct(context, bus, share);
        used += u32::from(share.before) + 1;
        rest = rest.after(share);
    }
    // The answer is three plain numbers, the last of them 1 or 0: the project asks for this form.
    let more = rest.share(count_of(context), context.ticks).is_some();
    (used, trace.len() as u32, u32::from(more))
}

// A leap begins between two instructions.
fn begins_at(step: u16) -> Result<(), Refusal>
    ensures { result_err result ≡ or_inside step None }
{
    if step > 0 {
        return Err(Refusal::InsideInstruction);
    }
    Ok(())
}

impl Live {
    /// Runs whole instructions and writes a record of each into `trace`: the lines used, the records written, and 1 exactly if a share remained but no
    /// room for its record. Refuses what clocking refuses, and a core inside an instruction.
    pub fn leap<B: Bus>(
        &mut self,
        bus: &mut B,
        lines: &[u8],
        trace: &mut [Record],
    ) -> Result<(u32, u32, u32), Refusal>
        ensures answer { result ≡ leap_answer B.Bus.meaning (length trace.old) lines.now (state self.old (B.Bus.contents bus.old)) }
        ensures core { self.new.core ≡ (leap_left B.Bus.meaning (length trace.old) lines.now (state self.old (B.Bus.contents bus.old))).core }
        ensures contents { B.Bus.contents bus.new ≡ (leap_left B.Bus.meaning (length trace.old) lines.now (state self.old (B.Bus.contents bus.old))).contents }
        ensures trace { trace.new ≡ overlaid (leap_records B.Bus.meaning (length trace.old) lines.now (state self.old (B.Bus.contents bus.old))) trace.old }
        ensures refusal { heard result ≡ leap_heard lines.now self.old.core.waiting.step }
        ensures step { Did B.Bus.meaning card pace (state self.old (B.Bus.contents bus.old)) (leap_call lines.now (length trace.old) trace.new result) (state self.new (B.Bus.contents bus.new)) }
    {
        let lines = Lines::checked(lines)?;
        begins_at(self.core.waiting.step)?;
        self.core.waiting = AT_REST;
        Ok(leap_lines(&mut self.core.context, bus, lines, trace))
    }
}
