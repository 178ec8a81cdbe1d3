//! The two moved types at work: a held core is preset, released, clocked, held again and read.
#![tactic(auto)]

ghost use Rattle.std.specs.Prelude.{◌≡◌};
ghost use Rattle.refusal.specs.Heard.{outcome};
ghost use Rattle.machine.specs.Histories.{lines_refused};
ghost use Rattle.cpu.specs.Calls.{answer_by};
ghost use Rattle.session.specs.Between.{held_after, contents_after, register_after, contents_with};

use bus::Bus;
use cpu::Held;
use refusal::Refusal;

/// Releases a held core over a bus, clocks it over some lines, and holds it again. Refuses what clocking refuses.
pub fn clocked<B: Bus>(held: Held, bus: &mut B, lines: &[u8]) -> Result<Held, Refusal>
    ensures answer { result ≡ answer_by (lines_refused lines.now) (held_after B.Bus.meaning lines.now held (B.Bus.contents bus.old)) }
    ensures contents { B.Bus.contents bus.new ≡ contents_after B.Bus.meaning lines.now held (B.Bus.contents bus.old) }
{
    let mut live = held.release(bus);
    live.clock(bus, lines)?;
    Ok(live.hold())
}

/// The value that a register has after some lines, on a new core with that register preset. Refuses a number over 15, and what clocking refuses.
pub fn clocked_from<B: Bus>(
    bus: &mut B,
    number: u32,
    value: u32,
    lines: &[u8],
) -> Result<u32, Refusal>
    ensures answer { outcome result ≡ register_after B.Bus.meaning lines.now number value (B.Bus.contents bus.old) }
    ensures contents { B.Bus.contents bus.new ≡ contents_with B.Bus.meaning lines.now number value (B.Bus.contents bus.old) }
{
    let mut held = Held::new();
    held.preset(number, value)?;
    let after = clocked(held, bus, lines)?;
    after.register(number)
}
