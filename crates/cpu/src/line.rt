//! What one line says.
ghost use Rattle.std.specs.Prelude.{◌≡◌};
ghost use Rattle.machine.specs.Lines.{stalled, noted, cleared};

use machine::Ticks;

/// Whether a line stalls the core.
pub fn is_stalled(line: u8) -> bool
    ensures { result ≡ stalled line }
{
    (line >> 1) % 2 == 1
}

// `note` and `clear` are no methods, since `Ticks` is a type of the crate `machine`, which has no code.

/// A line on which nothing is acknowledged: pending goes up on a rise.
pub fn note(ticks: &mut Ticks, line: u8)
    ensures { ticks.new ≡ noted line ticks.old }
{
    let tick = line % 2 == 1;
    ticks.pending = ticks.pending || tick && !ticks.last;
    ticks.last = tick;
}

/// A line on which a tick is acknowledged: pending goes down, and a rise on it is lost.
pub fn clear(ticks: &mut Ticks, line: u8)
    ensures { ticks.new ≡ cleared line }
{
    ticks.pending = false;
    ticks.last = line % 2 == 1;
}
