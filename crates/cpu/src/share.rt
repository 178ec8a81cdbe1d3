//! An instruction's share of the lines.
ghost use Rattle.std.specs.Prelude.{◌+◌, ◌≤◌};

use machine::Ticks;

/// What leaping needs of a share: the clocks of its instruction, the lines before its last, the stalled ones in front, its last line, and the ticks
/// before that.
#[derive(Clone, Copy)]
pub struct Share {
    pub clocks: u16,
    pub before: u16,
    pub ahead: u16,
    pub last: u8,
    pub ticks: Ticks,
    ghost takes_a_clock: { 1 ≤ clocks },
    ghost has_its_clocks: { clocks ≤ before + 1 },
    ghost in_front: { ahead ≤ before },
}
