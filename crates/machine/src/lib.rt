//! The state of a core, and what holds of every run of it: the two machines and the laws of histories are in `specs/`.
#![tactic(auto)]

pub mod laws;

ghost use Rattle.std.specs.Prelude.{◌≡◌};

use isa::{Flags, Instruction};
use unit::Pair;

/// R0 to R15, H and the flags.
#[derive(Clone, Copy, PartialEq, Eq, Debug, Default)]
pub struct Registers {
    pub r: [u32; 16],
    pub h: u32,
    pub flags: Flags,
}

/// The instruction in hand: its word address and its word.
#[derive(Clone, Copy, PartialEq, Eq, Debug, Default)]
pub struct Fetched {
    pub pc: u32,
    pub ir: u32,
}

impl Fetched {
    /// The instruction word.
    pub fn instruction(self) -> Instruction
        ensures { result.word ≡ self.ir }
    {
        Instruction { word: self.ir }
    }
}

/// Whether interrupts are enabled, whether the core is in one, and what it goes back to.
#[derive(Clone, Copy, PartialEq, Eq, Debug, Default)]
pub struct Interrupts {
    pub enable: bool,
    pub mode: bool,
    pub saved_pc: u32,
    pub saved_flags: Flags,
}

/// Whether a tick is pending, and the tick line as it was last.
#[derive(Clone, Copy, PartialEq, Eq, Debug, Default)]
pub struct Ticks {
    pub pending: bool,
    pub last: bool,
}

/// A core at an instruction boundary: all of it but its waiting.
#[derive(Clone, Copy, PartialEq, Eq, Debug, Default)]
pub struct Context {
    pub registers: Registers,
    pub fetched: Fetched,
    pub interrupts: Interrupts,
    pub ticks: Ticks,
}

/// How far the core is inside an instruction: the step number, and the pair of the unit at work.
#[derive(Clone, Copy, PartialEq, Eq, Debug, Default)]
pub struct Waiting {
    pub step: u16,
    pub pair: Pair,
}

/// A core.
#[derive(Clone, Copy, PartialEq, Eq, Debug, Default)]
pub struct Core {
    pub context: Context,
    pub waiting: Waiting,
}

/// A finished instruction: its address and word, its clocks by the table, its stalled lines, and 1 if it acknowledged an interrupt.
#[derive(Clone, Copy, PartialEq, Eq, Debug, Default)]
pub struct Record {
    pub address: u32,
    pub word: u32,
    pub clocks: u16,
    pub stalls: u16,
    // A number and no bool: a record is five plain numbers, a form that the project asks for.
    pub acknowledged: u8,
}
