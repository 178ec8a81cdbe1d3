//! The core of the card: held and live, run by clock and by whole instructions.
#![tactic(auto)]

mod clocking;
mod finishing;
mod leaping;
mod line;
mod lines;
mod share;

ghost use Rattle.std.specs.Prelude.{◌≡◌};
ghost use Rattle.bus.specs.Meaning.{Meaning};
ghost use Rattle.refusal.specs.Heard.{heard, outcome};
ghost use Rattle.machine.specs.State.{Boundary, live};
ghost use Rattle.machine.specs.Laws.{EndsByTheClockRules, EndsByTheInstructionMachine, TellsEveryInstruction, LinesAreClocksAndStalls, EqualEndsUnderOtherStalls, Law};
ghost use Rattle.risc5.specs.Set.{card, pace};
ghost use Rattle.cpu.specs.Cores.{held_with, fresh, register_refusal, register_answer, place_of, preset_in, released, held_of, state};

use bus::Bus;
use isa::Flags;
use machine::{Context, Core, Fetched, Interrupts, Registers, Ticks, Waiting};
use refusal::Refusal;
use unit::Pair;

// Where a released core begins.
const START: u32 = 0x3F_F800;

const NO_FLAGS: Flags = Flags {
    n: false,
    z: false,
    c: false,
    v: false,
};

// No instruction is underway.
const AT_REST: Waiting = Waiting {
    step: 0,
    pair: Pair { high: 0, low: 0 },
};

// Where a register stands. Refuses a number over 15.
fn place(number: u32) -> Result<usize, Refusal>
    ensures { result ≡ place_of number }
{
    if number > 15 {
        return Err(Refusal::RegisterNumber);
    }
    Ok(number as usize)
}

/// A core that is held: its registers can be preset and read, and it takes no clock.
#[derive(Drop)]
pub struct Held {
    registers: Registers,
}

/// A core that is live: it takes clocks.
#[derive(Drop)]
pub struct Live {
    core: Core,
}

impl Held {
    /// A new held core: registers, H and flags 0.
    pub fn new() -> Held
        ensures { result ≡ fresh }
    {
        Held::with_registers([0; 16])
    }

    /// A new held core with these registers preset.
    pub fn with_registers(registers: [u32; 16]) -> Held
        ensures { result ≡ held_with registers }
    {
        Held {
            registers: Registers {
                r: registers,
                h: 0,
                flags: NO_FLAGS,
            },
        }
    }

    /// Presets a register; no flag changes. Refuses a number over 15.
    pub fn preset(&mut self, number: u32, value: u32) -> Result<(), Refusal>
        ensures answer { heard result ≡ register_refusal number }
        ensures core { self.new ≡ preset_in number value self.old }
    {
        self.registers.r[place(number)?] = value;
        Ok(())
    }

    /// The value of a register. Refuses a number over 15.
    pub fn register(&self, number: u32) -> Result<u32, Refusal>
        ensures { outcome result ≡ register_answer number self.now }
    {
        Ok(self.registers.r[place(number)?])
    }

    pub fn h(&self) -> u32
        ensures { result ≡ self.now.registers.h }
    {
        self.registers.h
    }

    pub fn flags(&self) -> Flags
        ensures { result ≡ self.now.registers.flags }
    {
        self.registers.flags
    }

    /// Begins a history: the core is live, with the word at 3FF800H in hand, and no clock has passed. The contract tells what holds of every
    /// history of calls that begins with it on this bus.
    pub fn release<B: Bus>(self, bus: &B) -> Live
        ensures core { result.core ≡ released B.Bus.meaning self (B.Bus.contents bus.now) }
        ensures ends_by_the_clock_rules { EndsByTheClockRules B.Bus.meaning card pace (state result (B.Bus.contents bus.now)) }
        ensures ends_by_the_instruction_machine { EndsByTheInstructionMachine B.Bus.meaning card pace (state result (B.Bus.contents bus.now)) }
        ensures tells_every_instruction { TellsEveryInstruction B.Bus.meaning card pace (state result (B.Bus.contents bus.now)) }
        ensures lines_are_clocks_and_stalls { LinesAreClocksAndStalls B.Bus.meaning card pace (state result (B.Bus.contents bus.now)) }
        ensures equal_ends_under_other_stalls { EqualEndsUnderOtherStalls B.Bus.meaning card pace (state result (B.Bus.contents bus.now)) }
    {
        let Held { registers } = self;
        Live {
            core: Core {
                context: Context {
                    registers,
                    fetched: Fetched {
                        pc: START,
                        ir: bus.fetch(START),
                    },
                    interrupts: Interrupts {
                        enable: false,
                        mode: false,
                        saved_pc: 0,
                        saved_flags: NO_FLAGS,
                    },
                    ticks: Ticks {
                        pending: false,
                        last: false,
                    },
                },
                waiting: AT_REST,
            },
        }
    }
}

impl Live {
    /// Ends the core's run: it is held again, with its registers, H and flags.
    pub fn hold(self) -> Held
        ensures { result ≡ held_of self }
    {
        let Live { core } = self;
        Held {
            registers: core.context.registers,
        }
    }
}

/// The laws of histories, over every bus and from every instruction boundary on. Nothing runs here.
pub fn laws()
    ensures { (M : Meaning) (b : Boundary) → Law M card pace (live b) }
{}
