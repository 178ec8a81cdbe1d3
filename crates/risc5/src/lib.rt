//! The card's instruction set: what each instruction word does to the registers and asks of the bus.
#![tactic(auto)]

mod access;
pub mod units;

ghost use Rattle.std.specs.Prelude.{◌≡◌};
ghost use Rattle.isa.specs.Kinds.{kind_of};
ghost use Rattle.machine.specs.Clock.{written_by};
ghost use Rattle.machine.specs.Isa.{Lawful};
ghost use Rattle.risc5.specs.Registers.{at, put, operand, inputs, operated, linked, branched};
ghost use Rattle.risc5.specs.Set.{class_by, card, pace, next_by, effect_by, returns_as, enables_as};

pub use access::{load, store};
use alu::Inputs;
use isa::{Instruction, Kind, Operation};
use machine::{Fetched, Registers};
use unit::Pair;
use unit::divider::Divider;
use unit::multiplier::Multiplier;

/// The value of a register, by its number modulo 16.
pub fn get(registers: &Registers, number: usize) -> u32
    ensures { result ≡ at registers.now number }
{
    let place = number % 16;
    registers.r[place]
}

// A register write.
fn set(registers: &mut Registers, number: usize, value: u32)
    ensures { registers.new ≡ put registers.old number value }
{
    registers.r[number % 16] = value;
    registers.flags = alu::write_flags(value, registers.flags);
}

// The operand n.
#[tactic(auto, unfolding(crate::specs::Registers::operand))]
fn operand_of(registers: &Registers, instruction: Instruction) -> u32
    ensures { result ≡ operand instruction.word registers.now }
{
    if instruction.q() {
        instruction.constant()
    } else {
        get(registers, instruction.c())
    }
}

fn inputs_of(registers: &Registers, instruction: Instruction) -> Inputs
    ensures { result ≡ inputs instruction.word registers.now }
{
    Inputs {
        b: get(registers, instruction.b()),
        n: operand_of(registers, instruction),
        h: registers.h,
        flags: registers.flags,
    }
}

#[tactic(auto, unfolding(crate::specs::Registers::operated))]
fn operate(registers: &mut Registers, operation: Operation, instruction: Instruction)
    ensures { registers.new ≡ operated operation instruction.word registers.old }
{
    let outcome = alu::operate(operation, instruction, inputs_of(registers, instruction));
    registers.r[instruction.a() % 16] = outcome.value;
    registers.flags = outcome.flags;
}

// A taken branch with v links.
#[tactic(auto, unfolding(crate::specs::Registers::linked))]
fn keep_link(registers: &mut Registers, fetched: Fetched)
    ensures { registers.new ≡ linked fetched.ir fetched.pc registers.old }
{
    let instruction = fetched.instruction();
    if instruction.taken(registers.flags) && instruction.v() {
        set(registers, 15, isa::link(fetched.pc));
    }
}

#[tactic(auto, unfolding(crate::specs::Registers::branched))]
fn branch(registers: &Registers, fetched: Fetched) -> u32
    ensures { result ≡ branched fetched.ir fetched.pc registers.now }
{
    let instruction = fetched.instruction();
    if instruction.taken(registers.flags) {
        instruction.target(fetched.pc, get(registers, instruction.c()))
    } else {
        isa::next(fetched.pc)
    }
}

/// The address after the instruction in hand, unless it returns.
pub fn next(registers: &Registers, fetched: Fetched) -> u32
    ensures { result ≡ next_by (kind_of fetched.ir) fetched.ir fetched.pc registers.now }
{
    match fetched.instruction().kind() {
        Kind::Branch => branch(registers, fetched),
        _ => isa::next(fetched.pc),
    }
}

/// What the instruction in hand writes, at once: products and quotients are exact.
#[tactic(auto, unfolding(crate::specs::Units::multiplied, crate::specs::Units::divided))]
pub fn effect(registers: &mut Registers, fetched: Fetched)
    ensures { registers.new ≡ effect_by (kind_of fetched.ir) fetched.ir fetched.pc registers.old }
{
    let instruction = fetched.instruction();
    match instruction.kind() {
        Kind::Register(operation) => operate(registers, operation, instruction),
        Kind::Multiply => units::at_once::<Multiplier>(registers, instruction),
        Kind::Divide => units::at_once::<Divider>(registers, instruction),
        Kind::Load | Kind::Store => {}
        Kind::Branch => keep_link(registers, fetched),
    }
}

/// What the instruction in hand writes on its last clock, from the pair that this leaves.
#[tactic(auto, unfolding(crate::specs::Units::multiplied_by, crate::specs::Units::divided_by))]
pub fn write(registers: &mut Registers, fetched: Fetched, pair: Pair)
    ensures { registers.new ≡ written_by card pace (class_by (kind_of fetched.ir)) fetched.ir fetched.pc registers.old pair }
{
    let instruction = fetched.instruction();
    match instruction.kind() {
        Kind::Multiply => units::complete::<Multiplier>(registers, instruction, pair),
        Kind::Divide => units::complete::<Divider>(registers, instruction, pair),
        _ => effect(registers, fetched),
    }
}

/// Whether an instruction returns from interrupt.
pub fn returns(instruction: Instruction) -> bool
    ensures { result ≡ returns_as (kind_of instruction.word) instruction.word }
{
    match instruction.kind() {
        Kind::Branch => instruction.returns(),
        _ => false,
    }
}

/// Enable after an instruction, from what it was before.
pub fn enables(instruction: Instruction, enable: bool) -> bool
    ensures { result ≡ enables_as (kind_of instruction.word) instruction.word enable }
{
    match instruction.kind() {
        Kind::Branch => instruction.enables(enable),
        _ => enable,
    }
}

/// The clocks of each word come to its exact effect: after 32 steps the product, or the quotient and the rest. Nothing runs here.
pub fn pace_fits()
    ensures { Lawful card pace }
{}
