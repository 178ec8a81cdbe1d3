//! The accesses of loads and stores.
ghost use Rattle.std.specs.Prelude.{◌≡◌, ◌%◌, ◌^◌};
ghost use Rattle.risc5.specs.Registers.{byte_at, place, loaded, sent};

use bus::Bus;
use isa::{Instruction, Sent};
use machine::Registers;

fn byte_address(registers: &Registers, instruction: Instruction) -> u32
    ensures { result ≡ byte_at instruction.word registers.now }
{
    instruction.address(crate::get(registers, instruction.b()))
}

// The word address of a load or store.
#[tactic(auto, unfolding(crate::specs::Registers::place))]
fn place_of(registers: &Registers, instruction: Instruction) -> u32
    ensures { result ≡ place instruction.word registers.now }
{
    isa::word_at(byte_address(registers, instruction))
}

// A load's register write, from the word shown.
#[tactic(auto, unfolding(crate::specs::Registers::loaded))]
fn take_in(registers: &mut Registers, instruction: Instruction, shown: u32)
    ensures { registers.new ≡ loaded instruction.word registers.old shown }
{
    let value = instruction.load(byte_address(registers, instruction), shown);
    crate::set(registers, instruction.a(), value);
}

// What a store sends.
#[tactic(auto, unfolding(crate::specs::Registers::sent))]
fn sent_by(registers: &Registers, instruction: Instruction) -> Sent
    ensures { result ≡ sent instruction.word registers.now }
{
    let value = crate::get(registers, instruction.a());
    instruction.store(byte_address(registers, instruction), value)
}

/// A load's access: it reads the word at its address and writes its register.
pub fn load<B: Bus>(registers: &mut Registers, instruction: Instruction, bus: &mut B)
    ensures registers { registers.new ≡ loaded instruction.word registers.old (B.Bus.meaning.shown (B.Bus.contents bus.old) (place instruction.word registers.old % 2 ^ 22)) }
    ensures contents { B.Bus.contents bus.new ≡ B.Bus.meaning.read (B.Bus.contents bus.old) (place instruction.word registers.old % 2 ^ 22) }
{
    let shown = bus.read(place_of(registers, instruction));
    take_in(registers, instruction, shown);
}

/// A store's access: it writes at its address.
pub fn store<B: Bus>(registers: &Registers, instruction: Instruction, bus: &mut B)
    ensures { B.Bus.contents bus.new ≡ B.Bus.meaning.write (B.Bus.contents bus.old) (place instruction.word registers.now % 2 ^ 22) (sent instruction.word registers.now).word (sent instruction.word registers.now).marks }
{
    let Sent { word, marks } = sent_by(registers, instruction);
    bus.write(place_of(registers, instruction), word, marks);
}
