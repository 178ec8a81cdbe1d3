//! The step units at work on the registers: clock by clock, or at once.
ghost use Rattle.std.specs.Prelude.{◌≡◌, ℕ};
ghost use Rattle.unit.specs.Waiting.{carried};
ghost use Rattle.machine.specs.declared.Registers.{Registers};
ghost use Rattle.risc5.specs.Registers.{given};
ghost use Rattle.risc5.specs.Units.{factors, division};

use isa::Instruction;
use machine::{Registers, Waiting};
use unit::divider::Divider;
use unit::multiplier::Multiplier;
use unit::{AtOnce, Division, Factors, Pair, StepUnit, Words, waiting};

// The clocks before a unit's first step.
const LEAD: u16 = 0;

/// A step unit of the card, by what it takes from the registers for an instruction word.
pub trait CardUnit: AtOnce<Pair = Pair, Answer = Words> {
    ghost taken: { ℕ → Registers → Self.Operands };

    fn operands(registers: &Registers, instruction: Instruction) -> Self::Operands
        ensures { result ≡ taken instruction.word registers.now };
}

impl CardUnit for Multiplier {
    ghost taken = { factors };

    #[tactic(auto, unfolding(crate::specs::Units::factors))]
    fn operands(registers: &Registers, instruction: Instruction) -> Factors {
        Factors {
            first: crate::get(registers, instruction.b()),
            second: crate::operand_of(registers, instruction),
            signed: !instruction.u(),
        }
    }
}

impl CardUnit for Divider {
    ghost taken = { division };

    #[tactic(auto, unfolding(crate::specs::Units::division))]
    fn operands(registers: &Registers, instruction: Instruction) -> Division {
        Division {
            dividend: crate::get(registers, instruction.b()),
            divisor: crate::operand_of(registers, instruction),
        }
    }
}

// The low word goes to R.a, the high word to H.
#[tactic(auto, unfolding(crate::specs::Registers::given))]
fn give(registers: &mut Registers, instruction: Instruction, words: Words)
    ensures { registers.new ≡ given instruction.word registers.old words }
{
    registers.h = words.high;
    crate::set(registers, instruction.a(), words.low);
}

/// A unit's pair after one more clock.
pub fn clock<U: CardUnit>(registers: &Registers, instruction: Instruction, waiting: Waiting) -> Pair
    ensures { let operands = U.taken instruction.word registers.now in result ≡ carried (U.started operands) (U.stepped operands) U.STEPS 0 waiting.step waiting.pair }
{
    let operands = U::operands(registers, instruction);
    waiting::carried::<U>(LEAD, operands, waiting.step, waiting.pair)
}

// What a unit writes after its last clock, from the pair that this leaves.
pub(crate) fn complete<U: CardUnit>(registers: &mut Registers, instruction: Instruction, pair: Pair)
    ensures { registers.new ≡ given instruction.word registers.old (U.answer (U.taken instruction.word registers.old) pair) }
{
    let words = U::result(U::operands(registers, instruction), pair);
    give(registers, instruction, words);
}

// What a unit writes, at once.
pub(crate) fn at_once<U: CardUnit>(registers: &mut Registers, instruction: Instruction)
    ensures { registers.new ≡ given instruction.word registers.old (U.exact (U.taken instruction.word registers.old)) }
{
    let words = U::at_once(U::operands(registers, instruction));
    give(registers, instruction, words);
}
