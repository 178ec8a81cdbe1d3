//! Units that work step by step: what each takes and gives, one text of waiting for every unit, and the same answers at once.
#![tactic(auto)]

pub mod divider;
pub mod laws;
pub mod multiplier;
pub mod native;
mod reading;
mod shift;
pub mod waiting;

ghost use Rattle.std.specs.Prelude.{◌≡◌, ℕ};
ghost use Rattle.unit.specs.After.{after};
ghost use Rattle.unit.specs.Steps.{word};

/// The running pair of a multiplier or a divider: what is summed or left over, above the word that is shifted.
#[derive(Clone, Copy, PartialEq, Eq, Debug, Default)]
pub struct Pair {
    pub high: i64,
    pub low: u32,
}

impl Pair {
    // The low part, and the high part modulo 2^32.
    pub(crate) fn words(self) -> Words
        ensures { result ≡ record { low = self.low; high = word self.high } }
    {
        Words {
            low: self.low,
            high: reading::low_word(self.high),
        }
    }
}

/// The two words that a unit gives: those of a product, or the quotient (low) and the rest (high).
#[derive(Clone, Copy, PartialEq, Eq, Debug)]
pub struct Words {
    pub low: u32,
    pub high: u32,
}

/// What a multiplier takes: two words, and whether both are read as signed.
#[derive(Clone, Copy, PartialEq, Eq, Debug)]
pub struct Factors {
    pub first: u32,
    pub second: u32,
    pub signed: bool,
}

/// What a divider takes.
#[derive(Clone, Copy, PartialEq, Eq, Debug)]
pub struct Division {
    pub dividend: u32,
    pub divisor: u32,
}

/// A unit that works step by step, with the meaning of each part. A step is exact for every pair and every step number.
pub trait StepUnit {
    type Operands: Copy;

    type Pair: Copy;

    type Answer: Copy;

    const STEPS: u16;

    ghost STEPS: { ℕ };

    ghost started: { Self.Operands → Self.Pair };

    ghost stepped: { Self.Operands → ℕ → Self.Pair → Self.Pair };

    ghost answer: { Self.Operands → Self.Pair → Self.Answer };

    /// The pair before the first step.
    fn start(operands: Self::Operands) -> Self::Pair
        ensures { result ≡ started operands };

    /// The pair after step `s`, counted from 0.
    fn step(operands: Self::Operands, s: u16, pair: Self::Pair) -> Self::Pair
        ensures { result ≡ stepped operands s pair };

    /// What the pair after the last step comes to.
    fn result(operands: Self::Operands, pair: Self::Pair) -> Self::Answer
        ensures { result ≡ answer operands pair };
}

/// A unit whose answer is also had at once. Waiting asks for no more than `StepUnit`.
pub trait AtOnce: StepUnit {
    ghost exact: { Self.Operands → Self.Answer };

    /// What all the steps come to, with no step made.
    fn at_once(operands: Self::Operands) -> Self::Answer
        ensures exact { result ≡ exact operands }
        ensures steps { result ≡ Self.answer operands (after (Self.stepped operands) (Self.started operands) Self.STEPS) };
}
