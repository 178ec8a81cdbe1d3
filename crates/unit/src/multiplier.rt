//! The multiplier: 32 steps of add and shift.
ghost use Rattle.std.specs.Prelude.{◌≡◌, ◌^◌, pos, neg_ℤ, ◌≤ℤ◌};
ghost use Rattle.unit.specs.Steps.{addend, mul_start, mul_step, mul_answer};
ghost use Rattle.unit.specs.Exact.{product, words_of};

use crate::{AtOnce, Factors, Pair, StepUnit, Words, native, reading, shift};

/// The unit of products.
pub struct Multiplier;

// What an odd low part adds at step `s`: the second factor, but its negative at the last step of a signed multiply.
fn addend_at(operands: Factors, s: u16) -> i64
    ensures value { result ≡ addend operands s }
    ensures bound { (neg_ℤ (pos (2 ^ 32)) ≤ℤ result) × (result ≤ℤ pos (2 ^ 32)) }
{
    let n = reading::factor(operands.signed, operands.second);
    if operands.signed && s == 31 { -n } else { n }
}

impl StepUnit for Multiplier {
    type Operands = Factors;

    type Pair = Pair;

    type Answer = Words;

    const STEPS: u16 = 32;

    ghost STEPS = { 32 };

    ghost started = { mul_start };

    ghost stepped = { mul_step };

    ghost answer = { mul_answer };

    fn start(operands: Factors) -> Pair {
        Pair {
            high: 0,
            low: operands.first,
        }
    }

    fn step(operands: Factors, s: u16, pair: Pair) -> Pair {
        shift::add_shift(32, addend_at(operands, s), pair)
    }

    fn result(_operands: Factors, pair: Pair) -> Words {
        pair.words()
    }
}

impl AtOnce for Multiplier {
    ghost exact = { λ factors. words_of (product factors) };

    fn at_once(operands: Factors) -> Words {
        native::multiply(operands)
    }
}
