//! The divider: 32 steps, each of which takes one more bit of the dividend and gives one of the quotient.
ghost use Rattle.unit.specs.Steps.{div_start, div_step, div_answer};
ghost use Rattle.unit.specs.Exact.{quotient, remainder};

use crate::{AtOnce, Division, Pair, StepUnit, Words, native, reading};

/// The unit of quotients.
pub struct Divider;

impl StepUnit for Divider {
    type Operands = Division;

    type Pair = Pair;

    type Answer = Words;

    const STEPS: u16 = 32;

    ghost STEPS = { 32 };

    ghost started = { div_start };

    ghost stepped = { div_step };

    ghost answer = { div_answer };

    fn start(operands: Division) -> Pair {
        Pair {
            high: 0,
            low: operands.dividend,
        }
    }

    fn step(operands: Division, _s: u16, pair: Pair) -> Pair {
        let t = 2 * i64::from(reading::low_word(pair.high)) + i64::from(pair.low / 0x8000_0000);
        let n = i64::from(operands.divisor);
        let d = pair.low.wrapping_mul(2);
        if t >= n {
            Pair {
                high: t - n,
                low: d + 1,
            }
        } else {
            Pair { high: t, low: d }
        }
    }

    fn result(_operands: Division, pair: Pair) -> Words {
        pair.words()
    }
}

impl AtOnce for Divider {
    ghost exact = { λ division. record { low = quotient division; high = remainder division } };

    fn at_once(operands: Division) -> Words {
        native::divide(operands)
    }
}
