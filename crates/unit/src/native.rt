//! Products and quotients at once: the same words as those of the steps.
ghost use Rattle.std.specs.Prelude.{◌≡◌, ◌*ℤ◌};
ghost use Rattle.unit.specs.After.{after};
ghost use Rattle.unit.specs.Exact.{product, words_of, quotient, remainder};
ghost use Rattle.unit.specs.Steps.{mul_start, mul_step, mul_answer, div_start, div_step, div_answer};

use crate::{Division, Factors, Words, reading};

// The words of two factors' product, from the product modulo 2^64.
fn words(first: i64, second: i64) -> Words
    ensures { result ≡ words_of (first *ℤ second) }
{
    let z = first.wrapping_mul(second).cast_unsigned();
    Words {
        low: (z % 0x1_0000_0000) as u32,
        high: (z >> 32) as u32,
    }
}

/// The two words of the exact product: those that the multiplier's steps give.
pub fn multiply(factors: Factors) -> Words
    ensures exact { result ≡ words_of (product factors) }
    ensures steps { result ≡ mul_answer factors (after (mul_step factors) (mul_start factors) 32) }
{
    let Factors {
        first,
        second,
        signed,
    } = factors;
    words(
        reading::factor(signed, first),
        reading::factor(signed, second),
    )
}

/// Quotient and rest: those that the divider's steps give. By 0 they are FFFFFFFFH and the dividend.
pub fn divide(division: Division) -> Words
    ensures exact { result ≡ record { low = quotient division; high = remainder division } }
    ensures steps { result ≡ div_answer division (after (div_step division) (div_start division) 32) }
{
    if division.divisor == 0 {
        Words {
            low: u32::MAX,
            high: division.dividend,
        }
    } else {
        Words {
            low: division.dividend / division.divisor,
            high: division.dividend % division.divisor,
        }
    }
}
