// Add and shift, at any width up to a word: the step of every multiplier.
ghost use Rattle.std.specs.Prelude.{◌≡◌, ◌-◌, ◌*◌, ◌^◌, ◌<◌, ◌≤◌, pos, ◌+ℤ◌, neg_ℤ, ◌≤ℤ◌, ◌<ℤ◌};
ghost use Rattle.unit.specs.Steps.{half, odd, total, add_shift};

use crate::Pair;

fn sum(high: i64, n: i64) -> i128
    ensures value { result ≡ high +ℤ n }
    ensures bound { (neg_ℤ (pos (2 ^ 64)) ≤ℤ result) × (result <ℤ pos (2 ^ 64)) }
{
    i128::from(high) + i128::from(n)
}

// What is halved: the high part, with `n` if the low part is odd.
fn total_of(n: i64, pair: Pair) -> i128
    ensures value { result ≡ total n pair }
    ensures bound { (neg_ℤ (pos (2 ^ 64)) ≤ℤ result) × (result <ℤ pos (2 ^ 64)) }
{
    if pair.low % 2 == 0 {
        i128::from(pair.high)
    } else {
        sum(pair.high, n)
    }
}

// Rounded down. Half of a sum of two 64-bit numbers has 64 bits again.
fn halved(t: i128) -> i64
    requires { (neg_ℤ (pos (2 ^ 64)) ≤ℤ t) × (t <ℤ pos (2 ^ 64)) }
    ensures { result ≡ half t }
{
    (t >> 1) as i64
}

fn last_bit(t: i128) -> u32
    ensures value { result ≡ odd t }
    ensures bit { result < 2 }
{
    t.rem_euclid(2) as u32
}

// A bit at the top of a part of `width` bits.
fn top_bit(bit: u32, width: u32) -> u32
    requires { (bit < 2) × ((1 ≤ width) × (width ≤ 32)) }
    ensures value { result ≡ bit * 2 ^ (width - 1) }
    ensures bound { result ≤ 2 ^ 31 }
{
    bit << (width - 1)
}

// One step of add and shift. Whatever the pair, the halves fit.
pub(crate) fn add_shift(width: u32, n: i64, pair: Pair) -> Pair
    requires { (1 ≤ width) × (width ≤ 32) }
    ensures { result ≡ add_shift width n pair }
{
    let t = total_of(n, pair);
    Pair {
        high: halved(t),
        low: pair.low / 2 + top_bit(last_bit(t), width),
    }
}
