// Words read as numbers, and numbers cut to words.
ghost use Rattle.std.specs.Prelude.{◌≡◌, ◌^◌, pos, neg_ℤ, ◌≤ℤ◌, ◌<ℤ◌};
ghost use Rattle.unit.specs.Steps.{read, word};

// A word, read as signed or not.
pub(crate) fn factor(signed: bool, x: u32) -> i64
    ensures value { result ≡ read signed x }
    ensures bound { (neg_ℤ (pos (2 ^ 31)) ≤ℤ result) × (result <ℤ pos (2 ^ 32)) }
{
    if signed {
        i64::from(x.cast_signed())
    } else {
        i64::from(x)
    }
}

// A number modulo 2^32.
pub(crate) fn low_word(z: i64) -> u32
    ensures { result ≡ word z }
{
    z.rem_euclid(0x1_0000_0000) as u32
}
