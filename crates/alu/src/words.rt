//! Shifts, and a word joined with the inverse of another.
ghost use Rattle.std.specs.Prelude.{◌≡◌};
ghost use Rattle.alu.specs.Arithmetic.{lsl, asr, ror, ann};

pub fn shift_left(a: u32, n: u32) -> u32
    ensures { result ≡ lsl a n }
{
    a.wrapping_shl(n)
}

pub fn shift_signed(a: u32, n: u32) -> u32
    ensures { result ≡ asr a n }
{
    a.cast_signed().wrapping_shr(n).cast_unsigned()
}

#[tactic(auto, using(crate::proofs::Rotations::rotated))]
pub fn rotate(a: u32, n: u32) -> u32
    ensures { result ≡ ror a n }
{
    a.rotate_right(n)
}

pub fn and_not(a: u32, n: u32) -> u32
    ensures { result ≡ ann a n }
{
    a & !n
}
