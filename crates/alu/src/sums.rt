//! Sums and differences of words, with carry and overflow.
ghost use Rattle.std.specs.Prelude.{◌≡◌, not, pos, negsuc, ◌≤ℤ◌};
ghost use Rattle.alu.specs.Arithmetic.{signed, fits, sum, sum_carries, sum_overflows, difference, difference_borrows, difference_overflows};

/// A sum or a difference: its word, whether it carries or borrows, and whether it overflows.
#[derive(Clone, Copy)]
pub struct Sum {
    pub value: u32,
    pub carry: bool,
    pub overflow: bool,
}

fn as_signed(x: u32) -> i64
    ensures value { result ≡ signed x }
    ensures low { negsuc 0x7FFF_FFFF ≤ℤ result }
    ensures high { result ≤ℤ pos 0x7FFF_FFFF }
{
    i64::from(x.cast_signed())
}

fn overflows(z: i64) -> bool
    ensures { result ≡ not (fits z) }
{
    i32::try_from(z).is_err()
}

pub fn add(a: u32, n: u32, carry: bool) -> Sum
    ensures value { result.value ≡ sum a n carry }
    ensures carry { result.carry ≡ sum_carries a n carry }
    ensures overflow { result.overflow ≡ sum_overflows a n carry }
{
    let (value, carries) = a.carrying_add(n, carry);
    Sum {
        value,
        carry: carries,
        overflow: overflows(as_signed(a) + as_signed(n) + i64::from(carry)),
    }
}

pub fn subtract(a: u32, n: u32, carry: bool) -> Sum
    ensures value { result.value ≡ difference a n carry }
    ensures carry { result.carry ≡ difference_borrows a n carry }
    ensures overflow { result.overflow ≡ difference_overflows a n carry }
{
    let (value, borrows) = a.borrowing_sub(n, carry);
    Sum {
        value,
        carry: borrows,
        overflow: overflows(as_signed(a) - as_signed(n) - i64::from(carry)),
    }
}
