//! Arithmetic on words, by school methods: bits one by one, sums in 64 bits.

const HALF: u32 = 0x8000_0000;

const WORD: u64 = 0x1_0000_0000;

/// A sum or difference modulo 2^32, and what C and V become by it.
#[derive(Clone, Copy, PartialEq, Eq, Debug)]
pub(crate) struct Sum {
    pub value: u32,
    pub carry: bool,
    pub overflow: bool,
}

/// A low and a high word: of a product, or a quotient and its rest.
#[derive(Clone, Copy, PartialEq, Eq, Debug)]
pub(crate) struct Two {
    pub low: u32,
    pub high: u32,
}

/// Whether bit `place` of a word is up.
pub(crate) fn bit(word: u32, place: u32) -> bool {
    (word >> (place % 32)) % 2 == 1
}

// The word read as signed, and 2^31 more: so it is never negative.
fn raised(word: u32) -> u32 {
    word.wrapping_add(HALF)
}

/// b + n + carry.
pub(crate) fn added(b: u32, n: u32, carry: bool) -> Sum {
    let exact = u64::from(b) + u64::from(n) + u64::from(carry);
    // 2^32 more than the exact sum of the signed numbers
    let signed = u64::from(raised(b)) + u64::from(raised(n)) + u64::from(carry);
    Sum {
        value: (exact % WORD) as u32,
        carry: exact >= WORD,
        overflow: !(0x8000_0000..0x1_8000_0000).contains(&signed),
    }
}

/// b - n - borrow.
pub(crate) fn subtracted(b: u32, n: u32, borrow: bool) -> Sum {
    // 2^33 more than the exact differences
    let exact = 0x2_0000_0000 + u64::from(b) - u64::from(n) - u64::from(borrow);
    let signed = 0x2_0000_0000 + u64::from(raised(b)) - u64::from(raised(n)) - u64::from(borrow);
    Sum {
        value: (exact % WORD) as u32,
        carry: exact < 0x2_0000_0000,
        overflow: !(0x1_8000_0000..0x2_8000_0000).contains(&signed),
    }
}

/// The word doubled so many times; bits that leave at the top are lost.
pub(crate) fn doubled(word: u32, times: u32) -> u32 {
    (0..times).fold(word, |left, _| left % HALF * 2)
}

/// The word halved so many times; `top` tells the new top bit from the word before.
pub(crate) fn halved<F: Fn(u32) -> bool>(word: u32, times: u32, top: F) -> u32
    requires { F.IsAlwaysCallable top }
{
    (0..times).fold(word, |left, _| left / 2 + u32::from(top(left)) * HALF)
}

/// Bit by bit: each bit is told from those of b and n.
pub(crate) fn mixed<F: Fn(bool, bool) -> bool>(b: u32, n: u32, rule: F) -> u32
    requires { F.IsAlwaysCallable rule }
{
    let mut all = 0u32;
    for place in 0..32u32 {
        if rule(bit(b, place), bit(n, place)) {
            all |= 1 << place;
        }
    }
    all
}

// The word with its sign in bits 63 to 32, or with 0 there.
fn spread(word: u32, signed: bool) -> u64 {
    if signed && word >= HALF {
        0xFFFF_FFFF_0000_0000 + u64::from(word)
    } else {
        u64::from(word)
    }
}

fn parted(all: u64) -> Two {
    Two {
        low: (all % WORD) as u32,
        high: (all / WORD) as u32,
    }
}

/// b × n, modulo 2^64: for each bit of n that is up, b moved up to it is added.
pub(crate) fn product(b: u32, n: u32, signed: bool) -> Two {
    let times = spread(n, signed);
    let moved = spread(b, signed);
    let mut all = 0u64;
    for place in 0..64u32 {
        if (times >> place) % 2 == 1 {
            all = all.wrapping_add(moved << place);
        }
    }
    parted(all)
}

/// b by n: from the top place down, n moved up to the place is taken off the rest where it fits. 0 always fits.
pub(crate) fn quotient(b: u32, n: u32) -> Two {
    let mut rest = u64::from(b);
    let mut all = 0u32;
    for place in (0..32u32).rev() {
        let part = u64::from(n) << place;
        if part <= rest {
            rest -= part;
            all |= 1 << place;
        }
    }
    Two {
        low: all,
        high: (rest % WORD) as u32,
    }
}
