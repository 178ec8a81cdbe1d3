//! Numbers by chance, the same for the same seed.
ghost use Rattle.std.specs.Prelude.{◌-◌, ◌≤◌};

/// A stream of pseudo-random numbers: xorshift on 64 bits, of which a product's upper half is told.
#[derive(Drop)]
pub struct Random {
    state: u64,
}

impl Random {
    pub fn new(seed: u64) -> Random {
        let state = seed
            .wrapping_add(1)
            .wrapping_mul(0x9E37_79B9_7F4A_7C15)
            .max(1);
        let mut random = Random { state };
        // The first few of seeds that are near each other are alike.
        for _ in 0..8 {
            let _skipped = random.word();
        }
        random
    }

    /// Any word.
    pub fn word(&mut self) -> u32 {
        let mut x = self.state;
        x ^= x << 13;
        x ^= x >> 7;
        x ^= x << 17;
        self.state = x;
        (x.wrapping_mul(0x2545_F491_4F6C_DD1D) >> 32) as u32
    }

    /// A number below a bound, and 0 below a bound of 0.
    pub fn below(&mut self, bound: u32) -> u32
        ensures { result ≤ bound - 1 }
    {
        let word = self.word();
        if bound == 0 { 0 } else { word % bound }
    }

    /// The same as a size.
    pub fn size_below(&mut self, bound: u32) -> usize {
        self.below(bound) as usize
    }

    /// True once in so many times.
    pub fn one_in(&mut self, times: u32) -> bool {
        self.below(times) == 0
    }

    /// Any byte.
    pub fn byte(&mut self) -> u8 {
        (self.word() % 256) as u8
    }

    /// A number from -span to span - 1, in the lowest bits of a word that a mask has.
    pub fn about_zero(&mut self, span: u32, mask: u32) -> u32 {
        self.below(span.wrapping_mul(2)).wrapping_sub(span) & mask
    }
}
