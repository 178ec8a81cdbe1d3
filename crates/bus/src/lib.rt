//! The bus of the card: what any bus shows, and how its contents change.
#![tactic(auto)]

pub mod lanes;
pub mod table;

ghost use Rattle.std.specs.Prelude.{◌≡◌, ℕ, ◌%◌, ◌^◌, List, [], ◌∷◌};
ghost use Rattle.bus.specs.Lanes.{all_marked, only_marked};
ghost use Rattle.bus.specs.Meaning.{Meaning};

use std::array;

/// Which bytes of a word a write replaces; byte 0 is the lowest.
#[derive(Clone, Copy, PartialEq, Eq, Debug)]
pub struct Marks {
    pub b0: bool,
    pub b1: bool,
    pub b2: bool,
    pub b3: bool,
}

// The mark of each lane, lane 0 first.
impl From<Marks> for [bool; 4] {
    ghost from_gives = { λ marks flags. flags ≡ marks.b0 ∷ marks.b1 ∷ marks.b2 ∷ marks.b3 ∷ [] };

    fn from(marks: Marks) -> [bool; 4] {
        [marks.b0, marks.b1, marks.b2, marks.b3]
    }
}

impl From<[bool; 4]> for Marks {
    ghost use Rattle.bus.specs.Lanes.{marks_of};

    ghost from_gives = { λ flags marks. marks ≡ marks_of flags };

    fn from(flags: [bool; 4]) -> Marks {
        let [b0, b1, b2, b3] = flags;
        Marks { b0, b1, b2, b3 }
    }
}

impl Marks {
    /// All four bytes.
    pub fn all() -> Marks
        ensures { result ≡ all_marked }
    {
        Marks::from([true; 4])
    }

    /// One byte alone: the one that the low two bits of a byte address name.
    pub fn only(address: u32) -> Marks
        ensures { result ≡ only_marked (address % 4) }
    {
        Marks::from(array::from_fn(|lane| lane == (address % 4) as usize))
    }
}

/// A bus, by its contents and its meaning. A word address is taken modulo 2^22, and no call refuses.
pub trait Bus {
    ghost contents: { Self → List ℕ };

    ghost meaning: { Meaning };

    /// The word shown at an address.
    fn fetch(&self, at: u32) -> u32
        ensures { result ≡ meaning.shown (contents self.now) (at % 2 ^ 22) };

    /// The word shown at an address; a read may change the contents.
    fn read(&mut self, at: u32) -> u32
        ensures word { result ≡ meaning.shown (contents self.old) (at % 2 ^ 22) }
        ensures after { contents self.new ≡ meaning.read (contents self.old) (at % 2 ^ 22) };

    /// Writes the marked bytes of a word.
    fn write(&mut self, at: u32, word: u32, marks: Marks)
        ensures { contents self.new ≡ meaning.write (contents self.old) (at % 2 ^ 22) word marks };

    /// Lets up to 65,535 clocks pass.
    fn pass(&mut self, clocks: u16)
        ensures { contents self.new ≡ meaning.passed (contents self.old) clocks };
}
