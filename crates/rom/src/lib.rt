//! A ROM of 512 words over any bus.
#![tactic(auto)]

ghost use Rattle.std.specs.Prelude.{◌≡◌, ◌%◌, ◌^◌, ◌++◌, length};
ghost use Rattle.bus.specs.Filled.{filled};
ghost use Rattle.refusal.specs.Heard.{heard};
ghost use Rattle.rom.specs.Boot.{boot_image, ShowsBoot};
ghost use Rattle.rom.specs.Table.{image_refusal, place_of, rom_meaning, StaysStill};

use bus::table::filled_with;
use bus::{Bus, Marks};
use refusal::Refusal;

/// The words that a ROM shows.
pub const WORDS: usize = 512;

/// The word address of the first.
pub const FIRST: u32 = 0x3F_F800;

/// 512 words that are shown from word address 3FF800H on, over the bus below.
#[derive(Drop)]
pub struct Rom<B> {
    table: [u32; 512],
    below: B,
    ghost whole: { length table ≡ 512 },
}

// A test of its own for each layer, since a shared one would take the limit and the refusal and leave only its call.
/// Whether a ROM may be made of this image.
pub fn check(image: &[u32]) -> Result<(), Refusal>
    ensures { heard result ≡ image_refusal (length image.now) }
{
    if image.len() > WORDS {
        return Err(Refusal::ImageWords);
    }
    Ok(())
}

/// The standard boot image: a branch to address 0, then zeros.
pub fn boot_image() -> [u32; 512]
    ensures { result ≡ boot_image }
{
    let mut words = [0; 512];
    words[0] = 0xE700_07FF;
    words
}

impl<B: Bus> Rom<B> {
    /// A ROM of the first 512 words of the image, filled with zeros where there are fewer.
    pub fn new(below: B, image: &[u32]) -> Rom<B>
        ensures table { result.table ≡ filled 512 image.now }
        ensures below { result.below ≡ below }
        ensures still { StaysStill B.Bus.meaning }
    {
        let table = filled_with(0, image);
        Rom { table, below }
    }

    /// The standard ROM.
    pub fn boot(below: B) -> Rom<B>
        ensures table { result.table ≡ boot_image }
        ensures below { result.below ≡ below }
        ensures shows_boot { ShowsBoot (rom_meaning B.Bus.meaning) (result.table ++ B.Bus.contents result.below) }
    {
        let table = boot_image();
        Rom { table, below }
    }
}

// The place in the table of a word address, if it is the ROM's own.
fn own_place(at: u32) -> Option<usize>
    ensures { result ≡ place_of (at % 2 ^ 22) }
{
    let place = (at % 0x40_0000).checked_sub(FIRST)? as usize;
    (place < WORDS).then_some(place)
}

impl<B: Bus> Bus for Rom<B> {
    ghost contents = { λ s. s.table ++ B.Bus.contents s.below };

    ghost meaning = { rom_meaning B.Bus.meaning };

    fn fetch(&self, at: u32) -> u32 {
        match own_place(at) {
            Some(place) => self.table[place],
            None => self.below.fetch(at),
        }
    }

    fn read(&mut self, at: u32) -> u32 {
        match own_place(at) {
            Some(place) => self.table[place],
            None => self.below.read(at),
        }
    }

    fn write(&mut self, at: u32, word: u32, marks: Marks) {
        if own_place(at).is_none() {
            self.below.write(at, word, marks);
        }
    }

    fn pass(&mut self, clocks: u16) {
        self.below.pass(clocks);
    }
}
