//! The panel: 16 cells over any bus, through which a feed of bytes comes in.
#![tactic(auto)]

mod queue;

ghost use Rattle.std.specs.Prelude.{◌≡◌, ◌%◌, ◌^◌, ◌++◌, length, take};
ghost use Rattle.refusal.specs.Heard.{heard};
ghost use Rattle.panel.specs.Cells.{new_feed, feed_refusal, cell_at, panel_meaning};
ghost use Rattle.panel.specs.HandsOut.{HandsOut};
ghost use Rattle.panel.specs.Numbers.{numbers};

use bus::{Bus, Marks};
use queue::Feed;
use refusal::Refusal;

/// The most bytes that a feed holds.
pub const MOST_BYTES: usize = 64;

/// The word address of cell 0.
pub const FIRST: u32 = 0x3F_FFF0;

/// The panel at word addresses 3FFFF0H to 3FFFFFH, over the bus below.
#[derive(Drop)]
pub struct Panel<B> {
    feed: Feed,
    below: B,
}

// A test of its own for each layer, since a shared one would take the limit and the refusal and leave only its call.
/// Whether a panel may be made with this feed.
pub fn check(feed: &[u8]) -> Result<(), Refusal>
    ensures { heard result ≡ feed_refusal (length feed.now) }
{
    if feed.len() > MOST_BYTES {
        return Err(Refusal::FeedBytes);
    }
    Ok(())
}

impl<B: Bus> Panel<B> {
    /// A panel of age 0 with the first 64 bytes of the feed.
    pub fn new(below: B, feed: &[u8]) -> Panel<B>
        ensures feed { numbers result.feed ≡ new_feed feed.now }
        ensures below { result.below ≡ below }
        ensures hands_out { HandsOut (panel_meaning B.Bus.meaning) (numbers result.feed ++ B.Bus.contents result.below) (take 64 feed.now) }
    {
        Panel {
            feed: Feed::new(feed),
            below,
        }
    }
}

// The cell at a word address, if it is one of the panel's own.
fn own_cell(at: u32) -> Option<u32>
    ensures { result ≡ cell_at (at % 2 ^ 22) }
{
    (at % 0x40_0000).checked_sub(FIRST)
}

impl<B: Bus> Bus for Panel<B> {
    ghost contents = { λ s. numbers s.feed ++ B.Bus.contents s.below };

    ghost meaning = { panel_meaning B.Bus.meaning };

    fn fetch(&self, at: u32) -> u32 {
        match own_cell(at) {
            Some(cell) => self.feed.show(cell),
            None => self.below.fetch(at),
        }
    }

    fn read(&mut self, at: u32) -> u32 {
        match own_cell(at) {
            Some(cell) => {
                let word = self.feed.show(cell);
                self.feed.take(cell);
                word
            }
            None => self.below.read(at),
        }
    }

    fn write(&mut self, at: u32, word: u32, marks: Marks) {
        if own_cell(at).is_none() {
            self.below.write(at, word, marks);
        }
    }

    fn pass(&mut self, clocks: u16) {
        self.feed.pass(clocks);
        self.below.pass(clocks);
    }
}
