//! The panel's own part: a feed whose bytes arrive one by one, and wait until they are read.
ghost use Rattle.std.specs.Prelude.{◌≡◌, ◌≤◌, length};
ghost use Rattle.panel.specs.Cells.{new_feed, next_byte, feed_shown, feed_read, feed_passed};

use crate::MOST_BYTES;
use bus::table::filled_with;

const BYTE_CLOCKS: u32 = 13_030;

const LAST_AGE: u32 = 833_920;

// The cells that show something: the oldest byte, and whether there is one.
const BYTE: u32 = 2;

const READY: u32 = 3;

/// A feed of up to 64 bytes, how many of them were taken, and the age in clocks.
#[derive(Drop)]
pub struct Feed {
    age: u32,
    taken: u8,
    // Bytes with their count beside them: there is no heap, and the bus's contents name both.
    count: u8,
    bytes: [u8; 64],
    ghost young: { age ≤ 833920 },
    ghost some: { taken ≤ count },
    ghost most: { count ≤ 64 },
    ghost whole: { length bytes ≡ 64 },
}

impl Feed {
    ghost use Rattle.panel.specs.Numbers.{numbers};

    // The first 64 bytes, none of them arrived.
    pub(crate) fn new(feed: &[u8]) -> Feed
        ensures { numbers result ≡ new_feed feed.now }
    {
        let bytes = filled_with(0, feed);
        Feed {
            age: 0,
            taken: 0,
            count: feed.len().min(MOST_BYTES) as u8,
            bytes,
        }
    }

    // The byte that has arrived and was not taken, if there is one.
    fn next(&self) -> Option<u8>
        ensures { result ≡ next_byte self.now.age self.now.taken self.now.count self.now.bytes }
    {
        if self.taken < self.count && BYTE_CLOCKS * (u32::from(self.taken) + 1) <= self.age {
            Some(self.bytes[usize::from(self.taken)])
        } else {
            None
        }
    }

    // What a cell shows.
    pub(crate) fn show(&self, at: u32) -> u32
        ensures { result ≡ feed_shown (numbers self.now) at }
    {
        match (at, self.next()) {
            (BYTE, Some(byte)) => u32::from(byte),
            (READY, Some(_)) => 1,
            _ => 0,
        }
    }

    // A read of a cell: one of the byte's cell takes the byte that is shown there.
    pub(crate) fn take(&mut self, at: u32)
        ensures { numbers self.new ≡ feed_read (numbers self.old) at }
    {
        if at == BYTE && self.next().is_some() {
            self.taken += 1;
        }
    }

    pub(crate) fn pass(&mut self, clocks: u16)
        ensures { numbers self.new ≡ feed_passed (numbers self.old) clocks }
    {
        self.age += u32::from(clocks).min(LAST_AGE - self.age);
    }
}
