//! A memory of up to 262,144 words, as a bus.
#![tactic(auto)]

ghost use Rattle.std.specs.Prelude.{◌≡◌, ◌≤◌, length, take, vec_len};
ghost use Rattle.bus.specs.Meaning.{Still};
ghost use Rattle.refusal.specs.Heard.{heard};
ghost use Rattle.memory.specs.Words.{words_refusal, memory_meaning};
ghost use Rattle.memory.specs.Keeps.{Keeps};

use bus::lanes::merge;
use bus::{Bus, Marks};
use refusal::Refusal;

/// The most words that a memory holds.
pub const MOST_WORDS: usize = 262_144;

/// Up to 262,144 words from address 0; elsewhere it shows 0 and ignores writes.
#[derive(Drop)]
pub struct Memory {
    words: Vec<u32>,
    ghost most: { vec_len words ≤ 262144 },
}

// A test of its own for each layer, since a shared one would take the limit and the refusal and leave only its call.
/// Whether a memory may be made of these words.
pub fn check(words: &[u32]) -> Result<(), Refusal>
    ensures { heard result ≡ words_refusal (length words.now) }
{
    if words.is_empty() || words.len() > MOST_WORDS {
        return Err(Refusal::MemoryWords);
    }
    Ok(())
}

impl Memory {
    /// A memory of the first 262,144 of these words.
    pub fn new(mut words: Vec<u32>) -> Memory
        ensures words { result.words.items ≡ take 262144 words.items }
        ensures keeps { Keeps }
        ensures still { Still memory_meaning }
    {
        words.truncate(MOST_WORDS);
        Memory { words }
    }
}

impl Bus for Memory {
    ghost contents = { λ s. s.words.items };

    ghost meaning = { memory_meaning };

    fn fetch(&self, at: u32) -> u32 {
        let place = (at % 0x40_0000) as usize;
        self.words.get(place).copied().unwrap_or(0)
    }

    fn read(&mut self, at: u32) -> u32 {
        self.fetch(at)
    }

    fn write(&mut self, at: u32, word: u32, marks: Marks) {
        let place = (at % 0x40_0000) as usize;
        if let Some(old) = self.words.get_mut(place) {
            *old = merge(*old, word, marks);
        }
    }

    fn pass(&mut self, _clocks: u16) {}
}
