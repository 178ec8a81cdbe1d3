//! The card's bus: the panel over the boot ROM over a memory.
#![tactic(auto)]

ghost use Rattle.std.specs.Prelude.{◌≡◌, [], length, replicate, IfOk};
ghost use Rattle.refusal.specs.Heard.{heard, first_heard};
ghost use Rattle.memory.specs.Words.{words_refusal};
ghost use Rattle.panel.specs.Cells.{feed_refusal};
ghost use Rattle.rom.specs.Boot.{ShowsBoot};
ghost use Rattle.card.specs.Stack.{card_meaning, card_contents, new_card, MemoryBelow};

use memory::Memory;
use panel::Panel;
use refusal::Refusal;
use rom::Rom;
use std::alloc::{AllocError, Global};

/// The words of the standard card's memory.
pub const STANDARD_WORDS: usize = 4_096;

/// Panel over boot ROM over memory.
pub type Card = Panel<Rom<Memory>>;

/// Whether a card may be made of these words and this feed: the words first.
pub fn check(words: &[u32], feed: &[u8]) -> Result<(), Refusal>
    ensures { heard result ≡ first_heard (words_refusal (length words.now)) (feed_refusal (length feed.now)) }
{
    memory::check(words)?;
    panel::check(feed)
}

/// A card with the first 262,144 of these words and the first 64 bytes of the feed.
pub fn stack(words: Vec<u32>, feed: &[u8]) -> Card
    ensures contents { card_contents result ≡ new_card words.items feed.now }
    ensures shows_boot { ShowsBoot card_meaning (card_contents result) }
    ensures memory_below { MemoryBelow }
{
    let memory = Memory::new(words);
    let rom = Rom::boot(memory);
    Panel::new(rom, feed)
}

/// The standard card: 4,096 zero words and no feed.
pub fn standard(alloc: Global) -> Result<Card, AllocError>
    ensures { IfOk result (λ c. card_contents c ≡ new_card (replicate 4096 0) []) }
{
    let words = vec![in alloc; 0; STANDARD_WORDS]?;
    Ok(stack(words, &[]))
}
