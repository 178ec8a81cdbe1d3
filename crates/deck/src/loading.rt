//! Loading a deck: all of it or nothing.
ghost use Rattle.std.specs.Prelude.{◌≡◌, ◌<◌, ◌≤◌, ◌++◌, true, length, drop, is_ok};
ghost use Rattle.refusal.specs.Heard.{outcome};
ghost use Rattle.deck.specs.Rows.{Fits};
ghost use Rattle.deck.specs.Decks.{lines_of, room_for, all_deeds, deck_says, counted};
ghost use Rattle.deck.specs.Law.{InOrder, FirstFault, LowestTold, LastWins, LinesFollow};
ghost use Rattle.deck.specs.Loaded.{word_of, register_of, placed, words_after, registers_after, lines_after};

use crate::rows::{Deck, Deed};
use refusal::Refusal;

/// The most lines that a deck adds.
pub const MOST_LINES: usize = 65_535;

impl Deed {
    // How many lines a deed adds.
    fn lines(self) -> usize
        ensures value { result ≡ length (lines_of self) }
        ensures few { result < 65536 }
    {
        match self {
            Deed::Adds(_, count) => usize::from(count),
            _ => 0,
        }
    }

    // Does what a deed asks for; its lines go to the front of those that are free.
    // The places written stay parameters of their own: a struct of `&mut`s would add a clause for each, that it is still the same reference.
    fn apply(self, words: &mut [u32], registers: &mut [u32; 16], free: &mut [u8])
        requires { (Fits (length words.old) self) × (length (lines_of self) ≤ length free.old) }
        ensures words { words.new ≡ placed words.old (word_of self) }
        ensures registers { registers.new ≡ placed registers.old (register_of self) }
        ensures lines { free.new ≡ lines_of self ++ drop (length (lines_of self)) free.old }
    {
        match self {
            Deed::Sets(address, word) => words[address] = word,
            Deed::Presets(register, value) => registers[register] = value,
            Deed::Adds(value, count) => free[..usize::from(count)].fill(value),
        }
    }
}

// The lines so far after the deed of a row, where `used` stand before it.
fn lines_with(deed: Deed, row: u32, used: usize, room: usize) -> Result<usize, Refusal>
    requires { used ≤ 65535 }
    ensures { outcome result ≡ room_for room row used deed }
{
    let total = used + deed.lines();
    if total > room.min(MOST_LINES) {
        return Err(Refusal::LinesFull(row));
    }
    Ok(total)
}

impl Deck<'_> {
    // How many lines the deck's rows add, or the refusal of its first faulty row. Nothing is written.
    fn check(&self, words: usize, room: usize) -> Result<usize, Refusal>
        ensures { outcome result ≡ counted (all_deeds self.now.bytes.now words room) }
    {
        let mut used = 0;
        // By number and not by an iterator over rows, since a row's number is also the place that its refusal tells.
        for row in 0..self.rows() as u32 {
            let deed = self.deed(row, words)?;
            used = lines_with(deed, row, used, room)?;
        }
        Ok(used)
    }

    // Does what each row asks for, in the rows' order, once all are known to be without fault.
    fn write(&self, words: &mut [u32], registers: &mut [u32; 16], lines: &mut [u8])
        requires { is_ok (all_deeds self.now.bytes.now (length words.old) (length lines.old)) ≡ true }
        ensures words { words.new ≡ words_after (all_deeds self.now.bytes.now (length words.old) (length lines.old)) words.old }
        ensures registers { registers.new ≡ registers_after (all_deeds self.now.bytes.now (length words.old) (length lines.old)) registers.old }
        ensures lines { lines.new ≡ lines_after (all_deeds self.now.bytes.now (length words.old) (length lines.old)) lines.old }
    {
        // A count beside the buffer: of a rest that shrinks by `split_at_mut` in a loop, a proof knows only the length once the loop has ended.
        let mut used = 0;
        for row in 0..self.rows() as u32 {
            let deed = self.deed(row, words.len()).unwrap();
            let (_, free) = lines.split_at_mut(used);
            deed.apply(words, registers, free);
            used += deed.lines();
        }
    }
}

// What holds of every deck, for the contract of `load`. Nothing runs here.
fn laws()
    ensures in_order { InOrder }
    ensures first_fault { FirstFault }
    ensures lowest_told { LowestTold }
    ensures last_word { LastWins word_of }
    ensures last_register { LastWins register_of }
    ensures lines_follow { LinesFollow }
{}

/// Loads a deck: what its rows ask for, in their order, into the words of a memory, the registers and the buffer of lines. Answers
/// how many lines the deck adds. A refused deck changes nothing.
pub fn load(
    deck: &[u8],
    words: &mut [u32],
    registers: &mut [u32; 16],
    lines: &mut [u8],
) -> Result<usize, Refusal>
    ensures answer { outcome result ≡ counted (deck_says deck.now (length words.old) (length lines.old)) }
    ensures words { words.new ≡ words_after (deck_says deck.now (length words.old) (length lines.old)) words.old }
    ensures registers { registers.new ≡ registers_after (deck_says deck.now (length words.old) (length lines.old)) registers.old }
    ensures lines { lines.new ≡ lines_after (deck_says deck.now (length words.old) (length lines.old)) lines.old }
    ensures in_order { InOrder }
    ensures first_fault { FirstFault }
    ensures lowest_told { LowestTold }
    ensures last_word { LastWins word_of }
    ensures last_register { LastWins register_of }
    ensures lines_follow { LinesFollow }
{
    laws();
    let deck = Deck::new(deck)?;
    let used = deck.check(words.len(), lines.len())?;
    deck.write(words, registers, lines);
    Ok(used)
}
