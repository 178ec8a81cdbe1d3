//! A whole deck run in one call.
#![tactic(auto)]

ghost use Rattle.std.specs.Prelude.{◌≡◌, [], length, replicate, IfOk};
ghost use Rattle.refusal.specs.Heard.{outcome};
ghost use Rattle.machine.specs.Laws.{Law};
ghost use Rattle.risc5.specs.Set.{card, pace};
ghost use Rattle.cpu.specs.Calls.{leap_answer, leap_records, overlaid, leap_call};
ghost use Rattle.card.specs.Stack.{card_meaning, new_card};
ghost use Rattle.deck.specs.Loaded.{lines_after};
ghost use Rattle.deck_run.specs.Runs.{start_with, said, answer_of, records_of, Answers, unless_wanting, Alone, Ran};
ghost use Rattle.deck_run.specs.declared.Failure.TheVariants.{Refused, Memory};

use bus::Bus;
use card::STANDARD_WORDS;
use cpu::Held;
use deck::loading::load;
use machine::Record;
use refusal::Refusal;
use std::alloc::{AllocError, Global};
use std::fmt;

/// Why a deck was not run.
#[derive(Clone, Copy, PartialEq, Eq, Debug, Drop)]
pub enum Failure {
    /// The deck is refused.
    Refused(Refusal),
    /// There is no memory for the card's words.
    Memory,
}

impl fmt::Display for Failure {
    fn fmt<W: fmt::Write>(&self, f: &mut fmt::Formatter<W>) -> fmt::Result {
        match self {
            Self::Refused(refusal) => write!(f, "{refusal}"),
            Self::Memory => write!(f, "there is no memory for the card's words"),
        }
    }
}

impl std::error::Error for Failure {}

// Written by hand, since a derived `From` would not say in a contract which failure it gives.
impl From<Refusal> for Failure {
    ghost from_gives = { λ e r. r ≡ Refused e };

    fn from(refusal: Refusal) -> Failure {
        Failure::Refused(refusal)
    }
}

impl From<AllocError> for Failure {
    ghost from_gives = { λ _ r. r ≡ Memory };

    fn from(_error: AllocError) -> Failure {
        Failure::Memory
    }
}

// Lines and trace are lent apart, here and below, as the caller holds them: a struct of them would be taken apart again at each call.
// Releases a core with these registers over a bus and leaps once.
fn leap_once<B: Bus>(
    bus: &mut B,
    registers: [u32; 16],
    lines: &[u8],
    trace: &mut [Record],
) -> Result<(u32, u32, u32), Refusal>
    ensures answer { result ≡ leap_answer B.Bus.meaning (length trace.old) lines.now (start_with B.Bus.meaning registers (B.Bus.contents bus.old)) }
    ensures trace { trace.new ≡ overlaid (leap_records B.Bus.meaning (length trace.old) lines.now (start_with B.Bus.meaning registers (B.Bus.contents bus.old))) trace.old }
    ensures history { Alone B.Bus.meaning (start_with B.Bus.meaning registers (B.Bus.contents bus.old)) (leap_call lines.now (length trace.old) trace.new result) }
    ensures law { Law B.Bus.meaning card pace (start_with B.Bus.meaning registers (B.Bus.contents bus.old)) }
{
    let mut live = Held::with_registers(registers).release(&*bus);
    live.leap(bus, lines, trace)
}

// The same over a card of these words.
fn leap_on_card(
    words: Vec<u32>,
    registers: [u32; 16],
    lines: &[u8],
    trace: &mut [Record],
) -> Result<(u32, u32, u32), Refusal>
    ensures answer { result ≡ leap_answer card_meaning (length trace.old) lines.now (start_with card_meaning registers (new_card words.items [])) }
    ensures trace { trace.new ≡ overlaid (leap_records card_meaning (length trace.old) lines.now (start_with card_meaning registers (new_card words.items []))) trace.old }
    ensures history { Alone card_meaning (start_with card_meaning registers (new_card words.items [])) (leap_call lines.now (length trace.old) trace.new result) }
    ensures law { Law card_meaning card pace (start_with card_meaning registers (new_card words.items [])) }
{
    let mut bus = card::stack(words, &[]);
    leap_once(&mut bus, registers, lines, trace)
}

// Runs a deck over words that are 0.
fn run_over(
    mut words: Vec<u32>,
    deck: &[u8],
    lines: &mut [u8],
    trace: &mut [Record],
) -> Result<(u32, u32, u32), Refusal>
    requires { words.items ≡ replicate 4096 0 }
    ensures answer { outcome result ≡ answer_of (length trace.old) (said deck.now (length lines.old)) }
    ensures lines { lines.new ≡ lines_after (said deck.now (length lines.old)) lines.old }
    ensures trace { trace.new ≡ overlaid (records_of (length trace.old) (said deck.now (length lines.old))) trace.old }
    ensures history { IfOk result (λ a. Ran deck.now (length lines.old) (length trace.old) trace.new a) }
{
    let mut registers = [0; 16];
    let count = load(deck, &mut words, &mut registers, lines)?;
    let (own, _) = lines.split_at(count);
    leap_on_card(words, registers, own, trace)
}

/// Runs a deck on a standard card: loads its words, registers and lines, releases the core and leaps once over the deck's lines. Answers the leap's
/// three numbers: lines used, records written into `trace`, and 1 exactly if a share remained but no room for its record. A refused deck changes
/// neither `lines` nor `trace`, nor does want of memory.
pub fn run(
    alloc: Global,
    deck: &[u8],
    lines: &mut [u8],
    trace: &mut [Record],
) -> Result<(u32, u32, u32), Failure>
    ensures answer { Answers result (answer_of (length trace.old) (said deck.now (length lines.old))) }
    ensures lines { lines.new ≡ unless_wanting result (lines_after (said deck.now (length lines.old)) lines.old) lines.old }
    ensures trace { trace.new ≡ unless_wanting result (overlaid (records_of (length trace.old) (said deck.now (length lines.old))) trace.old) trace.old }
    ensures history { IfOk result (λ a. Ran deck.now (length lines.old) (length trace.old) trace.new a) }
{
    let words = vec![in alloc; 0; STANDARD_WORDS]?;
    let answer = run_over(words, deck, lines, trace)?;
    Ok(answer)
}
