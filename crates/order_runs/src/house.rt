//! The house's checking program on the card: it reads the quantity, compares it with the house's limit and stores its verdict. It is run by clock and
//! by leap, over the same lines.
ghost use Rattle.std.specs.Prelude.{◌≡◌, ◌≤◌, length, sum_by};
ghost use Rattle.order_runs.specs.Verdicts.{Reads};

use bus::Bus;
use card::{Card, STANDARD_WORDS};
use cpu::Held;
use history::watching::watch;
use history::{Answer, Request, Way, play};
use isa::Flags;
use machine::Record;
use order::{Field, store_field_at};
use refusal::Refusal;
use std::alloc::{AllocError, Global};
use std::error::Error;
use std::{array, fmt};

/// The largest quantity that the house passes on.
pub const LIMIT: u32 = 10_000;

/// The lines of a run.
pub const LINES: usize = 121;

// Where the field, the limit and the verdict stand: a byte address and two word addresses.
const FIELD_AT: u32 = 256;

const LIMIT_AT: usize = 65;

const VERDICT_AT: u32 = 66;

// The register that the program reads the quantity into.
const QUANTITY_IN: usize = 2;

/// Reads the quantity by one word load.
pub static BY_WORD: [u32; 14] = [
    0xE700_0003, // 0: go to 4
    0xC700_0010, // 1: the tick's handler: return from interrupt
    0,
    0,
    0xCF00_0021, // 4: enable interrupts
    0x4100_0100, // 5: R1 := 256, where the field stands
    0x8210_0000, // 6: R2 := the word there
    0x8310_0004, // 7: R3 := the limit
    0x0439_0002, // 8: R4 := R3 - R2; C says that the quantity is over the limit
    0x4500_0001, // 9: R5 := 1, passed
    0xEA00_0001, // 10: if not C, go to 12
    0x4500_0002, // 11: R5 := 2, refused
    0xA510_0008, // 12: store the verdict
    0xE73F_FFFF, // 13: stay here
];

/// Reads the quantity byte by byte, the first byte highest, as it was sent.
pub static BY_BYTES: [u32; 23] = [
    0xE700_0003, // 0: go to 4
    0xC700_0010, // 1: the tick's handler: return from interrupt
    0,
    0,
    0xCF00_0021, // 4: enable interrupts
    0x4100_0100, // 5: R1 := 256, where the field stands
    0x9210_0000, // 6: R2 := its first byte
    0x4221_0008, // 7: R2 := R2 shifted left by 8
    0x9610_0001, // 8: R6 := its second byte
    0x0226_0006, // 9: R2 := R2 or R6
    0x4221_0008, // 10: R2 := R2 shifted left by 8
    0x9610_0002, // 11: R6 := its third byte
    0x0226_0006, // 12: R2 := R2 or R6
    0x4221_0008, // 13: R2 := R2 shifted left by 8
    0x9610_0003, // 14: R6 := its fourth byte
    0x0226_0006, // 15: R2 := R2 or R6
    0x8310_0004, // 16: R3 := the limit
    0x0439_0002, // 17: R4 := R3 - R2; C says that the quantity is over the limit
    0x4500_0001, // 18: R5 := 1, passed
    0xEA00_0001, // 19: if not C, go to 21
    0x4500_0002, // 20: R5 := 2, refused
    0xA510_0008, // 21: store the verdict
    0xE73F_FFFF, // 22: stay here
];

/// The verdict of the house on an order.
#[derive(Clone, Copy, PartialEq, Eq, Debug)]
pub enum Verdict {
    Passed,
    OverTheLimit,
}

/// A word that is no verdict.
#[derive(Clone, Copy, PartialEq, Eq, Debug)]
pub struct NoVerdict(pub u32);

/// The verdict that a word stands for, as the house's programs store it.
impl TryFrom<u32> for Verdict {
    type Error = NoVerdict;

    ghost try_from_gives = { Reads };

    fn try_from(word: u32) -> Result<Verdict, NoVerdict> {
        match word {
            1 => Ok(Verdict::Passed),
            2 => Ok(Verdict::OverTheLimit),
            _ => Err(NoVerdict(word)),
        }
    }
}

impl fmt::Display for Verdict {
    fn fmt<W: fmt::Write>(&self, f: &mut fmt::Formatter<W>) -> fmt::Result {
        match self {
            Verdict::Passed => write!(f, "passed"),
            Verdict::OverTheLimit => write!(f, "refused, over the limit"),
        }
    }
}

impl fmt::Display for NoVerdict {
    fn fmt<W: fmt::Write>(&self, f: &mut fmt::Formatter<W>) -> fmt::Result {
        write!(f, "There is no verdict yet")
    }
}

impl Error for NoVerdict {}

/// What a run comes to, by clock or by leap: the instructions, and what the core and its card had at the end.
#[derive(Clone, Copy, PartialEq, Eq, Debug)]
pub struct Outcome {
    pub instructions: u32,
    pub registers: [u32; 16],
    pub h: u32,
    pub flags: Flags,
    pub verdict: Result<Verdict, NoVerdict>,
}

/// A run by clock: the stalls that clocking told, added up over its calls.
#[derive(Clone, Copy, PartialEq, Eq, Debug)]
pub struct ByClock {
    pub stalls: u32,
    pub outcome: Outcome,
}

/// The clocks, stalls and acknowledged ticks of records, added up.
#[derive(Clone, Copy, PartialEq, Eq, Debug)]
pub struct Totals {
    pub clocks: u64,
    pub stalls: u64,
    pub acknowledged: u64,
}

/// A run by leap: the lines that leaping used, and what its records tell.
#[derive(Clone, Copy, PartialEq, Eq, Debug)]
pub struct ByLeap {
    pub lines: u32,
    pub totals: Totals,
    pub outcome: Outcome,
}

impl Totals {
    fn of(records: &[Record]) -> Totals
        requires { length records.now ≤ LINES }
        ensures clocks { result.clocks ≡ sum_by (λ finished. finished.clocks) records.now }
        ensures stalls { result.stalls ≡ sum_by (λ finished. finished.stalls) records.now }
        ensures acknowledged { result.acknowledged ≡ sum_by (λ finished. finished.acknowledged) records.now }
    {
        Totals {
            clocks: records.iter().map(|record| u64::from(record.clocks)).sum(),
            stalls: records.iter().map(|record| u64::from(record.stalls)).sum(),
            acknowledged: records
                .iter()
                .map(|record| u64::from(record.acknowledged))
                .sum(),
        }
    }
}

impl Outcome {
    fn new(instructions: u32, held: &Held, card: &Card) -> Result<Outcome, Refusal> {
        let mut registers = [0; 16];
        for (register, number) in registers.iter_mut().zip(0..16) {
            *register = held.register(number)?;
        }
        Ok(Outcome {
            instructions,
            registers,
            h: held.h(),
            flags: held.flags(),
            verdict: Verdict::try_from(card.fetch(VERDICT_AT)),
        })
    }

    /// The quantity that the program read.
    pub fn quantity(self) -> u32 {
        self.registers[QUANTITY_IN]
    }
}

// Every third line is stalled, and the tick is up on every other sixteen.
fn line_at(place: usize) -> u8 {
    let stall = u8::from(place % 3 == 2);
    let tick = u8::from(place / 16 % 2 == 1);
    2 * stall + tick
}

/// What a run begins with: a card with the program from address 0 on, the limit and the order's bytes, and the lines.
#[derive(Drop)]
pub struct Setting {
    card: Card,
    lines: [u8; LINES],
}

impl Setting {
    pub fn new(alloc: Global, program: &[u32], field: Field) -> Result<Setting, AllocError> {
        let mut words = vec![in alloc; 0; STANDARD_WORDS]?;
        for (place, word) in words.iter_mut().zip(program) {
            *place = *word;
        }
        if let Some(place) = words.get_mut(LIMIT_AT) {
            *place = LIMIT;
        }
        let mut card = card::stack(words, &[]);
        store_field_at(&mut card, FIELD_AT, field);
        Ok(Setting {
            card,
            lines: array::from_fn(line_at),
        })
    }

    /// The clock, counted from 1, after which the card first showed a verdict.
    pub fn verdict_clock(self) -> Option<usize> {
        let Setting { mut card, lines } = self;
        let mut live = Held::new().release(&card);
        watch(&mut live, &mut card, &lines, VERDICT_AT).ok()
    }

    /// The whole run by clock, in two calls.
    pub fn by_clock(self) -> Result<ByClock, Refusal> {
        let Setting { mut card, lines } = self;
        let requests = [
            Request {
                way: Way::ByClock,
                first: 0,
                count: 50,
            },
            Request {
                way: Way::ByClock,
                first: 50,
                count: LINES,
            },
        ];
        let mut answers = [Answer::Clocked(Ok((0, 0))); 2];
        let played = play(
            Held::new(),
            &mut card,
            &lines,
            &requests,
            &mut answers,
            &mut [],
        );
        // One loop for both sums, since a refused call ends it.
        let mut instructions = 0u32;
        let mut stalls = 0u32;
        for answer in answers {
            if let Answer::Clocked(told) = answer {
                let (finished, stalled) = told?;
                instructions = instructions.saturating_add(finished);
                stalls = stalls.saturating_add(stalled);
            }
        }
        Ok(ByClock {
            stalls,
            outcome: Outcome::new(instructions, &played.live.hold(), &card)?,
        })
    }

    /// The whole run by leap, in one call.
    pub fn by_leap(self) -> Result<ByLeap, Refusal> {
        let Setting { mut card, lines } = self;
        let requests = [Request {
            way: Way::ByLeap,
            first: 0,
            count: LINES,
        }];
        let mut answers = [Answer::Leapt(Ok((0, 0, 0)))];
        let mut trace = [Record::default(); LINES];
        let played = play(
            Held::new(),
            &mut card,
            &lines,
            &requests,
            &mut answers,
            &mut trace,
        );
        // A request by leap is answered by a leap: the other arm is not taken.
        let (lines, instructions, _) = match answers[0] {
            Answer::Leapt(told) => told?,
            Answer::Clocked(_) => (0, 0, 0),
        };
        Ok(ByLeap {
            lines,
            totals: Totals::of(&trace[..played.records.min(LINES)]),
            outcome: Outcome::new(instructions, &played.live.hold(), &card)?,
        })
    }
}
