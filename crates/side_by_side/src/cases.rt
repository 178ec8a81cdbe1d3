//! Cases by chance: a memory with a program, registers, a feed and lines.
use crate::chance::Random;
use crate::words;
use std::alloc::{AllocError, Global};

/// How long a case lasts.
#[derive(Clone, Copy, PartialEq, Eq, Debug)]
pub enum Length {
    /// Up to some hundred lines.
    Short,
    /// So many lines that some bytes of the feed arrive.
    Long,
    /// So many that the whole feed does.
    WholeFeed,
}

// More words than a memory takes.
const TOO_MANY_WORDS: u32 = 262_150;

impl Length {
    /// How many lines a call is given at most.
    pub fn longest_call(self) -> u32 {
        match self {
            Length::Short => 400,
            Length::Long => 9_000,
            Length::WholeFeed => 65_536,
        }
    }

    // The number of words: now and then none, too many, or very few.
    fn word_count(self, random: &mut Random) -> u32 {
        match self {
            Length::Short => match random.below(800) {
                0 => TOO_MANY_WORDS,
                1..=4 => 0,
                5..=60 => random.below(6) + 1,
                _ => random.below(90) + 10,
            },
            Length::Long | Length::WholeFeed => random.below(60) + 10,
        }
    }

    // At most 64 bytes of a feed count; some feeds have more.
    fn feed(self, alloc: Global, random: &mut Random) -> Result<Vec<u8>, AllocError> {
        let count = match self {
            Length::Short => random.below(3),
            Length::Long => random.below(70),
            Length::WholeFeed => random.below(16) + 56,
        };
        (0..count).map(|_| random.byte()).collect(alloc)
    }

    fn line_count(self, random: &mut Random) -> u32 {
        let sharp = random.one_in(2);
        match self {
            Length::Short => match random.below(4) {
                0 => random.below(40),
                1 => random.below(1_500),
                _ => random.below(300),
            },
            Length::Long => {
                if sharp {
                    let bytes = random.below(4) + 1;
                    until_arrival(random, bytes)
                } else {
                    random.below(40_000) + 14_000
                }
            }
            Length::WholeFeed => {
                if sharp {
                    until_arrival(random, 64)
                } else {
                    random.below(40_000) + 820_000
                }
            }
        }
    }

    fn habit(self, random: &mut Random) -> Habit {
        let turn = turns(random);
        let (stall, resume) = match self {
            Length::Short => match random.below(4) {
                0 => (1_000_000, 1),
                1 => (8, 1),
                2 => (2, 2),
                _ => (2, 12),
            },
            Length::Long => (30, 60),
            Length::WholeFeed => (30, 700),
        };
        Habit {
            stall,
            resume,
            turn,
        }
    }

    fn lines(self, alloc: Global, random: &mut Random) -> Result<Vec<u8>, AllocError> {
        let habit = self.habit(random);
        let mut lines = Vec::new(alloc);
        let mut tick = false;
        let mut stalls = false;
        for _ in 0..self.line_count(random) {
            if random.one_in(habit.turn) {
                tick = !tick;
            }
            let change = if stalls { habit.resume } else { habit.stall };
            if random.one_in(change) {
                stalls = !stalls;
            }
            lines.push(u8::from(tick) + 2 * u8::from(stalls))?;
        }
        Ok(lines)
    }
}

/// What both machines are given.
#[derive(Drop)]
pub struct Case {
    pub length: Length,
    pub words: Vec<u32>,
    pub registers: [u32; 16],
    pub feed: Vec<u8>,
    pub lines: Vec<u8>,
}

impl Case {
    /// A case of some length.
    pub fn new(alloc: Global, random: &mut Random, length: Length) -> Result<Case, AllocError> {
        let count = length.word_count(random);
        let words = Program::new(random, count, length).words(alloc, random)?;
        let registers = make_registers(random, count);
        let feed = length.feed(alloc, random)?;
        let lines = length.lines(alloc, random)?;
        Ok(Case {
            length,
            words,
            registers,
            feed,
            lines,
        })
    }
}

// The form of a program: how many words it has, whether they are any words at all from the first on, whether it waits for the feed, and where its
// interrupt handler stands.
#[derive(Clone, Copy, PartialEq, Eq, Debug)]
struct Program {
    count: u32,
    plain: bool,
    polls: bool,
    handler: u32,
}

impl Program {
    fn new(random: &mut Random, count: u32, length: Length) -> Program {
        let plain = random.one_in(8);
        let polls = length != Length::Short && random.one_in(2);
        let handler = random.below(5) + 1;
        Program {
            count,
            plain,
            polls,
            handler,
        }
    }

    fn words(self, alloc: Global, random: &mut Random) -> Result<Vec<u32>, AllocError> {
        (0..self.count)
            .map(|at| self.word(random, at))
            .collect(alloc)
    }

    fn word(self, random: &mut Random, at: u32) -> u32 {
        let start = self.handler.wrapping_add(2);
        if self.plain {
            words::instruction(random, at, self.count)
        } else if at < start {
            self.opening(random, at)
        } else {
            self.body(random, at, at.wrapping_sub(start))
        }
    }

    // The words at the beginning: a branch over the handler, which stands from address 1 on, the handler with its return, and enable put up. Each
    // but the first may be missing.
    fn opening(self, random: &mut Random, at: u32) -> u32 {
        let enable = self.handler.wrapping_add(1);
        if at == 0 {
            words::go(0, enable)
        } else if at == self.handler && !random.one_in(8) {
            words::RETURN
        } else if at == enable && !random.one_in(8) {
            words::ENABLE
        } else {
            words::instruction(random, at, self.count)
        }
    }

    // The words after the beginning. What comes to the end of the program begins again somewhere in it.
    fn body(self, random: &mut Random, at: u32, place: u32) -> u32 {
        match words::POLLING.get(place as usize) {
            Some(word) if self.polls => *word,
            _ if self.count.wrapping_sub(at) <= 2 => words::go(at, random.below(self.count)),
            _ => words::instruction(random, at, self.count),
        }
    }
}

// A value that is worth trying in a register.
fn value(random: &mut Random, count: u32) -> u32 {
    match random.below(10) {
        0 => 0,
        1 => random.below(64),
        2 => 0xFFFF_FFFF,
        3 => 0x8000_0000,
        4 => 0x7FFF_FFFF,
        5 => random.below(64).wrapping_sub(32),
        6 => random.below(count.wrapping_mul(4)),
        7 => words::instruction(random, 0, count),
        _ => random.word(),
    }
}

// Registers that programs take as bases; one in sixteen is anything all the same.
fn base(random: &mut Random, number: u32, count: u32) -> u32 {
    if random.one_in(16) {
        return value(random, count);
    }
    match number {
        words::HOME => count.wrapping_mul(2),
        words::BOTTOM => 0,
        words::CELLS => words::PANEL,
        _ => random.below(count).wrapping_mul(4),
    }
}

fn make_registers(random: &mut Random, count: u32) -> [u32; 16] {
    let mut registers = [0; 16];
    for (number, register) in registers.iter_mut().enumerate() {
        *register = if number < 11 {
            value(random, count)
        } else {
            base(random, number as u32, count)
        };
    }
    registers
}

// About as many lines as bytes of the feed take to arrive: two fewer to one more.
fn until_arrival(random: &mut Random, bytes: u32) -> u32 {
    bytes
        .wrapping_mul(13_030)
        .wrapping_add(random.below(4))
        .wrapping_sub(2)
}

// How often the tick turns, from every other line to hardly ever.
fn turns(random: &mut Random) -> u32 {
    match random.below(5) {
        0 => 2,
        1 => 6,
        2 => 30,
        3 => 150,
        _ => 100_000,
    }
}

// How often lines stall and ticks turn: once in so many lines.
#[derive(Clone, Copy, PartialEq, Eq, Debug)]
struct Habit {
    stall: u32,
    resume: u32,
    turn: u32,
}
