//! A second interpreter of the card, written from docs/MACHINE.md, docs/BUS.md and docs/DECK.md alone, to be held against the proved one.
//!
//! It shares nothing with the other: one flat state holds core, memory, boot ROM and panel, and one step takes it over a clock. A
//! multiply or divide is reckoned as a whole on its last clock, since its operands do not change while it waits. It is proved to be safe
//! and to end, and not that it follows the documents: that is what the comparison is for.
#![tactic(auto)]

ghost use Rattle.std.specs.Prelude.{◌≡◌, ◌/◌, ◌%◌, ◌<◌, true, false, length, None, Err, IsOk, ◌==◌, slice_index, slice_set};

use arrayvec::ArrayVec;

mod fault;
mod rows;
mod sums;

pub use fault::Fault;
use sums::{Sum, Two, bit};

const HALF: u32 = 0x8000_0000;

/// Word addresses go round at 2^22.
const ROUND: u32 = 0x40_0000;

/// The most words that a memory holds.
const MOST_WORDS: u32 = 0x4_0000;

/// Address and value of the first word of the boot ROM.
const BOOT: u32 = 0x3F_F800;

const BOOT_WORD: u32 = 0xE700_07FF;

/// The panel's cell whose reading takes a byte.
const BYTE_CELL: u32 = 0x3F_FFF2;

/// Clocks from one byte of the feed to the next.
const PACE: u32 = 13_030;

/// The age at which all 64 bytes have come, and from which the panel counts no further.
const OLDEST: u32 = 833_920;

/// The conditions of branches by cc: bit 8 N + 4 Z + 2 C + V of an entry says whether it holds.
const CONDITIONS: [u32; 8] = [
    0xFF00, 0xF0F0, 0xCCCC, 0xAAAA, 0xFCFC, 0x55AA, 0xF5FA, 0xFFFF,
];

/// A finished instruction.
#[derive(Clone, Copy, PartialEq, Eq, Debug)]
pub struct Done {
    pub address: u32,
    pub word: u32,
    pub clocks: u32,
    pub stalls: u32,
    // 1 or 0, and no bool: docs/MACHINE.md has a record as five numbers
    pub acknowledged: u32,
}

/// Core and bus in one.
#[derive(Drop)]
pub struct Second {
    words: Vec<u32>,
    feed: ArrayVec<u8, 64>,
    taken: u32,
    age: u32,
    // no type of its own for a held core: it is preset, read and clocked as a live one, and its clock does nothing
    live: bool,
    registers: [u32; 16],
    h: u32,
    // 8 N + 4 Z + 2 C + V: one number and not four bools, since it names a bit of an entry of CONDITIONS
    flags: u32,
    pc: u32,
    ir: u32,
    s: u32,
    enable: bool,
    mode: bool,
    pending: bool,
    last_tick: bool,
    saved_pc: u32,
    saved_flags: u32,
    stalls: u32,
}

// What a register operation makes: a value, and H and the flags C and V (2 C + V) after it.
#[derive(Clone, Copy, PartialEq, Eq, Debug)]
struct Made {
    value: u32,
    h: u32,
    cv: u32,
}

// What the two top bits of a word tell apart.
#[derive(Clone, Copy, PartialEq, Eq, Debug)]
enum Class {
    Operation,
    Access,
    Branch,
}

// The lowest bits of the fields of four bits: the numbers of R.a, R.b and R.c, and op.
const A: u32 = 24;

const B: u32 = 20;

const OP: u32 = 16;

const C: u32 = 0;

#[tactic(auto, using(std::proofs::lemmas::List::set_past))]
fn put(cells: &mut [u32], at: u32, value: u32)
    ensures { cells.new ≡ slice_set cells.old at value }
{
    // not by get_mut: the check does not see in the slice what is written through the loan
    if (at as usize) < cells.len() {
        cells[at as usize] = value;
    }
}

// Four bits of a word, from `place` on.
fn field(word: u32, place: u32) -> u32 {
    (word >> (place % 32)) % 16
}

fn class_of(word: u32) -> Class {
    match word >> 30 {
        0 | 1 => Class::Operation,
        2 => Class::Access,
        _ => Class::Branch,
    }
}

fn clocks(word: u32) -> u32 {
    match (class_of(word), field(word, OP)) {
        (Class::Access, _) => 2,
        (Class::Operation, 10 | 11) => 32,
        _ => 1,
    }
}

fn byte_in(word: u32, lane: u32) -> u32 {
    let bytes = word.to_le_bytes();
    u32::from(bytes[(lane % 4) as usize])
}

fn with_byte(word: u32, lane: u32, value: u32) -> u32 {
    let mut bytes = word.to_le_bytes();
    bytes[(lane % 4) as usize] = (value % 256) as u8;
    u32::from_le_bytes(bytes)
}

impl Second {
    /// A held core with all at 0 over the first 262,144 words, the boot ROM, and a panel with the first 64 bytes of the feed.
    pub fn new(words: Vec<u32>, feed: &[u8]) -> Second
        ensures core { (result.live ≡ false) × ((result.s ≡ 0) × ((result.h ≡ 0) × (result.flags ≡ 0))) }
        ensures bus { (result.words ≡ words) × ((result.taken ≡ 0) × (result.age ≡ 0)) }
    {
        let first = &feed[..feed.len().min(64)];
        let places = ArrayVec::try_from(first).unwrap();
        let registers = [0u32; 16];
        Second {
            words,
            feed: places,
            taken: 0,
            age: 0,
            live: false,
            registers,
            h: 0,
            flags: 0,
            pc: 0,
            ir: 0,
            s: 0,
            enable: false,
            mode: false,
            pending: false,
            last_tick: false,
            saved_pc: 0,
            saved_flags: 0,
            stalls: 0,
        }
    }

    /// Sets a register and no flag; a number over 15 sets nothing.
    pub fn preset(&mut self, number: u32, value: u32) -> Result<(), Fault>
        ensures taken { number < 16 → IsOk result }
        ensures refused { 15 < number → result ≡ Err Fault.RegisterNumber }
        ensures sets { self.new.registers ≡ slice_set self.old.registers number value }
        ensures stays { (self.new.flags ≡ self.old.flags) × ((self.new.h ≡ self.old.h) × (self.new.words ≡ self.old.words)) }
    {
        put(&mut self.registers, number, value);
        if number < 16 {
            Ok(())
        } else {
            Err(Fault::RegisterNumber)
        }
    }

    /// Releases the core: it is live from then on, at the first word of the ROM.
    pub fn start(&mut self)
        ensures at { (self.new.pc ≡ 0x3F_F800) × ((self.new.s ≡ 0) × (self.new.live ≡ true)) }
        ensures stays { (self.new.registers ≡ self.old.registers) × ((self.new.h ≡ self.old.h) × ((self.new.flags ≡ self.old.flags) × (self.new.words ≡ self.old.words))) }
    {
        self.live = true;
        self.pc = BOOT;
        self.ir = self.shown(BOOT);
        self.s = 0;
        self.enable = false;
        self.mode = false;
        self.pending = false;
        self.last_tick = false;
        self.saved_pc = 0;
        self.saved_flags = 0;
        self.stalls = 0;
    }

    /// One clock on a line; the instruction that finishes on it, if one does. A held core does nothing.
    pub fn clock(&mut self, line: u8) -> Option<Done>
        ensures { self.old.live ≡ false → result ≡ None }
    {
        if !self.live {
            return None;
        }
        let done = if Second::stalled(line) {
            self.stalls = self.stalls.saturating_add(1);
            self.note(line);
            None
        } else {
            self.work(line)
        };
        if self.age < OLDEST {
            self.age += 1;
        }
        done
    }

    /// Whether a line is stalled.
    pub fn stalled(line: u8) -> bool
        ensures { result ≡ ((line / 2 % 2) == 1) }
    {
        line / 2 % 2 == 1
    }

    /// S: how many unstalled lines the instruction in hand has had.
    pub fn step(&self) -> u32
        ensures { result ≡ self.now.s }
    {
        self.s
    }

    /// A register; 0 for a number over 15.
    pub fn register(&self, number: u32) -> u32
        ensures { result ≡ slice_index self.now.registers number }
    {
        self.registers.get(number as usize).copied().unwrap_or(0)
    }

    /// H.
    pub fn h(&self) -> u32
        ensures { result ≡ self.now.h }
    {
        self.h
    }

    /// N, Z, C and V in bits 3 to 0.
    pub fn flags(&self) -> u32
        ensures { result ≡ self.now.flags }
    {
        self.flags
    }

    /// The word address of the instruction in hand.
    pub fn pc(&self) -> u32
        ensures { result ≡ self.now.pc }
    {
        self.pc
    }

    /// The word that the bus shows at a word address, modulo 2^22.
    pub fn shown(&self, at: u32) -> u32
        ensures { at % 0x40_0000 ≡ 0x3F_F800 → result ≡ 0xE700_07FF }
    {
        match at % ROUND {
            0x3F_FFF2 => self.waiting().map_or(0, u32::from),
            0x3F_FFF3 => u32::from(self.waiting().is_some()),
            0x3F_FFF0..=0x3F_FFFF => 0,
            0x3F_F800 => BOOT_WORD,
            0x3F_F801..=0x3F_F9FF => 0,
            below => self.remembered(below),
        }
    }

    /// Whether these lines may be clocked; else the first fault among them.
    pub fn check_lines(lines: &[u8]) -> Result<(), Fault>
        ensures { 65535 < length lines.now → result ≡ Err Fault.TooManyLines }
    {
        if lines.len() > 65_535 {
            return Err(Fault::TooManyLines);
        }
        match lines.iter().position(|line| *line > 3) {
            Some(place) => Err(Fault::Line(place as u32)),
            None => Ok(()),
        }
    }

    /// Whether this deck may be loaded over so many words of memory and room for so many lines; else its first fault.
    pub fn check_deck(deck: &[u8], words: u32, room: u32) -> Result<(), Fault>
        ensures { 65520 < length deck.now → result ≡ Err Fault.DeckSize }
    {
        rows::check(deck, words, room)
    }

    // Byte `taken` of the feed, if it has come: if the age has reached 13,030 × (taken + 1).
    fn waiting(&self) -> Option<u8> {
        if self.age / PACE > self.taken {
            self.feed.as_slice().get(self.taken as usize).copied()
        } else {
            None
        }
    }

    fn remembered(&self, at: u32) -> u32 {
        if at < MOST_WORDS {
            self.words.get(at as usize).copied().unwrap_or(0)
        } else {
            0
        }
    }

    fn remember(&mut self, at: u32, value: u32) {
        if at < MOST_WORDS {
            put(self.words.as_mut_slice(), at, value);
        }
    }

    // Pending and last tick after a line.
    fn note(&mut self, line: u8) {
        let tick = line % 2 == 1;
        self.pending = self.pending || (tick && !self.last_tick);
        self.last_tick = tick;
    }

    // An unstalled line.
    fn work(&mut self, line: u8) -> Option<Done> {
        let word = self.ir;
        if self.s == 0 && class_of(word) == Class::Access {
            self.access(word);
        }
        let so_far = self.s.saturating_add(1);
        if so_far < clocks(word) {
            self.s = so_far;
            self.note(line);
            return None;
        }
        Some(self.finish(word, line))
    }

    // What a load or store does, on its first unstalled line.
    fn access(&mut self, word: u32) {
        let at = self.byte_address(word);
        let whole = !bit(word, 28);
        if bit(word, 29) {
            let value = self.register(field(word, A));
            let old = self.remembered(at / 4);
            let new = if whole {
                value
            } else {
                with_byte(old, at % 4, value)
            };
            self.remember(at / 4, new);
        } else {
            let got = self.shown(at / 4);
            if at / 4 == BYTE_CELL && self.waiting().is_some() {
                self.taken = self.taken.saturating_add(1);
            }
            let value = if whole { got } else { byte_in(got, at % 4) };
            self.write(field(word, A), value);
        }
    }

    fn byte_address(&self, word: u32) -> u32 {
        let offset = word % 0x10_0000;
        // 2^24 - 2^20 more for a negative offset, since all is modulo 2^24
        let lift = if offset < 0x8_0000 { 0 } else { 0xF0_0000 };
        let base = self.register(field(word, B)) % 0x100_0000;
        (base + offset + lift) % 0x100_0000
    }

    // Writes a register, N and Z.
    fn write(&mut self, number: u32, value: u32) {
        put(&mut self.registers, number, value);
        let negative = u32::from(value >= HALF);
        let zero = u32::from(value == 0);
        self.flags = 8 * negative + 4 * zero + self.flags % 4;
    }

    // The last line of an instruction, but for the clock that the bus passes.
    fn finish(&mut self, word: u32, line: u8) -> Done {
        let address = self.pc;
        let by_register = class_of(word) == Class::Branch && !bit(word, 29);
        let returns = by_register && bit(word, 4);
        let acknowledged = self.pending && self.enable && !self.mode;
        let mut next = self.onward(word);
        self.effect(word);
        if returns {
            next = self.saved_pc;
            self.flags = self.saved_flags;
        }
        if acknowledged {
            self.saved_pc = next;
            self.saved_flags = self.flags;
            next = 1;
        }
        if by_register && !bit(word, 28) && bit(word, 5) {
            self.enable = bit(word, 0);
        }
        self.mode = !returns && (self.mode || acknowledged);
        self.pc = next;
        self.ir = self.shown(next);
        self.s = 0;
        self.note(line);
        if acknowledged {
            self.pending = false;
        }
        self.told(address, word, u32::from(acknowledged))
    }

    // The record of an instruction; the stalls of the next one are counted anew.
    fn told(&mut self, address: u32, word: u32, acknowledged: u32) -> Done {
        Done {
            address,
            word,
            clocks: clocks(word),
            stalls: std::mem::take(&mut self.stalls),
            acknowledged,
        }
    }

    fn after(&self) -> u32
        ensures { result < ROUND }
    {
        (self.pc % ROUND + 1) % ROUND
    }

    fn goes(&self, word: u32) -> bool {
        let row = CONDITIONS[(field(word, A) % 8) as usize];
        class_of(word) == Class::Branch && bit(row, self.flags) != bit(word, 27)
    }

    // Where the instruction leads by itself.
    fn onward(&self, word: u32) -> u32 {
        if !self.goes(word) {
            self.after()
        } else if bit(word, 29) {
            (self.after() + word % ROUND) % ROUND
        } else {
            self.register(field(word, C)) / 4 % ROUND
        }
    }

    // What an instruction writes as it finishes: a load or store writes nothing any more.
    fn effect(&mut self, word: u32) {
        match class_of(word) {
            Class::Operation => {
                let made = self.operated(word);
                self.h = made.h;
                self.flags = made.cv;
                self.write(field(word, A), made.value);
            }
            Class::Branch if bit(word, 28) && self.goes(word) => {
                let link = self.after() * 4;
                self.write(15, link);
            }
            _ => {}
        }
    }

    fn operand(&self, word: u32) -> u32 {
        if !bit(word, 30) {
            self.register(field(word, C))
        } else if bit(word, 28) {
            0xFFFF_0000 + word % 0x1_0000
        } else {
            word % 0x1_0000
        }
    }

    // What MOV with u = 1 brings.
    fn moved(&self, word: u32) -> u32 {
        if bit(word, 30) {
            word % 0x1_0000 * 0x1_0000
        } else if bit(word, 28) {
            self.flags % 16 * 0x1000_0000 + 0x53
        } else {
            self.h
        }
    }

    fn plain(&self, value: u32) -> Made {
        Made {
            value,
            h: self.h,
            cv: self.flags % 4,
        }
    }

    fn summed(&self, sum: Sum) -> Made {
        Made {
            value: sum.value,
            h: self.h,
            cv: 2 * u32::from(sum.carry) + u32::from(sum.overflow),
        }
    }

    fn paired(&self, two: Two) -> Made {
        Made {
            value: two.low,
            h: two.high,
            cv: self.flags % 4,
        }
    }

    // A register operation.
    fn operated(&self, word: u32) -> Made {
        let x = self.register(field(word, B));
        let n = self.operand(word);
        let u = bit(word, 29);
        let carry = u && bit(self.flags, 1);
        match field(word, OP) {
            0 => self.plain(if u { self.moved(word) } else { n }),
            1 => self.plain(sums::doubled(x, n % 32)),
            2 => self.plain(sums::halved(x, n % 32, |left| left >= HALF)),
            3 => self.plain(sums::halved(x, n % 32, |left| left % 2 == 1)),
            4 => self.plain(sums::mixed(x, n, |b, n| b && n)),
            5 => self.plain(sums::mixed(x, n, |b, n| b && !n)),
            6 => self.plain(sums::mixed(x, n, |b, n| b || n)),
            7 => self.plain(sums::mixed(x, n, |b, n| b != n)),
            8 => self.summed(sums::added(x, n, carry)),
            9 => self.summed(sums::subtracted(x, n, carry)),
            10 => self.paired(sums::product(x, n, !u)),
            11 => self.paired(sums::quotient(x, n)),
            _ => self.plain(0),
        }
    }
}
