//! Instruction words: their fields, their kinds and clocks, where loads and stores go, and what branches do.
#![tactic(auto)]

mod table;

ghost use Rattle.std.specs.Prelude.{◌≡◌, ◌<◌, ◌≤◌, Some};
ghost use Rattle.isa.specs.Numbers.{bit, field};
ghost use Rattle.isa.specs.Word.{q, u, v, a, b, c, imm, constant};
ghost use Rattle.isa.specs.Kinds.{code_of, operation_at, register_kind, kind_at, kind_of, clocks_of};
ghost use Rattle.isa.specs.Names.{operation_name, kind_name};
ghost use Rattle.isa.specs.Digits.{digit_of, Reads};
ghost use Rattle.isa.specs.Access.{address_of, word_of, loaded, sent};
ghost use Rattle.isa.specs.Branch.{holds, taken_by, following, target_of, link_of, returns_by, enabled_by};

use bus::{Marks, lanes};
use std::error::Error;
use std::fmt;

/// The four flags.
#[derive(Clone, Copy, PartialEq, Eq, Debug, Default)]
pub struct Flags {
    pub n: bool,
    pub z: bool,
    pub c: bool,
    pub v: bool,
}

/// A number over 15, which stands for no flags.
#[derive(Clone, Copy, PartialEq, Eq, Debug)]
pub struct FlagsError(pub u8);

/// The digit of the flags: 8 for N, 4 for Z, 2 for C and 1 for V.
impl From<Flags> for u8 {
    ghost from_gives = { λ flags digit. digit ≡ digit_of flags };

    fn from(flags: Flags) -> u8 {
        8 * u8::from(flags.n) + 4 * u8::from(flags.z) + 2 * u8::from(flags.c) + u8::from(flags.v)
    }
}

/// The flags that a digit stands for. Refuses a number over 15.
impl TryFrom<u8> for Flags {
    type Error = FlagsError;

    ghost try_from_gives = { Reads };

    fn try_from(digit: u8) -> Result<Flags, FlagsError> {
        if digit > 15 {
            return Err(FlagsError(digit));
        }
        Ok(Flags {
            n: digit / 8 % 2 == 1,
            z: digit / 4 % 2 == 1,
            c: digit / 2 % 2 == 1,
            v: digit % 2 == 1,
        })
    }
}

impl fmt::Display for FlagsError {
    fn fmt<W: fmt::Write>(&self, f: &mut fmt::Formatter<W>) -> fmt::Result {
        write!(f, "flags are a number up to 15, and not {}", self.0)
    }
}

impl Error for FlagsError {}

/// What a register instruction does besides multiplying and dividing; `Zero` stands for the operations 12 to 15.
#[derive(Clone, Copy, PartialEq, Eq, Debug)]
pub enum Operation {
    Mov,
    Lsl,
    Asr,
    Ror,
    And,
    Ann,
    Ior,
    Xor,
    Add,
    Sub,
    Zero,
}

impl fmt::Display for Operation {
    ghost output = { λ operation. Some (operation_name operation) };

    fn fmt<W: fmt::Write>(&self, f: &mut fmt::Formatter<W>) -> fmt::Result {
        f.write_str(match self {
            Operation::Mov => "MOV",
            Operation::Lsl => "LSL",
            Operation::Asr => "ASR",
            Operation::Ror => "ROR",
            Operation::And => "AND",
            Operation::Ann => "ANN",
            Operation::Ior => "IOR",
            Operation::Xor => "XOR",
            Operation::Add => "ADD",
            Operation::Sub => "SUB",
            Operation::Zero => "zero",
        })
    }
}

/// What the core does with a word.
#[derive(Clone, Copy, PartialEq, Eq, Debug)]
pub enum Kind {
    Register(Operation),
    Multiply,
    Divide,
    Load,
    Store,
    Branch,
}

impl fmt::Display for Kind {
    ghost output = { λ kind. Some (kind_name kind) };

    fn fmt<W: fmt::Write>(&self, f: &mut fmt::Formatter<W>) -> fmt::Result {
        match self {
            Kind::Register(operation) => operation.fmt(f),
            Kind::Multiply => f.write_str("MUL"),
            Kind::Divide => f.write_str("DIV"),
            Kind::Load => f.write_str("load"),
            Kind::Store => f.write_str("store"),
            Kind::Branch => f.write_str("branch"),
        }
    }
}

/// What a store sends over the bus.
#[derive(Clone, Copy, PartialEq, Eq, Debug)]
pub struct Sent {
    pub word: u32,
    pub marks: Marks,
}

/// An instruction word.
#[derive(Clone, Copy, PartialEq, Eq, Debug)]
pub struct Instruction {
    pub word: u32,
}

// Bit i of a word.
fn is_set(word: u32, i: u32) -> bool
    requires { i < 32 }
    ensures { result ≡ bit i word }
{
    (word >> i) % 2 == 1
}

// The number of a register: the four bits from bit i on.
fn register_number(word: u32, i: u32) -> usize
    requires { i < 32 }
    ensures { result ≡ field i 4 word }
{
    ((word >> i) % 16) as usize
}

// Operations 0 to 9, and the others. No `From`, since a number names an operation only in a word whose p is 0.
fn operation_at(op: u8) -> Operation
    ensures { result ≡ operation_at op }
{
    match op {
        0 => Operation::Mov,
        1 => Operation::Lsl,
        2 => Operation::Asr,
        3 => Operation::Ror,
        4 => Operation::And,
        5 => Operation::Ann,
        6 => Operation::Ior,
        7 => Operation::Xor,
        8 => Operation::Add,
        9 => Operation::Sub,
        _ => Operation::Zero,
    }
}

fn register_kind(op: u8) -> Kind
    ensures { result ≡ register_kind op }
{
    match op {
        10 => Kind::Multiply,
        11 => Kind::Divide,
        _ => Kind::Register(operation_at(op)),
    }
}

/// The kind with a number: bits 31 to 28 of its words, and then their bits 19 to 16.
impl From<u8> for Kind {
    ghost from_gives = { λ code kind. kind ≡ kind_at code };

    fn from(code: u8) -> Kind {
        match code {
            0..=127 => register_kind(code % 16),
            128..=159 => Kind::Load,
            160..=191 => Kind::Store,
            192..=255 => Kind::Branch,
        }
    }
}

// One of the eight conditions, before inversion. An enum of them would only name the numbers of this match.
fn condition(cc: u32, flags: Flags) -> bool
    ensures { result ≡ holds cc flags }
{
    match cc {
        0 => flags.n,
        1 => flags.z,
        2 => flags.c,
        3 => flags.v,
        4 => flags.c || flags.z,
        5 => flags.n != flags.v,
        6 => flags.n != flags.v || flags.z,
        _ => true,
    }
}

impl Instruction {
    // The number of its kind: bits 31 to 28 and 19 to 16.
    fn code(self) -> u8
        ensures { result ≡ code_of self.word }
    {
        ((self.word >> 28) * 16 + (self.word >> 16) % 16) as u8
    }

    #[tactic(auto, unfolding(crate::specs::Kinds::kind_of))]
    pub fn kind(self) -> Kind
        ensures { result ≡ kind_of self.word }
    {
        Kind::from(self.code())
    }

    /// How many clocks it takes, by the table.
    #[tactic(auto, using(crate::proofs::Counts::at_least_one), unfolding(crate::specs::Kinds::kind_of))]
    pub fn clocks(self) -> u16
        ensures value { result ≡ clocks_of self.word }
        ensures least { 1 ≤ result }
    {
        u16::from(table::clocks(self.code()))
    }

    /// Bit 30: the operand is a constant.
    pub fn q(self) -> bool
        ensures { result ≡ q self.word }
    {
        is_set(self.word, 30)
    }

    /// Bit 29.
    pub fn u(self) -> bool
        ensures { result ≡ u self.word }
    {
        is_set(self.word, 29)
    }

    /// Bit 28.
    pub fn v(self) -> bool
        ensures { result ≡ v self.word }
    {
        is_set(self.word, 28)
    }

    /// The number of the register R.a.
    pub fn a(self) -> usize
        ensures { result ≡ a self.word }
    {
        register_number(self.word, 24)
    }

    /// The number of the register R.b.
    pub fn b(self) -> usize
        ensures { result ≡ b self.word }
    {
        register_number(self.word, 20)
    }

    /// The number of the register R.c.
    pub fn c(self) -> usize
        ensures { result ≡ c self.word }
    {
        register_number(self.word, 0)
    }

    /// Its low 16 bits.
    pub fn immediate(self) -> u32
        ensures { result ≡ imm self.word }
    {
        self.word % 0x1_0000
    }

    /// The constant operand: the low 16 bits below sixteen copies of v.
    pub fn constant(self) -> u32
        ensures { result ≡ constant self.word }
    {
        let low = self.immediate();
        if self.v() { 0xFFFF_0000 + low } else { low }
    }

    /// The byte address of a load or store, from the value of R.b.
    pub fn address(self, base: u32) -> u32
        ensures { result ≡ address_of self.word base }
    {
        let offset = self.word % 0x10_0000;
        // The offset modulo 2^24: its sign fills bits 23 to 20.
        let wide = if offset < 0x8_0000 {
            offset
        } else {
            offset + 0xF0_0000
        };
        base.wrapping_add(wide) % 0x100_0000
    }

    /// What a load from a byte address gives of the word shown there.
    pub fn load(self, address: u32, shown: u32) -> u32
        ensures { result ≡ loaded self.word address shown }
    {
        if self.v() {
            u32::from(lanes::byte_in(shown, address))
        } else {
            shown
        }
    }

    /// What a store of a value at a byte address sends.
    pub fn store(self, address: u32, value: u32) -> Sent
        ensures { result ≡ sent self.word address value }
    {
        if self.v() {
            Sent {
                word: lanes::word_with((value % 256) as u8, address),
                marks: Marks::only(address),
            }
        } else {
            Sent {
                word: value,
                marks: Marks::all(),
            }
        }
    }

    /// Whether a branch is taken under these flags.
    pub fn taken(self, flags: Flags) -> bool
        ensures { result ≡ taken_by self.word flags }
    {
        is_set(self.word, 27) != condition((self.word >> 24) % 8, flags)
    }

    /// Where a taken branch at `pc` goes, from the value of R.c.
    pub fn target(self, pc: u32, value: u32) -> u32
        ensures { result ≡ target_of self.word pc value }
    {
        if self.u() {
            pc.wrapping_add(1 + self.word % 0x40_0000) % 0x40_0000
        } else {
            word_at(value)
        }
    }

    /// Whether a branch returns from interrupt, taken or not.
    pub fn returns(self) -> bool
        ensures { result ≡ returns_by self.word }
    {
        !self.u() && is_set(self.word, 4)
    }

    /// Enable after a branch, from what it was before.
    pub fn enables(self, enable: bool) -> bool
        ensures { result ≡ enabled_by self.word enable }
    {
        if !self.u() && !self.v() && is_set(self.word, 5) {
            is_set(self.word, 0)
        } else {
            enable
        }
    }
}

/// The word address that a byte address lies in.
pub fn word_at(address: u32) -> u32
    ensures { result ≡ word_of address }
{
    (address >> 2) % 0x40_0000
}

/// The word address after `pc`, modulo 2^22.
pub fn next(pc: u32) -> u32
    ensures { result ≡ following pc }
{
    pc.wrapping_add(1) % 0x40_0000
}

/// The byte address after `pc`, which a linking branch keeps.
pub fn link(pc: u32) -> u32
    ensures { result ≡ link_of pc }
{
    4 * next(pc)
}
