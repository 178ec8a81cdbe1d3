//! Cases on fields, kinds, register operations, loads, stores and branches.
ghost use Rattle.std.specs.Prelude.{◌≡◌, if◌then◌else◌};
ghost use Rattle.isa.specs.Word.{q, constant};

use alu::{Inputs, operate, write_flags};
use anyhow::{anyhow, bail};
use isa::{Flags, Instruction, Kind, Sent, link, next, word_at};

/// Four flags from their digit.
pub(crate) fn flags_from(digit: u32) -> anyhow::Result<Flags> {
    u8::try_from(digit)
        .ok()
        .and_then(|digit| Flags::try_from(digit).ok())
        .ok_or_else(|| anyhow!("flags are one digit"))
}

/// An instruction word, with the values of R.b and R.c.
#[derive(Clone, Copy, PartialEq, Eq, Debug)]
pub(crate) struct Given {
    pub instruction: Instruction,
    pub b: u32,
    pub c: u32,
}

impl Given {
    pub(crate) fn new(word: u32, b: u32, c: u32) -> Given
        ensures { result ≡ record { instruction = record { word = word }; b = b; c = c } }
    {
        Given {
            instruction: Instruction { word },
            b,
            c,
        }
    }

    /// The operand n: the word's constant, or the value of R.c.
    pub(crate) fn n(self) -> u32
        ensures { result ≡ (if q self.instruction.word then constant self.instruction.word else self.c) }
    {
        if self.instruction.q() {
            self.instruction.constant()
        } else {
            self.c
        }
    }
}

// No `TryFrom`, since both types are std's.
fn switch_from(number: u32) -> anyhow::Result<bool> {
    match number {
        0 => Ok(false),
        1 => Ok(true),
        _ => bail!("a switch is 0 or 1"),
    }
}

// The instruction of a word that is of this kind.
fn instruction_of(kind: Kind, word: u32) -> anyhow::Result<Instruction> {
    let instruction = Instruction { word };
    if instruction.kind() != kind {
        bail!("the word is no {kind}");
    }
    Ok(instruction)
}

pub(crate) fn fields(rt: &impl Print, word: u32) -> anyhow::Result<()> {
    let i = Instruction { word };
    let kind = i.kind();
    let clocks = i.clocks();
    print!(rt; " {kind}, clocks {clocks}")?;
    let q = u8::from(i.q());
    let u = u8::from(i.u());
    let v = u8::from(i.v());
    let a = i.a();
    let b = i.b();
    let c = i.c();
    print!(rt; ", q {q}, u {u}, v {v}, a {a}, b {b}, c {c}")?;
    let immediate = i.immediate();
    let constant = i.constant();
    println!(rt; ", immediate {immediate:04X}, constant {constant:08X}")?;
    Ok(())
}

pub(crate) fn kinds(rt: &impl Print, word: u32) -> anyhow::Result<()> {
    let rest = word & 0xFFF0_FFFF;
    for op in 0..16u32 {
        let i = Instruction {
            word: rest | op << 16,
        };
        let kind = i.kind();
        let clocks = i.clocks();
        print!(rt; " {kind} {clocks}")?;
    }
    println!(rt)?;
    Ok(())
}

pub(crate) fn op(rt: &impl Print, given: Given, h: u32, digit: u32) -> anyhow::Result<()> {
    let Given { instruction, b, .. } = given;
    let Kind::Register(operation) = instruction.kind() else {
        bail!("the word is no register operation");
    };
    let n = given.n();
    let flags = flags_from(digit)?;
    let outcome = operate(operation, instruction, Inputs { b, n, h, flags });
    let value = outcome.value;
    let after = u8::from(outcome.flags);
    println!(rt; " {operation} n {n:08X}, value {value:08X}, flags {after:X}")?;
    Ok(())
}

pub(crate) fn load(
    rt: &impl Print,
    word: u32,
    base: u32,
    shown: u32,
    digit: u32,
) -> anyhow::Result<()> {
    let instruction = instruction_of(Kind::Load, word)?;
    let flags = flags_from(digit)?;
    let address = instruction.address(base);
    let at = word_at(address);
    let value = instruction.load(address, shown);
    let after = u8::from(write_flags(value, flags));
    println!(rt;
        " byte address {address:06X}, word address {at:06X}, value {value:08X}, flags {after:X}"
    )?;
    Ok(())
}

pub(crate) fn store(rt: &impl Print, word: u32, base: u32, value: u32) -> anyhow::Result<()> {
    let instruction = instruction_of(Kind::Store, word)?;
    let address = instruction.address(base);
    let at = word_at(address);
    let Sent { word, marks } = instruction.store(address, value);
    let [b0, b1, b2, b3] = <[bool; 4]>::from(marks).map(u8::from);
    println!(rt;
        " byte address {address:06X}, word address {at:06X}, sent {word:08X}, marks {b0}{b1}{b2}{b3}"
    )?;
    Ok(())
}

pub(crate) fn taken(rt: &impl Print, word: u32) -> anyhow::Result<()> {
    let instruction = instruction_of(Kind::Branch, word)?;
    print!(rt; " ")?;
    for digit in 0..16 {
        let taken = u8::from(instruction.taken(flags_from(digit)?));
        print!(rt; "{taken}")?;
    }
    println!(rt)?;
    Ok(())
}

pub(crate) fn branch(
    rt: &impl Print,
    word: u32,
    pc: u32,
    c: u32,
    digit: u32,
    enable: u32,
) -> anyhow::Result<()> {
    let instruction = instruction_of(Kind::Branch, word)?;
    let flags = flags_from(digit)?;
    let taken = instruction.taken(flags);
    let address = if taken {
        instruction.target(pc, c)
    } else {
        next(pc)
    };
    let link = (taken && instruction.v()).then(|| link(pc));
    let after = u8::from(link.map_or(flags, |value| write_flags(value, flags)));
    print!(rt; " next {address:06X}")?;
    match link {
        Some(value) => print!(rt; ", R15 {value:08X}")?,
        None => print!(rt; ", no link")?,
    }
    let returns = u8::from(instruction.returns());
    let enabled = u8::from(instruction.enables(switch_from(enable)?));
    println!(rt; ", flags {after:X}, return {returns}, enable {enabled}")?;
    Ok(())
}
