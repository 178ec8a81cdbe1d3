//! Instruction words by chance: any word at all, and words of forms that keep a program near its memory.
use crate::chance::Random;

/// A register that programs leave as a base near the middle of their memory.
pub const HOME: u32 = 13;

/// One that they leave at the bottom of it.
pub const BOTTOM: u32 = 12;

/// One that they leave at the panel's first cell.
pub const CELLS: u32 = 14;

/// One that they leave at some instruction.
pub const PLACE: u32 = 11;

/// The byte address of the panel's first cell.
pub const PANEL: u32 = 0xFF_FFC0;

// A branch that is never taken and puts enable up.
pub const ENABLE: u32 = 0xCF00_0021;

// A return from interrupt.
pub const RETURN: u32 = 0xC700_0010;

const OFFSET: u32 = 0xF_FFFF;

const DISPLACEMENT: u32 = 0x3F_FFFF;

// The register that is written: seldom one that is left as a base.
fn written(random: &mut Random) -> u32 {
    let bound = if random.one_in(16) { 16 } else { PLACE };
    random.below(bound) << 24
}

fn any_b(random: &mut Random) -> u32 {
    random.below(16) << 20
}

// The bits u and v.
fn any_uv(random: &mut Random) -> u32 {
    random.below(4) << 28
}

fn operation(random: &mut Random) -> u32 {
    random.below(16) << 16
}

fn immediate(random: &mut Random) -> u32 {
    let bound = if random.one_in(3) { 0x1_0000 } else { 48 };
    random.below(bound)
}

fn by_constant(random: &mut Random) -> u32 {
    0x4000_0000
        | any_uv(random)
        | written(random)
        | any_b(random)
        | operation(random)
        | immediate(random)
}

// The bits above c do not matter, and are anything.
fn by_register(random: &mut Random) -> u32 {
    any_uv(random) | written(random) | any_b(random) | operation(random) | random.below(0x1_0000)
}

// A multiply or divide, by a register or a constant.
fn unit_word(random: &mut Random) -> u32 {
    let operand = random.below(2) << 30 | random.below(0x1_0000);
    let operation = (10 + random.below(2)) << 16;
    any_uv(random) | written(random) | any_b(random) | operation | operand
}

// A load or a store, of a word or a byte, by a base register and an offset.
fn access(random: &mut Random, base: u32, offset: u32) -> u32 {
    0x8000_0000 | any_uv(random) | written(random) | base << 20 | offset & OFFSET
}

fn near_access(random: &mut Random) -> u32 {
    let offset = random.about_zero(90, OFFSET);
    access(random, HOME, offset)
}

// Over the program itself.
fn program_access(random: &mut Random, count: u32) -> u32 {
    let offset = random.below(count.wrapping_mul(4).wrapping_add(8));
    access(random, BOTTOM, offset)
}

fn panel_access(random: &mut Random) -> u32 {
    let offset = if random.one_in(4) {
        random.below(64)
    } else {
        random.below(8) + 8
    };
    access(random, CELLS, offset)
}

// Below address 0, where the panel and the ROM stand, since addresses wrap.
fn wrapping_access(random: &mut Random) -> u32 {
    let offset = if random.one_in(2) {
        random.below(64).wrapping_sub(64)
    } else {
        random.below(0x900).wrapping_sub(0x2040)
    };
    access(random, BOTTOM, offset)
}

// Anywhere, by any register and offset.
fn far_access(random: &mut Random) -> u32 {
    let base = random.below(16);
    let offset = random.word();
    access(random, base, offset)
}

// Any condition, with or without link.
fn condition(random: &mut Random) -> u32 {
    let link = if random.one_in(4) { 0x1000_0000 } else { 0 };
    link | random.below(16) << 24
}

// Forward more often than back, so that few loops last for ever.
fn near_branch(random: &mut Random) -> u32 {
    let displacement = if random.one_in(4) {
        random.below(12).wrapping_neg()
    } else {
        random.below(6)
    };
    0xE000_0000 | condition(random) | displacement & DISPLACEMENT
}

// Any displacement, but never taken.
fn untaken_branch(random: &mut Random) -> u32 {
    0xEF00_0000 | random.below(2) << 28 | random.below(0x40_0000)
}

// To one of the last addresses, some of which are the panel's cells, and from there on to 0.
fn branch_to_top(random: &mut Random, at: u32) -> u32 {
    let back = at.wrapping_add(2 + random.below(20));
    let displacement = back.wrapping_neg();
    0xE000_0000 | condition(random) | displacement & DISPLACEMENT
}

// By the register with the link, by the one with a place, or by any.
fn register_branch(random: &mut Random) -> u32 {
    let register = match random.below(8) {
        0 => random.below(16),
        1..=3 => PLACE,
        _ => 15,
    };
    0xC000_0000 | condition(random) | random.below(0x4000) << 6 | register
}

// A branch by register that sets enable, returns from interrupt, or both.
fn interrupt_word(random: &mut Random) -> u32 {
    match random.below(8) {
        0..=2 => ENABLE,
        3 => RETURN,
        4 => 0xCF00_0010,
        5 => 0xCF00_0020 | random.below(32),
        6 => 0xC000_0000 | condition(random) | random.below(64),
        _ => 0xC000_0000 | condition(random) | 0x10 | random.below(64),
    }
}

// Any word; half of them no branch, since most branches among them leave the memory for good.
fn any_word(random: &mut Random) -> u32 {
    if random.one_in(2) {
        random.word()
    } else {
        random.word() & 0xBFFF_FFFF
    }
}

/// A word to stand at an address in a program of so many words.
pub fn instruction(random: &mut Random, at: u32, count: u32) -> u32 {
    match random.below(40) {
        0..=7 => by_constant(random),
        8..=14 => by_register(random),
        15..=19 => near_access(random),
        20..=21 => program_access(random, count),
        22..=24 => panel_access(random),
        25..=28 => near_branch(random),
        29..=30 => register_branch(random),
        31..=32 => interrupt_word(random),
        33 => wrapping_access(random),
        34 => branch_to_top(random, at),
        35 => far_access(random),
        36 => untaken_branch(random),
        37..=38 => unit_word(random),
        _ => any_word(random),
    }
}

/// A loop that waits until the panel has a byte of the feed, loads it and stores it behind those before.
pub const POLLING: [u32; 6] = [
    0x81E0_000C, // R1 := cell 3
    0xE13F_FFFE, // if that is 0, again
    0x92E0_0008, // R2 := the byte of cell 2
    0xB2D0_0000, // store it at R13
    0x4DD8_0001, // R13 := R13 + 1
    0xE73F_FFFA, // go to the first
];

/// A branch that is always taken, from an address to an address.
pub fn go(at: u32, to: u32) -> u32 {
    0xE700_0000 | to.wrapping_sub(at).wrapping_sub(1) & DISPLACEMENT
}
