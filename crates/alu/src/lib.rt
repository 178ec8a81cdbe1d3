//! Register operations and flags: everything that a register instruction does but multiply and divide.
#![tactic(auto)]

mod sums;
mod words;

ghost use Rattle.std.specs.Prelude.{◌≡◌};
ghost use Rattle.alu.specs.Operations.{written, plain, arithmetic, flag_word, moved, carry_in, outcome};

use isa::{Flags, Instruction, Operation};
use sums::Sum;

/// What a register operation reads: the value of R.b, the operand n, H and the flags.
#[derive(Clone, Copy, PartialEq, Eq, Debug)]
pub struct Inputs {
    pub b: u32,
    pub n: u32,
    pub h: u32,
    pub flags: Flags,
}

/// What a register operation gives: the value to write into R.a, and the flags after it.
#[derive(Clone, Copy, PartialEq, Eq, Debug)]
pub struct Outcome {
    pub value: u32,
    pub flags: Flags,
}

/// The flags after any register write: N and Z by the value.
pub fn write_flags(value: u32, flags: Flags) -> Flags
    ensures { result ≡ written value flags }
{
    Flags {
        n: value >= 0x8000_0000,
        z: value == 0,
        ..flags
    }
}

// A value that leaves C and V alone.
fn give(value: u32, flags: Flags) -> Outcome
    ensures { result ≡ plain value flags }
{
    Outcome {
        value,
        flags: write_flags(value, flags),
    }
}

// The value of a sum or a difference, with C and V by it.
fn give_sum(sum: Sum, flags: Flags) -> Outcome
    ensures { result ≡ arithmetic sum.value sum.carry sum.overflow flags }
{
    give(
        sum.value,
        Flags {
            c: sum.carry,
            v: sum.overflow,
            ..flags
        },
    )
}

fn flag_word(flags: Flags) -> u32
    ensures { result ≡ flag_word flags }
{
    (u32::from(u8::from(flags)) << 28) + 0x53
}

fn mov(instruction: Instruction, inputs: Inputs) -> u32
    ensures { result ≡ moved instruction.word inputs }
{
    match (instruction.u(), instruction.q(), instruction.v()) {
        (false, _, _) => inputs.n,
        (true, true, _) => instruction.immediate() * 0x1_0000,
        (true, false, true) => flag_word(inputs.flags),
        (true, false, false) => inputs.h,
    }
}

fn carry_in(instruction: Instruction, flags: Flags) -> bool
    ensures { result ≡ carry_in instruction.word flags }
{
    instruction.u() && flags.c
}

/// One register operation of an instruction word.
pub fn operate(operation: Operation, instruction: Instruction, inputs: Inputs) -> Outcome
    ensures { result ≡ outcome operation instruction.word inputs }
{
    let Inputs { b, n, flags, .. } = inputs;
    match operation {
        Operation::Mov => give(mov(instruction, inputs), flags),
        Operation::Lsl => give(words::shift_left(b, n), flags),
        Operation::Asr => give(words::shift_signed(b, n), flags),
        Operation::Ror => give(words::rotate(b, n), flags),
        Operation::And => give(b & n, flags),
        Operation::Ann => give(words::and_not(b, n), flags),
        Operation::Ior => give(b | n, flags),
        Operation::Xor => give(b ^ n, flags),
        Operation::Add => give_sum(sums::add(b, n, carry_in(instruction, flags)), flags),
        Operation::Sub => give_sum(sums::subtract(b, n, carry_in(instruction, flags)), flags),
        Operation::Zero => give(0, flags),
    }
}
