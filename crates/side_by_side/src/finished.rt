//! What kinds of instructions the cases finished.
use isa::{Instruction, Kind};
use second::Done;
use std::alloc::{AllocError, Global};
use std::collections::BTreeMap;
use std::num::Saturating;

/// How many instructions of each class were finished; besides, how many returned from interrupt, were the word 0, or acknowledged a tick.
#[derive(Clone, Copy, PartialEq, Eq, Default, Debug)]
pub struct Classes {
    pub operations: Saturating<u64>,
    pub multiplies: Saturating<u64>,
    pub divides: Saturating<u64>,
    pub loads: Saturating<u64>,
    pub stores: Saturating<u64>,
    pub branches: Saturating<u64>,
    pub returns: Saturating<u64>,
    pub empty: Saturating<u64>,
    pub acknowledged: Saturating<u64>,
}

impl Classes {
    fn count(&mut self, done: Done) {
        let instruction = Instruction { word: done.word };
        match instruction.kind() {
            Kind::Register(_) => self.operations += 1,
            Kind::Multiply => self.multiplies += 1,
            Kind::Divide => self.divides += 1,
            Kind::Load => self.loads += 1,
            Kind::Store => self.stores += 1,
            Kind::Branch => {
                self.branches += 1;
                if instruction.returns() {
                    self.returns += 1;
                }
            }
        }
        if done.word == 0 {
            self.empty += 1;
        }
        self.acknowledged += u64::from(done.acknowledged);
    }
}

// The code of a kind of word: its bits 31 to 28, and 19 to 16.
type Code = (u32, u32);

/// Finished instructions, counted by class and by kind of word.
#[derive(Drop)]
pub struct Finished {
    pub classes: Classes,
    kinds: BTreeMap<Code, Saturating<u64>>,
}

impl Finished {
    pub fn new(alloc: Global) -> Finished {
        Finished {
            classes: Classes::default(),
            kinds: BTreeMap::new(alloc),
        }
    }

    /// Counts an instruction.
    pub fn count(&mut self, done: Done) -> Result<(), AllocError> {
        self.classes.count(done);
        let code = (done.word >> 28, (done.word >> 16) % 16);
        *self.kinds.entry(code)?.or_default() += 1;
        Ok(())
    }

    /// How many kinds were finished.
    pub fn kinds(&self) -> usize {
        self.kinds.len()
    }

    /// How often the rarest of them was.
    pub fn rarest(&self) -> u64 {
        self.kinds.values().map(|count| count.0).min().unwrap_or(0)
    }
}
