//! The bus and its layers at their edges. What these tests show on examples, the contracts of the layers say of every input.
#![tactic(auto)]

#[cfg(test)]
mod memories;
#[cfg(test)]
mod panels;
#[cfg(test)]
mod roms;
#[cfg(test)]
mod stacks;

#[cfg(test)]
use memory::Memory;
#[cfg(test)]
use std::alloc::{AllocError, Global};

// A memory of so many words, each 7.
#[cfg(test)]
fn sevens(alloc: Global, count: usize) -> Result<Memory, AllocError> {
    let words = vec![in alloc; 7; count]?;
    Ok(Memory::new(words))
}
