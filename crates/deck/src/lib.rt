//! Decks: rows of 20 bytes, a letter, two fields and a newline, that say what stands in memory, registers and lines.
#![tactic(auto)]

mod field;
pub mod loading;
pub mod rows;
