//! A word as four bytes, each in its lane: byte 0, the lowest, is in lane 0.
ghost use Rattle.std.specs.Prelude.{◌≡◌, ◌%◌};
ghost use Rattle.bus.specs.Lanes.{in_lane, placed, merged};

use crate::Marks;
use std::array;

/// The byte of a word that the low two bits of a byte address name.
pub fn byte_in(word: u32, address: u32) -> u8
    ensures { result ≡ in_lane word (address % 4) }
{
    let bytes = word.to_le_bytes();
    bytes[(address % 4) as usize]
}

/// The word with one byte in the lane that a byte address names, and 0 in the others.
pub fn word_with(byte: u8, address: u32) -> u32
    ensures { result ≡ placed byte (address % 4) }
{
    let mut bytes = [0; 4];
    bytes[(address % 4) as usize] = byte;
    u32::from_le_bytes(bytes)
}

/// The word `old`, with the marked bytes of `new` in their lanes.
pub fn merge(old: u32, new: u32, marks: Marks) -> u32
    ensures { result ≡ merged old new marks }
{
    let marked = <[bool; 4]>::from(marks);
    let old = old.to_le_bytes();
    let new = new.to_le_bytes();
    u32::from_le_bytes(array::from_fn(|lane| if marked[lane] { new[lane] } else { old[lane] }))
}
