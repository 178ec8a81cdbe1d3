//! An order's quantity field: as its line writes it, as it is sent, and as the card stores and loads it.
#![tactic(auto)]

pub mod line;

ghost use Rattle.std.specs.Prelude.{◌≡◌, ◌+◌, ◌/◌, ◌%◌, ◌^◌, ◌≤◌, IfOk};
ghost use Rattle.bus.specs.Calls.{called, after};
ghost use Rattle.bus.specs.Lanes.{in_lane, placed, only_marked};
ghost use Rattle.order.specs.Quantity.{bytes_of, sent_as, loaded_as, byte_store, byte_stores, field_stores, field_loads, loaded_bytes};

use bus::lanes::{byte_in, word_with};
use bus::{Bus, Marks};
use std::alloc::{AllocError, Global};

/// The four bytes of a quantity field, in the order in which they are sent.
#[derive(Clone, Copy, PartialEq, Eq, Debug)]
pub struct Field {
    pub b0: u8,
    pub b1: u8,
    pub b2: u8,
    pub b3: u8,
}

impl From<[u8; 4]> for Field {
    ghost from_gives = { λ bytes field. bytes_of field ≡ bytes };

    fn from(bytes: [u8; 4]) -> Field {
        let [b0, b1, b2, b3] = bytes;
        Field { b0, b1, b2, b3 }
    }
}

impl From<Field> for [u8; 4] {
    ghost from_gives = { λ field bytes. bytes ≡ bytes_of field };

    fn from(field: Field) -> [u8; 4] {
        [field.b0, field.b1, field.b2, field.b3]
    }
}

impl Field {
    /// The quantity as it is sent: the first byte is the highest.
    pub fn sent(self) -> u32
        ensures { result ≡ sent_as (bytes_of self) }
    {
        u32::from_be_bytes(self.into())
    }
}

/// What a byte store asks of the bus.
#[derive(Clone, Copy, PartialEq, Eq, Debug)]
pub struct ByteStore {
    pub at: u32,
    pub word: u32,
    pub marks: Marks,
}

impl ByteStore {
    /// The store of a byte at a byte address.
    pub fn new(address: u32, byte: u8) -> ByteStore
        ensures at { result.at ≡ address / 4 }
        ensures word { result.word ≡ placed byte (address % 4) }
        ensures marks { result.marks ≡ only_marked (address % 4) }
    {
        ByteStore {
            at: address / 4,
            word: word_with(byte, address),
            marks: Marks::only(address),
        }
    }
}

/// Stores a byte at a byte address.
pub fn store_byte<B: Bus>(bus: &mut B, address: u32, byte: u8)
    ensures { B.Bus.contents bus.new ≡ called B.Bus.meaning (B.Bus.contents bus.old) (byte_store address byte) }
{
    let store = ByteStore::new(address, byte);
    bus.write(store.at, store.word, store.marks);
}

/// Stores a field's bytes from a byte address on, in the order in which they are sent. The bus takes addresses modulo 2^24, so that none is too high.
pub fn store_field_at<B: Bus>(bus: &mut B, address: u32, field: Field)
    ensures { B.Bus.contents bus.new ≡ after B.Bus.meaning (B.Bus.contents bus.old) (byte_stores address (bytes_of field)) }
{
    let bytes = <[u8; 4]>::from(field);
    for (place, byte) in bytes.iter().enumerate() {
        store_byte(bus, address.wrapping_add(place as u32), *byte);
    }
}

/// Stores a field's bytes at byte addresses 0 to 3, in the order in which they are sent.
pub fn store_field<B: Bus>(bus: &mut B, field: Field)
    ensures { B.Bus.contents bus.new ≡ after B.Bus.meaning (B.Bus.contents bus.old) (field_stores (bytes_of field)) }
{
    store_field_at(bus, 0, field);
}

/// Loads the byte at a byte address.
pub fn load_byte<B: Bus>(bus: &mut B, address: u32) -> u8
    ensures byte { result ≡ in_lane (B.Bus.meaning.shown (B.Bus.contents bus.old) (address / 4 % 2 ^ 22)) (address % 4) }
    ensures after { B.Bus.contents bus.new ≡ B.Bus.meaning.read (B.Bus.contents bus.old) (address / 4 % 2 ^ 22) }
{
    let word = bus.read(address / 4);
    byte_in(word, address)
}

/// Loads the word at a byte address, whose low two bits are ignored.
pub fn load_word<B: Bus>(bus: &mut B, address: u32) -> u32
    ensures word { result ≡ B.Bus.meaning.shown (B.Bus.contents bus.old) (address / 4 % 2 ^ 22) }
    ensures after { B.Bus.contents bus.new ≡ B.Bus.meaning.read (B.Bus.contents bus.old) (address / 4 % 2 ^ 22) }
{
    let at = address / 4;
    bus.read(at)
}

/// Loads the bytes at byte addresses 0 to 3.
pub fn load_field<B: Bus>(bus: &mut B) -> Field
    ensures bytes { bytes_of result ≡ loaded_bytes B.Bus.meaning (B.Bus.contents bus.old) }
    ensures after { B.Bus.contents bus.new ≡ after B.Bus.meaning (B.Bus.contents bus.old) field_loads }
{
    // Four calls: `array::from_fn` does not tell what its closure leaves of the bus.
    Field {
        b0: load_byte(bus, 0),
        b1: load_byte(bus, 1),
        b2: load_byte(bus, 2),
        b3: load_byte(bus, 3),
    }
}

/// What the card makes of a quantity field.
#[derive(Clone, Copy, PartialEq, Eq, Debug)]
pub struct Finding {
    /// Its word load.
    pub word: u32,
    /// Its four byte loads.
    pub bytes: Field,
}

/// Stores a field in a bus at byte addresses 0 to 3 and loads it back, as a word and as bytes.
pub fn pass_through<B: Bus>(bus: &mut B, field: Field) -> Finding
    ensures word { result.word ≡ B.Bus.meaning.shown (after B.Bus.meaning (B.Bus.contents bus.old) (field_stores (bytes_of field))) 0 }
    ensures bytes { bytes_of result.bytes ≡ loaded_bytes B.Bus.meaning (B.Bus.meaning.read (after B.Bus.meaning (B.Bus.contents bus.old) (field_stores (bytes_of field))) 0) }
    ensures after { B.Bus.contents bus.new ≡ after B.Bus.meaning (B.Bus.meaning.read (after B.Bus.meaning (B.Bus.contents bus.old) (field_stores (bytes_of field))) 0) field_loads }
{
    store_field(bus, field);
    let word = load_word(bus, 0);
    let bytes = load_field(bus);
    Finding { word, bytes }
}

/// What the standard card makes of a quantity field: its word load takes the first byte as the lowest.
pub fn receive(alloc: Global, field: Field) -> Result<Finding, AllocError>
    ensures word { IfOk result (λ f. f.word ≡ loaded_as (bytes_of field)) }
    ensures bytes { IfOk result (λ f. f.bytes ≡ field) }
{
    let mut bus = card::standard(alloc)?;
    Ok(pass_through(&mut bus, field))
}
