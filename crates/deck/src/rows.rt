//! The deck reader: a struct over the deck's bytes that hands out letters, and fields with the place of their row.
ghost use Rattle.std.specs.Prelude.{◌≡◌, ◌+◌, ◌<◌, ◌≤◌, true, false, length, IfOk, MatchResult};
ghost use Rattle.refusal.specs.Heard.{told, outcome};
ghost use Rattle.deck.specs.Field.{parse, ReadsAsWritten};
ghost use Rattle.deck.specs.Rows.{whole, row_count, column, columns, field_of, first_field, second_field, within, numbers, row_says, Fits};

use crate::field;
use refusal::Refusal;

/// The bytes of a row: its letter, a field of 8 columns, a field of 10 columns and its newline.
pub const ROW: usize = 20;

/// The most bytes that a deck has: 3,276 rows.
pub const MOST_BYTES: usize = 65_520;

const WORD_BOUND: u64 = 4_294_967_296;

const REGISTER_BOUND: u64 = 16;

const LINE_BOUND: u64 = 4;

const COUNT_BOUND: u64 = 65_536;

/// What a row asks for.
#[derive(Clone, Copy, PartialEq, Eq, Debug)]
pub enum Deed {
    /// The word at an address of memory is set: address, word.
    Sets(usize, u32),
    /// A register is preset: its number, its value.
    Presets(usize, u32),
    /// Lines of one value are added: the value, how many.
    Adds(u8, u16),
}

/// The number in a field, with the place of its row.
#[derive(Clone, Copy, PartialEq, Eq, Debug)]
pub struct Field {
    /// The row, counted from 0.
    pub row: u32,
    /// The number that the field says.
    pub number: u64,
}

impl Field {
    /// The number, if it is below the bound.
    pub fn below(self, bound: u64) -> Result<u64, Refusal>
        ensures answer { outcome result ≡ within bound self }
        ensures below { IfOk result (λ n. n < bound) }
    {
        if self.number < bound {
            Ok(self.number)
        } else {
            Err(Refusal::NumberLimit(self.row))
        }
    }
}

/// A deck's bytes, read row by row: whole rows, and not too many.
#[derive(Clone, Copy, PartialEq, Eq, Debug)]
pub struct Deck<'a> {
    bytes: &'a [u8],
    pub ghost in_rows: { whole bytes.now ≡ true },
}

impl<'a> Deck<'a> {
    /// A deck over these bytes, if they are whole rows and not too many.
    pub fn new(bytes: &'a [u8]) -> Result<Deck<'a>, Refusal>
        ensures { MatchResult result (λ d. d.bytes.now ≡ bytes.now) (λ e. (whole bytes.now ≡ false) × (told e ≡ record { number = 8; layer = 3; place = 0 })) }
    {
        if bytes.len() > MOST_BYTES || bytes.len() % ROW != 0 {
            return Err(Refusal::DeckSize);
        }
        Ok(Deck { bytes })
    }

    /// How many rows the deck has.
    pub fn rows(&self) -> usize
        ensures { result ≡ row_count self.now.bytes.now }
    {
        self.bytes.len() / ROW
    }

    // The byte in a column of a row, and 0 past the deck's end.
    fn byte(&self, row: u32, at: usize) -> u8
        requires { at < 20 }
        ensures { result ≡ column self.now.bytes.now row at }
    {
        let place = ROW * row as usize + at;
        self.bytes.get(place).copied().unwrap_or(0)
    }

    /// The letter of a row, and NUL past the deck's end.
    pub fn letter(&self, row: u32) -> char
        ensures { result ≡ column self.now.bytes.now row 0 }
    {
        char::from(self.byte(row, 0))
    }

    // So many columns of a row, from one on; fewer at the deck's end.
    fn columns(&self, row: u32, from: usize, len: usize) -> &[u8]
        requires { from + len ≤ 20 }
        ensures value { result.now ≡ columns self.now.bytes.now row from len }
        ensures size { length result.now ≤ len }
    {
        let start = ROW * row as usize + from;
        let rest = self.bytes.get(start..).unwrap_or(&[]);
        rest.get(..len).unwrap_or(rest)
    }

    // The field in so many columns of a row.
    fn read(&self, row: u32, from: usize, len: usize) -> Result<Field, Refusal>
        requires { (from + len ≤ 20) × (len ≤ 10) }
        ensures { outcome result ≡ field_of row (parse (columns self.now.bytes.now row from len)) }
    {
        let number = field::number(self.columns(row, from, len)).ok_or(Refusal::FieldForm(row))?;
        Ok(Field { row, number })
    }

    /// The first field of a row. A row past the deck's end has none.
    pub fn first(&self, row: u32) -> Result<Field, Refusal>
        ensures answer { outcome result ≡ first_field self.now.bytes.now row }
        ensures reads { ReadsAsWritten }
    {
        field::laws();
        self.read(row, 1, 8)
    }

    /// The second field of a row. A row past the deck's end has none.
    pub fn second(&self, row: u32) -> Result<Field, Refusal>
        ensures answer { outcome result ≡ second_field self.now.bytes.now row }
        ensures reads { ReadsAsWritten }
    {
        field::laws();
        self.read(row, 9, 10)
    }

    // The numbers of a row's two fields, each below its bound. Both fields are read before a bound is asked.
    fn numbers(&self, row: u32, first: u64, second: u64) -> Result<(u64, u64), Refusal>
        ensures answer { outcome result ≡ numbers self.now.bytes.now row first second }
        ensures below { IfOk result (λ n. (n.0 < first) × (n.1 < second)) }
    {
        let one = self.first(row)?;
        let two = self.second(row)?;
        Ok((one.below(first)?, two.below(second)?))
    }

    /// What a row asks for, over a memory of so many words. Whether its lines still find room depends on the rows before.
    pub fn deed(&self, row: u32, words: usize) -> Result<Deed, Refusal>
        ensures answer { outcome result ≡ row_says self.now.bytes.now words row }
        ensures fits { IfOk result (λ d. Fits words d) }
    {
        if self.byte(row, 19) != b'\n' {
            return Err(Refusal::RowForm(row));
        }
        match self.letter(row) {
            'W' => {
                let (address, word) = self.numbers(row, words as u64, WORD_BOUND)?;
                Ok(Deed::Sets(address as usize, word as u32))
            }
            'R' => {
                let (register, value) = self.numbers(row, REGISTER_BOUND, WORD_BOUND)?;
                Ok(Deed::Presets(register as usize, value as u32))
            }
            'L' => {
                let (value, count) = self.numbers(row, LINE_BOUND, COUNT_BOUND)?;
                Ok(Deed::Adds(value as u8, count as u16))
            }
            _ => Err(Refusal::RowForm(row)),
        }
    }
}
