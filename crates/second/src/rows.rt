//! Decks, byte by byte: every byte moves a scan on, and the last one of a row judges it.
ghost use Rattle.std.specs.Prelude.{◌≡◌, ◌<◌, length, Err};

use crate::Fault;

// The part of a field that the scan has passed.
#[derive(Clone, Copy, PartialEq, Eq, Debug)]
enum Field {
    Blank,
    Zero,
    Positive(u64),
    Wrong,
}

impl Field {
    // No digit follows a 0 that comes first, and no blank a digit.
    fn then(self, byte: u8) -> Field {
        let digit = u64::from(byte % 16);
        match (self, byte) {
            (Field::Blank, b' ') => Field::Blank,
            (Field::Blank, b'0') => Field::Zero,
            (Field::Blank, b'1'..=b'9') => Field::Positive(digit),
            (Field::Positive(number), b'0'..=b'9') => {
                Field::Positive(number.saturating_mul(10).saturating_add(digit))
            }
            _ => Field::Wrong,
        }
    }

    fn number(self) -> Option<u64> {
        match self {
            Field::Zero => Some(0),
            Field::Positive(number) => Some(number),
            Field::Blank | Field::Wrong => None,
        }
    }
}

// What the scan has seen of the row that it is in, and how many lines the rows before it make.
#[derive(Clone, Copy, PartialEq, Eq, Debug)]
struct Scan {
    words: u32,
    room: u32,
    letter: u8,
    first: Field,
    second: Field,
    lines: u64,
}

impl Scan {
    // How many lines there are with the row that this byte ends, or what is wrong with that row, the lowest number first.
    fn judged(self, row: u32, last: u8) -> Result<u64, Fault> {
        // the first numbers that are too large
        let (first_end, second_end) = match self.letter {
            b'W' => (u64::from(self.words), 0x1_0000_0000),
            b'R' => (16, 0x1_0000_0000),
            b'L' => (4, 65_536),
            _ => return Err(Fault::RowForm(row)),
        };
        if last != b'\n' {
            return Err(Fault::RowForm(row));
        }
        let (Some(first), Some(second)) = (self.first.number(), self.second.number()) else {
            return Err(Fault::FieldForm(row));
        };
        if first >= first_end || second >= second_end {
            return Err(Fault::NumberLimit(row));
        }
        let added = if self.letter == b'L' { second } else { 0 };
        let lines = self.lines.saturating_add(added);
        if lines > u64::from(self.room) || lines > 65_535 {
            return Err(Fault::LinesFull(row));
        }
        Ok(lines)
    }

    // Takes the byte at a place of the deck; tells what is wrong with the row that it ends.
    fn take(&mut self, place: u32, byte: u8) -> Result<(), Fault> {
        match place % 20 {
            0 => self.letter = byte,
            1..=8 => self.first = self.first.then(byte),
            9..=18 => self.second = self.second.then(byte),
            _ => {
                self.lines = self.judged(place / 20, byte)?;
                self.first = Field::Blank;
                self.second = Field::Blank;
            }
        }
        Ok(())
    }
}

/// What is wrong with a deck over so many words of memory and room for so many lines, row by row.
pub(crate) fn check(deck: &[u8], words: u32, room: u32) -> Result<(), Fault>
    ensures { 65520 < length deck.now → result ≡ Err Fault.DeckSize }
{
    if deck.len() > 65_520 || deck.len() % 20 != 0 {
        return Err(Fault::DeckSize);
    }
    let mut scan = Scan {
        words,
        room,
        letter: 0,
        first: Field::Blank,
        second: Field::Blank,
        lines: 0,
    };
    for (place, byte) in (0u32..).zip(deck) {
        scan.take(place, *byte)?;
    }
    Ok(())
}
