//! What a caller hears when a call is refused: a number, the layer that refuses, and a place.
#![tactic(auto)]

ghost use Rattle.std.specs.Prelude.{◌≡◌};
ghost use Rattle.refusal.specs.Heard.{told};

use std::fmt;

/// Why a call was refused. The definition `told` gives each its number, layer and place.
#[derive(Clone, Copy, PartialEq, Eq, Debug)]
pub enum Refusal {
    /// A memory has no word, or more than 262,144.
    MemoryWords,
    /// A ROM image has more than 512 words.
    ImageWords,
    /// A panel's feed has more than 64 bytes.
    FeedBytes,
    /// A register number is over 15.
    RegisterNumber,
    /// A call is given more than 65,535 lines.
    LinesTooMany,
    /// The line at the place named is over 3, and none before it is.
    LineValue(u32),
    /// Leaping finds the core inside an instruction.
    InsideInstruction,
    /// A deck has more than 65,520 bytes, or is not whole rows of 20 bytes.
    DeckSize,
    /// The row named begins with another letter than W, R or L, or does not end with a newline.
    RowForm(u32),
    /// A field of the row named is not a decimal number after blanks, without leading zeros.
    FieldForm(u32),
    /// A number in the row named is over its limit.
    NumberLimit(u32),
    /// With the row named, the lines so far are more than the caller's buffer takes, or more than 65,535.
    LinesFull(u32),
}

impl Refusal {
    pub fn number(self) -> u8
        ensures { result ≡ (told self).number }
    {
        match self {
            Refusal::MemoryWords => 1,
            Refusal::ImageWords => 2,
            Refusal::FeedBytes => 3,
            Refusal::RegisterNumber => 4,
            Refusal::LinesTooMany => 5,
            Refusal::LineValue(_) => 6,
            Refusal::InsideInstruction => 7,
            Refusal::DeckSize => 8,
            Refusal::RowForm(_) => 9,
            Refusal::FieldForm(_) => 10,
            Refusal::NumberLimit(_) => 11,
            Refusal::LinesFull(_) => 12,
        }
    }

    pub fn layer(self) -> u8
        ensures { result ≡ (told self).layer }
    {
        match self {
            Refusal::MemoryWords | Refusal::ImageWords | Refusal::FeedBytes => 1,
            Refusal::RegisterNumber | Refusal::LinesTooMany => 2,
            Refusal::LineValue(_) | Refusal::InsideInstruction => 2,
            Refusal::DeckSize => 3,
            Refusal::RowForm(_) | Refusal::FieldForm(_) => 3,
            Refusal::NumberLimit(_) | Refusal::LinesFull(_) => 3,
        }
    }

    pub fn place(self) -> u32
        ensures { result ≡ (told self).place }
    {
        match self {
            Refusal::LineValue(line) => line,
            Refusal::RowForm(row) | Refusal::FieldForm(row) => row,
            Refusal::NumberLimit(row) | Refusal::LinesFull(row) => row,
            _ => 0,
        }
    }

    // What was wrong, for a person.
    fn reason(self) -> &'static str {
        match self {
            Refusal::MemoryWords => "a memory has 1 to 262,144 words",
            Refusal::ImageWords => "a ROM image has at most 512 words",
            Refusal::FeedBytes => "a panel's feed has at most 64 bytes",
            Refusal::RegisterNumber => "a register number is at most 15",
            Refusal::LinesTooMany => "a call takes at most 65,535 lines",
            Refusal::LineValue(_) => "a line is at most 3",
            Refusal::InsideInstruction => "leaping begins between two instructions",
            Refusal::DeckSize => "a deck is whole rows of 20 bytes, at most 65,520 bytes in all",
            Refusal::RowForm(_) => "a row begins with W, R or L and ends with a newline",
            Refusal::FieldForm(_) =>
                "a field is a decimal number after blanks, without leading zeros",
            Refusal::NumberLimit(_) => "a number in a row stays within its limit",
            Refusal::LinesFull(_) =>
                "a deck's lines fit the caller's buffer and are at most 65,535",
        }
    }
}

impl fmt::Display for Refusal {
    fn fmt<W: fmt::Write>(&self, f: &mut fmt::Formatter<W>) -> fmt::Result {
        let number = self.number();
        let layer = self.layer();
        let place = self.place();
        let reason = self.reason();
        write!(
            f,
            "refusal {number} of layer {layer} at place {place}: {reason}"
        )
    }
}

impl std::error::Error for Refusal {}
