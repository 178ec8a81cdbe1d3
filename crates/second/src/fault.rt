//! What is wrong with a register number, lines or a deck.
ghost use Rattle.std.specs.Prelude.{◌≡◌};
ghost use Rattle.second.specs.Fault.{number_of, place_of};

/// Why a register number, lines or a deck are refused, with the line or row at fault, counted from 0.
#[derive(Clone, Copy, PartialEq, Eq, Debug)]
pub enum Fault {
    /// A register number over 15.
    RegisterNumber,
    /// More than 65,535 lines.
    TooManyLines,
    /// A line over 3.
    Line(u32),
    /// More than 65,520 bytes, or a row that is not whole.
    DeckSize,
    /// A row with another letter than W, R or L, or that no newline ends.
    RowForm(u32),
    /// A field that is no number.
    FieldForm(u32),
    /// A number that is too large.
    NumberLimit(u32),
    /// More lines than there is room for, or than 65,535.
    LinesFull(u32),
}

impl Fault {
    pub fn number(self) -> u32
        ensures { result ≡ number_of self }
    {
        match self {
            Fault::RegisterNumber => 4,
            Fault::TooManyLines => 5,
            Fault::Line(_) => 6,
            Fault::DeckSize => 8,
            Fault::RowForm(_) => 9,
            Fault::FieldForm(_) => 10,
            Fault::NumberLimit(_) => 11,
            Fault::LinesFull(_) => 12,
        }
    }

    /// The line or row at fault; 0 where it is no single one.
    pub fn place(self) -> u32
        ensures { result ≡ place_of self }
    {
        match self {
            Fault::RegisterNumber | Fault::TooManyLines | Fault::DeckSize => 0,
            Fault::Line(place)
            | Fault::RowForm(place)
            | Fault::FieldForm(place)
            | Fault::NumberLimit(place)
            | Fault::LinesFull(place) => place,
        }
    }
}
