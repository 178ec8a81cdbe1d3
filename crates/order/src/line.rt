//! An order line ends with its quantity field, four bytes in hexadecimal, as in `BUY HAMU 00 00 01 00`.
ghost use Rattle.std.specs.Prelude.{◌≡◌};
ghost use Rattle.std.specs.Option.{option_map};
ghost use Rattle.order.specs.Line.{digit_of, byte_of, field_in, field_of, ReadsWhatIsWritten};
ghost use Rattle.order.specs.Quantity.{bytes_of};

use crate::Field;

fn digit(b: u8) -> Option<u8>
    ensures { result ≡ digit_of b }
{
    let digit = char::from(b).to_digit(16)?;
    Some(digit as u8)
}

fn byte(high: u8, low: u8) -> Option<u8>
    ensures { result ≡ byte_of high low }
{
    Some(digit(high)? * 16 + digit(low)?)
}

// The field that eleven bytes of text write: four pairs of digits, with a blank between them.
fn read(text: &[u8; 11]) -> Option<Field>
    ensures { option_map bytes_of result ≡ field_in text.now }
{
    let [h0, l0, b' ', h1, l1, b' ', h2, l2, b' ', h3, l3] = *text else {
        return None;
    };
    Some(Field {
        b0: byte(h0, l0)?,
        b1: byte(h1, l1)?,
        b2: byte(h2, l2)?,
        b3: byte(h3, l3)?,
    })
}

/// The quantity field at the end of an order line, if the line ends with one.
pub fn field(line: &[u8]) -> Option<Field>
    ensures bytes { option_map bytes_of result ≡ field_of line.now }
    ensures reads { ReadsWhatIsWritten }
{
    let (_, text) = line.split_last_chunk()?;
    read(text)
}
