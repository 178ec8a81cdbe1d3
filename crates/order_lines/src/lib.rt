//! Order lines from standard input, one after the other, each with its quantity field.
#![tactic(auto)]

ghost use Rattle.std.specs.Prelude.{◌≡◌, Some};
ghost use Rattle.order.specs.Line.{field_of};
ghost use Rattle.order.specs.Quantity.{bytes_of};

use anyhow::anyhow;
use order::{Field, line};

// What is wrong with the line at a place, counted from 0: it has no quantity field at its end.
fn no_field(place: usize) -> anyhow::Error {
    let number = place.saturating_add(1);
    anyhow!(
        "line {number} does not end with a quantity field as 00 00 01 00, four bytes in hexadecimal"
    )
}

/// Hands each order line on standard input to `tell`, with the quantity field that it ends with, and prints an empty line between two. Ends with an error
/// at the first line without a field, and where there is no line.
pub fn each<R: Input + Print + Alloc, F: Fn(&str, Field) -> anyhow::Result<()>>(
    rt: &R,
    tell: F,
) -> anyhow::Result<()>
    requires { (text : _) (field : _) → field_of text.now ≡ Some (bytes_of field) → F.pre tell text field }
{
    let mut lines = rt.lines(rt.alloc()).enumerate().peekable();
    if lines.peek().is_none() {
        return Err(anyhow!("there is no order line on standard input"));
    }
    for (place, text) in lines {
        let text = text?;
        let field = line::field(text.as_bytes()).ok_or_else(|| no_field(place))?;
        if place > 0 {
            println!(rt)?;
        }
        tell(text.as_str(), field)?;
    }
    Ok(())
}
