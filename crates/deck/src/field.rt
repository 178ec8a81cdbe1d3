//! What number the columns of a field say: decimal, right-justified after blanks, without leading zeros.
ghost use Rattle.std.specs.Prelude.{◌≡◌, ◌^◌, ◌≤◌, length};
ghost use Rattle.deck.specs.Field.{after, Small, said, parse, ReadsAsWritten};

// What the columns of a field so far have shown.
#[derive(Clone, Copy, PartialEq, Eq, Debug)]
enum Seen {
    Blanks,
    Zero,
    Number(u64),
    Wrong,
}

fn next(seen: Seen, byte: u8) -> Seen
    requires { Small seen (10 ^ 10) }
    ensures { result ≡ after seen byte }
{
    match (seen, byte) {
        (Seen::Blanks, b' ') => Seen::Blanks,
        (Seen::Blanks, b'0') => Seen::Zero,
        (Seen::Blanks, b'1'..=b'9') => Seen::Number(u64::from(byte - b'0')),
        (Seen::Number(n), b'0'..=b'9') => Seen::Number(10 * n + u64::from(byte - b'0')),
        _ => Seen::Wrong,
    }
}

fn answer(seen: Seen) -> Option<u64>
    ensures { result ≡ said seen }
{
    match seen {
        Seen::Zero => Some(0),
        Seen::Number(n) => Some(n),
        Seen::Blanks | Seen::Wrong => None,
    }
}

// The number that the columns say, or none where they are not so written.
pub(crate) fn number(columns: &[u8]) -> Option<u64>
    requires { length columns.now ≤ 10 }
    ensures { result ≡ parse columns.now }
{
    let mut seen = Seen::Blanks;
    // Not a fold: its closure would not know that the number so far is small, as `next` requires.
    for byte in columns {
        seen = next(seen, *byte);
    }
    answer(seen)
}

// The two ways to say what a field's columns mean are one, for the contracts of the reader. Nothing runs here.
pub(crate) fn laws()
    ensures { ReadsAsWritten }
{}
