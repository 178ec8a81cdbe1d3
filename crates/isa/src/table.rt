//! The clocks of each kind of word: one constant table, by the number of the kind.
ghost use Rattle.std.specs.Prelude.{◌≡◌, ◌<◌};
ghost use Rattle.isa.specs.Kinds.{kind_at, clocks_by};

// The index is bits 31 to 28 of the word (p, q, u, v) and then its bits 19 to 16 (op): sixteen entries for each p, q, u, v,
// which stand in the comment at the first of them.
const CLOCKS: [u8; 256] = [
    1, // 0, 0, 0, 0: register operations
    1, 1, 1, 1, 1, 1, 1, 1, 1, 32, // 0, 0, 0, 0: MUL
    32, // 0, 0, 0, 0: DIV
    1, 1, 1, 1, 1, // 0, 0, 0, 1: register operations
    1, 1, 1, 1, 1, 1, 1, 1, 1, 32, // 0, 0, 0, 1: MUL
    32, // 0, 0, 0, 1: DIV
    1, 1, 1, 1, 1, // 0, 0, 1, 0: register operations
    1, 1, 1, 1, 1, 1, 1, 1, 1, 32, // 0, 0, 1, 0: MUL
    32, // 0, 0, 1, 0: DIV
    1, 1, 1, 1, 1, // 0, 0, 1, 1: register operations
    1, 1, 1, 1, 1, 1, 1, 1, 1, 32, // 0, 0, 1, 1: MUL
    32, // 0, 0, 1, 1: DIV
    1, 1, 1, 1, 1, // 0, 1, 0, 0: register operations
    1, 1, 1, 1, 1, 1, 1, 1, 1, 32, // 0, 1, 0, 0: MUL
    32, // 0, 1, 0, 0: DIV
    1, 1, 1, 1, 1, // 0, 1, 0, 1: register operations
    1, 1, 1, 1, 1, 1, 1, 1, 1, 32, // 0, 1, 0, 1: MUL
    32, // 0, 1, 0, 1: DIV
    1, 1, 1, 1, 1, // 0, 1, 1, 0: register operations
    1, 1, 1, 1, 1, 1, 1, 1, 1, 32, // 0, 1, 1, 0: MUL
    32, // 0, 1, 1, 0: DIV
    1, 1, 1, 1, 1, // 0, 1, 1, 1: register operations
    1, 1, 1, 1, 1, 1, 1, 1, 1, 32, // 0, 1, 1, 1: MUL
    32, // 0, 1, 1, 1: DIV
    1, 1, 1, 1, 2, // 1, 0, 0, 0: loads
    2, 2, 2, 2, 2, 2, 2, 2, 2, 2, 2, 2, 2, 2, 2, 2, // 1, 0, 0, 1: loads
    2, 2, 2, 2, 2, 2, 2, 2, 2, 2, 2, 2, 2, 2, 2, 2, // 1, 0, 1, 0: stores
    2, 2, 2, 2, 2, 2, 2, 2, 2, 2, 2, 2, 2, 2, 2, 2, // 1, 0, 1, 1: stores
    2, 2, 2, 2, 2, 2, 2, 2, 2, 2, 2, 2, 2, 2, 2, 1, // 1, 1, 0, 0: branches
    1, 1, 1, 1, 1, 1, 1, 1, 1, 1, 1, 1, 1, 1, 1, 1, // 1, 1, 0, 1: branches
    1, 1, 1, 1, 1, 1, 1, 1, 1, 1, 1, 1, 1, 1, 1, 1, // 1, 1, 1, 0: branches
    1, 1, 1, 1, 1, 1, 1, 1, 1, 1, 1, 1, 1, 1, 1, 1, // 1, 1, 1, 1: branches
    1, 1, 1, 1, 1, 1, 1, 1, 1, 1, 1, 1, 1, 1, 1,
];

/// The clocks of the kind with this number.
pub fn clocks(code: u8) -> u8
    ensures { result ≡ clocks_by (kind_at code) }
{
    CLOCKS[usize::from(code)]
}
