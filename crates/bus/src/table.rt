//! A table of fixed size, made from a list of any length.
ghost use Rattle.std.specs.Prelude.{◌≡◌};
ghost use Rattle.bus.specs.Filled.{filled_with};

/// The first `N` items of a list, with `rest` after them where there are fewer.
pub fn filled_with<T: Copy, const N: usize>(rest: T, items: &[T]) -> [T; N]
    ensures { result ≡ filled_with rest N items.now }
{
    let mut table = [rest; N];
    let n = items.len().min(N);
    table[..n].copy_from_slice(&items[..n]);
    table
}
