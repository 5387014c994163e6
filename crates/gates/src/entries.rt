//! An entry of a lent list, given or stored where the list has it, and a list copied into another.
ghost use Rattle.std.specs.Prelude.{◌≡◌, length, set, get_or};

/// Entry i of a list, or its type's default (0 of a number) where the list has none.
pub fn entry<T: Copy + Default>(list: &[T], index: usize) -> T
    ensures { (d : T) → ((x : T) → T.is_default x → x ≡ d) → result ≡ get_or list.now index d }
{
    list.get(index).copied().unwrap_or_default()
}

/// Stores an entry in a list, where the list is long enough.
pub fn put<T: Copy>(list: &mut [T], at: usize, entry: T)
    ensures { list.new ≡ set list.old at entry }
{
    if at < list.len() {
        list[at] = entry;
    }
}

/// Copies a list into one as long, entry by entry: a slice's own `copy_from_slice` would have the archive for C need
/// `memmove`.
pub fn copy<T: Copy>(from: &[T], to: &mut [T])
    requires long { length to.old ≡ length from.now }
    ensures { to.new ≡ from.now }
{
    for (i, entry) in from.iter().enumerate() {
        to[i] = *entry;
    }
}
