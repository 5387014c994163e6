//! The marks of wires: 1 for clean, 2 for public.
ghost use Rattle.std.specs.Prelude.{◌≡◌, true, List, ℕ};
ghost use Rattle.netlist.specs.Netlist.{Netlist};
ghost use Rattle.masking.specs.Leak.{EqualCounts};
ghost use Rattle.certify.specs.Known.{Known, Open};
ghost use Rattle.certify.specs.Store.{Marked, public_atom};
ghost use Rattle.certify.specs.Kept.{clean_by, public_by};

use certify_records::{NO_ATOM, Record, even};

// Whether an atom is one of a public wire, or none.
fn is_public_atom(marks: &[u8], atom: u32) -> bool
    ensures { result ≡ public_atom marks.now atom }
{
    if atom == NO_ATOM {
        return true;
    }
    match marks.get((atom / 8) as usize) {
        Some(mark) => (*mark >> 1) & 1 == 1,
        None => false,
    }
}

/// Whether a record shows that its wire has equal counts.
pub fn shows_clean(marks: &[u8], known: Record) -> bool
    ensures says { (N : Netlist) (codes : List ℕ) (w : ℕ) → Marked N codes marks.now → Known N codes w known → result
        ≡ true
        → EqualCounts N codes w }
    ensures is { result ≡ clean_by marks.now known }
{
    even::has_equal_counts(
        known,
        is_public_atom(marks, known.first),
        is_public_atom(marks, known.second),
        is_public_atom(marks, known.third),
        is_public_atom(marks, known.fourth),
    )
}

/// Whether a record shows that its wire is public.
pub fn shows_public(marks: &[u8], known: Record) -> bool
    ensures says { (N : Netlist) (codes : List ℕ) (w : ℕ) → Marked N codes marks.now → Known N codes w known → result
        ≡ true
        → Open N codes w }
    ensures is { result ≡ public_by marks.now known }
{
    is_public_atom(marks, known.first)
        & is_public_atom(marks, known.second)
        & is_public_atom(marks, known.third)
        & is_public_atom(marks, known.fourth)
}
