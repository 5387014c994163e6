//! The coefficients of a function of bits, in place of its values.
ghost use Rattle.std.specs.Prelude.{◌≡◌, ℕ, ◌+◌, ◌<◌, ◌≤◌, Bool, length};
ghost use Rattle.evaluate.specs.Lane.{lane};
ghost use Rattle.explain.specs.Polynomial.{added, coefficients};
ghost use Rattle.explain.specs.Table.{Bits};

// Whether bit `index` of a number is one.
fn has(number: usize, index: usize) -> bool
    requires { index < 64 }
    ensures { result ≡ lane index number }
{
    (number >> index) & 1 == 1
}

// One variable: where its bit is one, the entry where it is zero is added. From the last entry to the first, so that
// what is added is still as it was.
fn add_variable(table: &mut [u8], index: usize)
    requires { index < 64 }
    ensures { (f : ℕ → Bool) → Bits f table.old → Bits (added index f) table.new }
{
    for number in (0..table.len()).rev() {
        if has(number, index) {
            table[number] ^= table[number.saturating_sub(1 << index)];
        }
    }
}

/// The values of a function of so many variables become its coefficients.
pub fn transform(table: &mut [u8], variables: usize)
    requires { variables ≤ 64 }
    ensures { (f : ℕ → Bool) → Bits f table.old → Bits (coefficients variables f) table.new }
{
    for index in 0..variables {
        add_variable(table, index);
    }
}
