//! The codes of the inputs under the choice that a table of ways says.
ghost use Rattle.std.specs.Prelude.{◌≡◌, ℕ, ◌≤◌, length};
ghost use Rattle.fewest.specs.Ends.{free_code, way_code, FilledBy, Filled};

/// The code of a masked input: by its way where it is free.
pub fn masked(code: u8, digit: u8) -> u8
    ensures { result ≡ free_code code digit }
{
    if code == 4 { digit % 4 + 1 } else { code }
}

// An input's code: 1 for a public bit.
fn input(code: u8, digit: u8) -> u8
    ensures { result ≡ way_code code digit }
{
    if code == 0 { 1 } else { masked(code, digit) }
}

/// What `code` makes of each input's code and its way, at the front of `out`.
pub fn fill<F: Fn(u8, u8) -> u8>(codes: &[u8], way: &[u8], out: &mut [u8], code: F)
    requires in_bounds { (length codes.now ≤ length way.now) × (length codes.now ≤ length out.old) }
    requires callable { F.IsAlwaysCallable code }
    ensures { (f : ℕ → ℕ → ℕ) → ((e d r : ℕ) → F.post code e d r → r ≡ f e d)
        → FilledBy f codes.now way.now (length codes.now) out.old out.new }
{
    for (i, e) in codes.iter().enumerate() {
        out[i] = code(*e, way[i]);
    }
}

/// The codes of all inputs.
pub fn inputs(codes: &[u8], way: &[u8], wire_codes: &mut [u8])
    requires { (length codes.now ≤ length way.now) × (length codes.now ≤ length wire_codes.old) }
    ensures { Filled codes.now way.now (length codes.now) wire_codes.old wire_codes.new }
{
    fill(codes, way, wire_codes, input);
}
