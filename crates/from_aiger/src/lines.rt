//! What is left of a file.
ghost use Rattle.std.specs.Prelude.{◌≤◌};
ghost use Rattle.from_aiger.specs.Stray.{stray_at};

/// The lines of a text from a place on, before which no CR stands but before LF.
#[derive(Clone, Copy)]
pub struct Lines<'t> {
    pub text: &'t [u8],
    pub at: usize,
    ghost clean: { at ≤ stray_at text.now },
}
