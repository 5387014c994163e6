//! The kinds of working tables, by the bits of an entry and by how many entries there are for each wire.
ghost use Rattle.std.specs.Prelude.{◌≡◌, ◌≤◌};

/// A kind of working table.
#[derive(Clone, Copy, Debug, PartialEq, Eq)]
pub enum Kind {
    /// An entry of 64 bits for each wire.
    Words,
    /// An entry of 32 bits for each wire.
    Halves,
    /// An entry of 8 bits for each wire.
    Bytes,
    /// Fifteen entries of 64 bits for each wire.
    Records,
    /// Eight entries of 64 bits for each wire.
    Names,
    /// Eight entries of 32 bits for each wire.
    NameHalves,
}

impl Kind {
    ghost use Rattle.capi.specs.TableKinds.{words_of, entries_in};

    /// The words that hold its entries for so many wires.
    pub fn words(self, wires: usize) -> usize
        requires { wires ≤ 899999 }
        ensures { (result ≡ words_of self wires) × (result ≤ 13499985) }
    {
        match self {
            Kind::Words => wires,
            Kind::Halves => (wires + 1) / 2,
            Kind::Bytes => (wires + 7) / 8,
            Kind::Records => wires * 15,
            Kind::Names => wires * 8,
            Kind::NameHalves => wires * 4,
        }
    }

    /// The entries that so many words hold.
    pub fn entries(self, words: usize) -> usize
        requires { words ≤ 1000000000 }
        ensures { result ≡ entries_in self words }
    {
        match self {
            Kind::Words | Kind::Records | Kind::Names => words,
            Kind::Halves | Kind::NameHalves => words * 2,
            Kind::Bytes => words * 8,
        }
    }
}
