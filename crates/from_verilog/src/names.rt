//! Names of a text, found by chains of equal numbers in lent tables.
ghost use Rattle.std.specs.Prelude.{◌≡◌, ◌≤◌, ◌<◌, length, ◌%◌, ◌/◌, IfSome};
ghost use Rattle.netlist.specs.Lists.{same_bytes};
ghost use Rattle.netlist.specs.Table.{half};
ghost use Rattle.from_verilog.specs.Next.{between};
ghost use Rattle.from_verilog.specs.Names.{number, found, entry_number, chain_of, Chained, Added};

use gates::halves::{pack, unpack};
use text::bytes::same;

/// Names found by chains of equal numbers in lent tables, which are read: a chain for each of `heads`, and a name of
/// the text for each of `words`.
#[derive(Clone, Copy)]
pub struct Names<'a> {
    pub text: &'a [u8],
    pub heads: &'a [u64],
    pub words: &'a [u64],
    pub links: &'a [u64],
    ghost chained: { Chained text.now heads.now words.now links.now (length heads.now) (length words.now) },
}

// The number of a name.
#[tactic(auto, unfolding(crate::specs::Names::number))]
fn hash(name: &[u8]) -> u32
    ensures { result ≡ number name.now }
{
    let mut h = 0u32;
    for b in name {
        (h, _) = unpack(u64::from(h) * 37 + u64::from(*b));
    }
    h
}

// The chain of a name, of so many.
fn chain_of(name: &[u8], size: usize) -> usize
    requires { 0 < size }
    ensures { (result ≡ chain_of size name.now) × (result < size) }
{
    hash(name) as usize % size
}

// Whether the name of an entry is w.
fn is_name(text: &[u8], entry: u64, name: &[u8]) -> bool
    requires { (entry % half ≤ entry / half) × (entry / half ≤ length text.now) }
    ensures { result ≡ same_bytes (between text.now (entry % half) (entry / half)) name.now }
{
    let (from, to) = unpack(entry);
    same(&text[from as usize..to as usize], name)
}

impl Names<'_> {
    /// The newest entry with the name w.
    pub fn find(self, name: &[u8]) -> Option<usize>
        ensures entry { entry_number result ≡ found self.entry.text.now self.entry.words.now name.now
            (length self.entry.words.now) }
        ensures within { IfSome result (λ i. i < length self.entry.words.now) }
    {
        let mut p = self.heads[chain_of(name, self.heads.len())];
        while 0 < p {
            let i = (p - 1) as usize;
            if is_name(self.text, self.words[i], name) {
                return Some(i);
            }
            p = self.links[i];
        }
        None
    }
}

/// The name between two places as the next entry after the first `count`, newest of its chain.
pub fn add(
    text: &[u8],
    from: usize,
    to: usize,
    heads: &mut [u64],
    words: &mut [u64],
    links: &mut [u64],
    count: usize,
)
    requires { Chained text.now heads.old words.old links.old (length heads.old) count × (from ≤ to)
        × (to ≤ length text.now)
        × (count < length words.old) × (count < length links.old) }
    ensures { Added text.now heads.old heads.new words.old words.new
        links.old links.new (length heads.old) count from to }
{
    let k = chain_of(&text[from..to], heads.len());
    words[count] = pack(from as u32, to as u32);
    links[count] = heads[k];
    heads[k] = (count as u64) + 1;
}
