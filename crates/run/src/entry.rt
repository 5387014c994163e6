//! The entries of a run's lists: a bit, or a word with a bit for each of sixty-four settings.
ghost use Rattle.std.specs.Prelude.{◌≡◌, ℕ, ◌≤◌, Bool, List, eqb, length};
ghost use Rattle.netlist.specs.Netlist.{Netlist};
ghost use Rattle.netlist.specs.Services.{list_good, is_bit, output_list};
ghost use Rattle.gates.specs.Gates.{WiredGates, HoldsGates};
ghost use Rattle.evaluate.specs.Lane.{output_words};
ghost use Rattle.run.specs.Entries.{EntryLaws};
ghost use Rattle.run.specs.Laws.{bit_laws, word_laws};

use gates::Gates;

pub trait Entry: Copy {
    // Which lists question 11 admits for so many input bits.
    ghost admits: { List Self → ℕ → Bool };

    // What a netlist makes of such a list.
    ghost outputs: { Netlist → List Self → List Self };

    /// Whether question 11 admits a list for so many input bits.
    fn admits(list: &[Self], ins: usize) -> bool
        ensures { result ≡ admits list.now ins };

    /// The outputs of the gates' netlist on a list, for which `out` has a place each. The words, one for each wire, are
    /// working store.
    fn outputs(gates: Gates, list: &[Self], words: &mut [u64], out: &mut [Self])
        requires wired { WiredGates gates (length words.old) }
        requires list_in_bounds { (length list.now ≤ length words.old) × (length out.old ≤ length words.old) }
        ensures { (N : Netlist) → HoldsGates gates.entry (length words.old)
            (length list.now) (length out.old) N → out.new ≡ outputs N list.now };

    // How long the lists are.
    ghost laws: { EntryLaws admits outputs };
}

impl Entry for u8 {
    ghost admits = { λ list n. list_good is_bit n list };

    ghost outputs = { output_list };

    ghost laws = { bit_laws };

    fn admits(list: &[u8], ins: usize) -> bool {
        questions::valid_bits(list, ins)
    }

    fn outputs(gates: Gates, list: &[u8], words: &mut [u64], out: &mut [u8]) {
        evaluate::single::outputs(gates, list, words, out);
    }
}

impl Entry for u64 {
    ghost admits = { λ list n. eqb (length list) n };

    ghost outputs = { output_words };

    ghost laws = { word_laws };

    fn admits(list: &[u64], ins: usize) -> bool {
        list.len() == ins
    }

    fn outputs(gates: Gates, list: &[u64], words: &mut [u64], out: &mut [u64]) {
        evaluate::wide::outputs(gates, list, words, out);
    }
}
