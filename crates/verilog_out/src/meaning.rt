//! What the assignments of a module mean.

ghost use Rattle.std.specs.Prelude.{ℕ, Bool, List};
ghost use Rattle.netlist.specs.Netlist.{Netlist};
ghost use Rattle.netlist.specs.Read.{WellFormed};
ghost use Rattle.verilog_out.specs.Assigns.{AllowsGates, Computes, HasInputs};

/// Whatever bits of names the assignments of the gates allow, each wire has, by its name, the bit that the netlist
/// computes from the bits of its input wires: so does each output, which is assigned its wire.
pub fn assignments_compute()
    ensures { (N : Netlist) (spell : ℕ → List ℕ) (bit : List ℕ → Bool) (ins : List Bool) → WellFormed N
        → HasInputs bit spell N ins → AllowsGates bit spell N.gates → Computes bit spell N ins }
{}
