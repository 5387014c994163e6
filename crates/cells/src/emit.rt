//! The gates of one cell: XOR, AND and INV by an exclusive sum of products, input by input.

ghost use Rattle.std.specs.Prelude.{◌<◌, ◌≤◌, length};

use crate::table::{ALWAYS, INPUTS, NEVER, at_one, at_zero};
use crate::verify::Known;
use netlist::Gate;
use std::alloc::{AllocError, AllocFailed, Global};

/// Why no gates were made.
#[derive(Clone, Copy, Debug, PartialEq, Eq)]
pub enum EmitError {
    /// memory ran out
    Memory,
    /// there are more wires than a number of 32 bits counts
    Wires,
    /// the table depends on more than the inputs of its cell
    Table,
}

impl From<AllocError> for EmitError {
    fn from(_error: AllocError) -> Self {
        EmitError::Memory
    }
}

impl<T: Drop> From<AllocFailed<T>> for EmitError {
    fn from(_error: AllocFailed<T>) -> Self {
        EmitError::Memory
    }
}

/// The gates of all cells so far, the number of wires so far, and the known wires of the cell at hand.
#[derive(Drop)]
pub struct Emitter {
    pub gates: Vec<Gate>,
    pub wires: u32,
    pub known: Vec<Known>,
}

/// Which two are made of a function where an input is zero, where it is one, and the sum of these; the third is the
/// sum of the two.
#[derive(Clone, Copy)]
enum Parts {
    ZeroAndSum,
    OneAndSum,
    ZeroAndOne,
}

/// The parts with the fewest ANDs, of these numbers of ANDs.
fn cheapest(zero: u32, one: u32, sum: u32) -> Parts {
    if one >= zero && one >= sum {
        Parts::ZeroAndSum
    } else if zero >= sum {
        Parts::OneAndSum
    } else {
        Parts::ZeroAndOne
    }
}

/// How many ANDs a function of the first `inputs` inputs takes.
fn cost(table: u64, inputs: usize) -> u32
    requires { inputs ≤ 6 }
{
    if inputs == 0 || table == NEVER || table == ALWAYS {
        return 0;
    }
    let zero = at_zero(table, inputs - 1);
    let one = at_one(table, inputs - 1);
    let if_zero = cost(zero, inputs - 1);
    let sum = zero ^ one;
    if sum == NEVER || sum == ALWAYS {
        return if_zero;
    }
    let if_one = cost(one, inputs - 1);
    let of_sum = cost(sum, inputs - 1);
    let two = match cheapest(if_zero, if_one, of_sum) {
        Parts::ZeroAndSum => if_zero.saturating_add(of_sum),
        Parts::OneAndSum => if_one.saturating_add(of_sum),
        Parts::ZeroAndOne => if_zero.saturating_add(if_one),
    };
    two.saturating_add(1)
}

impl Emitter {
    /// No gate over this many wires.
    pub fn new(alloc: Global, wires: u32) -> Self {
        Emitter {
            gates: Vec::new(alloc),
            wires,
            known: Vec::new(alloc),
        }
    }

    /// The known wire with this table.
    fn find(&self, table: u64) -> Option<Known> {
        self.known
            .iter()
            .find(|known| known.table == table)
            .copied()
    }

    /// Takes the next wire for a gate that gives this table.
    fn put(&mut self, gate: Gate, table: u64) -> Result<Known, EmitError> {
        let wire = self.wires;
        let next = wire.checked_add(1).ok_or(EmitError::Wires)?;
        let known = Known { table, wire };
        self.known.push(known)?;
        self.gates.push(gate)?;
        self.wires = next;
        Ok(known)
    }

    /// A wire that is one where just one of two is.
    fn xor(&mut self, left: Known, right: Known) -> Result<Known, EmitError> {
        let gate = Gate::Xor(left.wire, right.wire, self.wires);
        self.put(gate, left.table ^ right.table)
    }

    /// A wire that is one where both are.
    fn and(&mut self, left: Known, right: Known) -> Result<Known, EmitError> {
        let gate = Gate::And(left.wire, right.wire, self.wires);
        self.put(gate, left.table & right.table)
    }

    /// A wire that is one where another is zero.
    fn invert(&mut self, source: Known) -> Result<Known, EmitError> {
        let gate = Gate::Inv(source.wire, self.wires);
        self.put(gate, !source.table)
    }

    /// A wire that is the same in each setting.
    fn constant(&mut self, table: u64) -> Result<Known, EmitError> {
        if table == NEVER {
            self.put(Gate::Eq(0, self.wires), NEVER)
        } else {
            self.put(Gate::Eq(1, self.wires), ALWAYS)
        }
    }

    /// A wire with this table, where it is known or is the inverse of one that is.
    fn found(&mut self, table: u64) -> Result<Option<Known>, EmitError> {
        if let Some(known) = self.find(table) {
            return Ok(Some(known));
        }
        match self.find(!table) {
            Some(known) => Ok(Some(self.invert(known)?)),
            None => Ok(None),
        }
    }

    #[cycle(function)]
    /// A wire with this table, a function of the first `inputs` inputs. Where the table is none, the wire has another.
    fn function(&mut self, table: u64, inputs: usize) -> Result<Known, EmitError>
        requires { inputs ≤ 6 }
    {
        if let Some(known) = self.found(table)? {
            return Ok(known);
        }
        if inputs == 0 || table == NEVER || table == ALWAYS {
            return self.constant(table);
        }
        let input = inputs - 1;
        let zero = at_zero(table, input);
        let one = at_one(table, input);
        let sum = zero ^ one;
        if sum == NEVER {
            return self.function(zero, input);
        }
        let parts = cheapest(cost(zero, input), cost(one, input), cost(sum, input));
        if sum == ALWAYS {
            let base = self.function(zero, input)?;
            let other = self.function(INPUTS[input], 0)?;
            return self.xor(base, other);
        }
        self.joined(zero, one, input, parts)
    }

    #[cycle(function)]
    /// The function that is `zero` where an input is zero and `one` where it is one.
    fn joined(
        &mut self,
        zero: u64,
        one: u64,
        input: usize,
        parts: Parts,
    ) -> Result<Known, EmitError>
        requires { input < 6 }
    {
        if let Parts::ZeroAndOne = parts {
            let if_zero = self.function(zero, input)?;
            let if_one = self.function(one, input)?;
            self.xor(if_zero, if_one)?;
        }
        let (base, choice) = match parts {
            Parts::OneAndSum => (one, !INPUTS[input]),
            _ => (zero, INPUTS[input]),
        };
        let sum = self.function(zero ^ one, input)?;
        let choice = self.function(choice, 0)?;
        let product = self.and(sum, choice)?;
        if base == NEVER {
            return Ok(product);
        }
        if base == ALWAYS {
            return self.invert(product);
        }
        let base = self.function(base, input)?;
        self.xor(base, product)
    }

    /// A wire of its own for a cell with this table over these wires.
    pub fn cell(&mut self, inputs: &[u32], table: u64) -> Result<u32, EmitError>
        requires { length inputs.now ≤ 6 }
    {
        let first = self.wires;
        self.known.clear();
        for (wire, input) in inputs.iter().zip(INPUTS.iter()) {
            self.known.push(Known {
                table: *input,
                wire: *wire,
            })?;
        }
        let made = self.function(table, inputs.len())?;
        if made.table != table {
            return Err(EmitError::Table);
        }
        if made.wire >= first {
            return Ok(made.wire);
        }
        let own = self.put(Gate::Eqw(made.wire, first), table)?;
        Ok(own.wire)
    }
}
