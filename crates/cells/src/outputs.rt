//! The outputs on the last wires.

use crate::build::{BuildError, Built, NO_WIRE};
use netlist::Gate;
use std::alloc::Global;

/// The wire that a wire becomes.
fn moved(wire_to: &[u32], wire: u32) -> u32 {
    wire_to.get(wire as usize).copied().unwrap_or(NO_WIRE)
}

/// A gate with each wire moved.
fn moved_gate(wire_to: &[u32], gate: Gate) -> Gate {
    match gate {
        Gate::Xor(left, right, result) => {
            Gate::Xor(
                moved(wire_to, left),
                moved(wire_to, right),
                moved(wire_to, result),
            )
        }
        Gate::And(left, right, result) => {
            Gate::And(
                moved(wire_to, left),
                moved(wire_to, right),
                moved(wire_to, result),
            )
        }
        Gate::Inv(source, result) => Gate::Inv(moved(wire_to, source), moved(wire_to, result)),
        Gate::Eqw(source, result) => Gate::Eqw(moved(wire_to, source), moved(wire_to, result)),
        Gate::Eq(value, result) => Gate::Eq(value, moved(wire_to, result)),
    }
}

/// The wire of a net.
fn wire_of(built: &Built, net: u32) -> u32 {
    built.wire_of.get(net as usize).copied().unwrap_or(NO_WIRE)
}

/// Which place among the outputs a wire takes, for each wire, and how many outputs get no wire so.
#[derive(Drop)]
struct Places {
    place_of: Vec<u32>,
    copies: u32,
}

/// The places that wires take: a net that is no input and no earlier output has a wire to move.
fn take_places(
    alloc: Global,
    built: &Built,
    inputs: u32,
    outputs: &[u32],
) -> Result<Places, BuildError> {
    let mut places = Places {
        place_of: vec![in alloc; NO_WIRE; built.wires as usize]?,
        copies: 0,
    };
    for (place, net) in (0u32..).zip(outputs.iter()) {
        let wire = wire_of(built, *net);
        match places.place_of.get_mut(wire as usize) {
            Some(taken) if wire >= inputs && *taken == NO_WIRE => *taken = place,
            _ => places.copies = places.copies.saturating_add(1),
        }
    }
    Ok(places)
}

/// What each wire becomes: the wires with a place among the outputs come from `base` on, the others before them in
/// their order.
fn moves(alloc: Global, place_of: &[u32], base: u32) -> Result<Vec<u32>, BuildError> {
    let mut wire_to = Vec::new(alloc);
    let mut next = 0u32;
    for place in place_of {
        if *place == NO_WIRE {
            wire_to.push(next)?;
            next = next.saturating_add(1);
        } else {
            wire_to.push(base.saturating_add(*place))?;
        }
    }
    Ok(wire_to)
}

/// The gates with each wire moved.
fn moved_gates(alloc: Global, wire_to: &[u32], gates: &[Gate]) -> Result<Vec<Gate>, BuildError> {
    let mut moved = Vec::new(alloc);
    for gate in gates {
        moved.push(moved_gate(wire_to, *gate))?;
    }
    Ok(moved)
}

/// The wires of nets, moved.
fn moved_wires(alloc: Global, wire_to: &[u32], wires: &[u32]) -> Result<Vec<u32>, BuildError> {
    let mut all = Vec::new(alloc);
    for wire in wires {
        all.push(moved(wire_to, *wire))?;
    }
    Ok(all)
}

/// Adds a copy for each output whose net has another wire than the output's, which are those from `base` on.
fn add_copies(
    gates: &mut Vec<Gate>,
    wire_of: &[u32],
    base: u32,
    outputs: &[u32],
) -> Result<(), BuildError> {
    for (place, net) in outputs.iter().enumerate() {
        let own = u32::try_from(place).map_err(|_| BuildError::Wires)?;
        let own = base.checked_add(own).ok_or(BuildError::Wires)?;
        let wire = moved(wire_of, *net);
        if wire != own {
            gates.push(Gate::Eqw(wire, own))?;
        }
    }
    Ok(())
}

/// The same gates with the outputs on the last wires: the wires of the outputs' nets become these, in order, and all
/// others keep theirs. An output whose net is one of the first `inputs` wires, or an earlier output, gets a copy.
pub fn put_outputs(
    alloc: Global,
    built: Built,
    inputs: u32,
    outputs: &[u32],
) -> Result<Built, BuildError> {
    let count = u32::try_from(outputs.len()).map_err(|_| BuildError::Wires)?;
    let places = take_places(alloc, &built, inputs, outputs)?;
    let wires = built
        .wires
        .checked_add(places.copies)
        .ok_or(BuildError::Wires)?;
    let base = wires.checked_sub(count).ok_or(BuildError::Wires)?;
    let wire_to = moves(alloc, &places.place_of, base)?;
    let mut gates = moved_gates(alloc, &wire_to, &built.gates)?;
    let wire_of = moved_wires(alloc, &wire_to, &built.wire_of)?;
    add_copies(&mut gates, &wire_of, base, outputs)?;
    let Built { spans, .. } = built;
    Ok(Built {
        gates,
        wires,
        wire_of,
        spans,
    })
}
