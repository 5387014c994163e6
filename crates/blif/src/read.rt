//! A text of BLIF as a circuit.

ghost use Rattle.std.specs.Prelude.{◌≡◌, ℕ, Bool, List, IfOk, All};
ghost use Rattle.netlist.specs.Netlist.{Netlist};
ghost use Rattle.netlist.specs.Eval.{bits_at, wire_bits};
ghost use Rattle.netlist.specs.Read.{WellFormed};
ghost use Rattle.cells.specs.Computes.{Holds};
ghost use Rattle.blif.specs.Meaning.{HasStatement, StatementHolds};
ghost use Rattle.blif.specs.Judged.{AreJudged};

use crate::assemble::{Refused, ask_nets, assemble};
use crate::error::{BlifError, Fault, Refusal, Source, Spot, at};
use crate::instances::refusal;
use crate::judged::judged;
use crate::models::Models;
use crate::parse::parse;
use crate::ports::{Value, nets, ports, values};
use crate::statements::Model;
use cells::build::{BuildError, Built, Cell, NO_WIRE, build};
use circuit::{Circuit, Label, bits};
use netlist::Sizes;
use std::alloc::{AllocError, Global};
use std::collections::HashMap;

/// The text of the netlist and that of the cells, where there is one.
#[derive(Clone, Copy)]
pub struct Texts<'a> {
    pub netlist: &'a str,
    pub cells: &'a str,
}

impl Texts<'_> {
    /// A refusal with its place.
    fn placed(self, refused: Refused) -> BlifError {
        let text = match refused.source {
            Source::Netlist => self.netlist,
            Source::Cells => self.cells,
        };
        refused.refusal.placed(text, refused.source)
    }

    /// A refusal of the netlist with its place.
    fn at_netlist(self, refusal: Refusal) -> BlifError {
        refusal.placed(self.netlist, Source::Netlist)
    }
}

/// Moves the value of this name to the end.
fn masks_last<'a>(values: &mut Vec<Value<'a>>, masks: Option<&str>) -> Result<(), BlifError> {
    let Some(name) = masks else {
        return Ok(());
    };
    match values.iter().position(|value| value.name == name) {
        Some(place) if place < values.len() => {
            let value = values.remove(place);
            values.push(value)?;
            Ok(())
        }
        _ => Err(BlifError::NoMasks),
    }
}

/// The labels of the nets that have wires.
fn labels(alloc: Global, model: &Model<'_>, wire_of: &[u32]) -> Result<Vec<Label>, AllocError> {
    let mut labels = Vec::new(alloc);
    for (word, wire) in model.nets.iter().zip(wire_of.iter()) {
        if *wire != NO_WIRE {
            labels.push(Label {
                wire: *wire,
                name: String::from_str(alloc, word.text)?,
                line: u32::try_from(word.spot.line).unwrap_or(0),
            })?;
        }
    }
    Ok(labels)
}

/// A circuit, and the wire of each net of its model.
#[derive(Drop)]
pub struct Wired {
    pub circuit: Circuit,
    pub wire_of: Vec<u32>,
}

/// The gates of a model's cells, over the nets of its inputs and outputs.
fn build_model(
    alloc: Global,
    model: &Model<'_>,
    cells: &[Cell],
    given: &[u32],
    outputs: &[u32],
) -> Result<Built, BuildError>
    requires { All (HasStatement cells.now) model.now.statements.items }
    ensures { IfOk result (λ built. (u : ℕ → Bool) → Holds u built.gates.items
        → All (StatementHolds u built.wire_of.items) model.now.statements.items) }
{
    let built = build(alloc, model.nets.len(), given, cells, outputs)?;
    Ok(built)
}

/// The circuit of gates that were built for a model.
fn name_wires(
    alloc: Global,
    model: &Model<'_>,
    inputs: &[Value<'_>],
    outputs: &[Value<'_>],
    built: Built,
) -> Result<Wired, AllocError>
    ensures gates { IfOk result (λ wired. (wired.circuit.gates.items ≡ built.gates.items)
        × (wired.wire_of.items ≡ built.wire_of.items)) }
    ensures judged { IfOk result (λ wired. AreJudged wired.circuit.judged.items wired.circuit.wires
        wired.wire_of.items) }
{
    let Built {
        gates,
        wires,
        wire_of,
        ..
    } = built;
    let labels = labels(alloc, model, &wire_of)?;
    let outputs = ports(alloc, model, outputs)?;
    let first = wires.saturating_sub(bits(&outputs));
    let judged = judged(alloc, &wire_of, wires, first)?;
    let circuit = Circuit {
        name: String::from_str(alloc, model.name.text)?,
        inputs: ports(alloc, model, inputs)?,
        outputs,
        wires,
        gates,
        labels,
        judged,
    };
    Ok(Wired { circuit, wire_of })
}

/// The circuit of a model with these models as its cells. With any bits of its wires that its gates allow, the wire
/// of the net that each cover gives has the bit that the cover says, of the bits of the wires of the nets that it
/// reads, whatever the order of the statements.
pub fn circuit_of(
    alloc: Global,
    model: &Model<'_>,
    models: &Models<'_>,
    masks: Option<&str>,
    texts: Texts<'_>,
) -> Result<Wired, BlifError>
    ensures covers { IfOk result (λ wired. (u : ℕ → Bool) → Holds u wired.circuit.gates.items
        → All (StatementHolds u wired.wire_of.items) model.now.statements.items) }
    // So it is with the bits that a netlist of these gates computes, from any input bits.
    ensures runs { IfOk result (λ wired. (N : Netlist) → WellFormed N → N.gates ≡ wired.circuit.gates.items
        → (ins : List Bool)
        → All (StatementHolds (bits_at (wire_bits N ins)) wired.wire_of.items) model.now.statements.items) }
    // Each net's wire is judged.
    ensures judged { IfOk result (λ wired. AreJudged wired.circuit.judged.items wired.circuit.wires
        wired.wire_of.items) }
{
    let assembled = match assemble(alloc, model, models) {
        Ok(cells) => cells,
        Err(refused) => return Err(texts.placed(refused)),
    };
    if let Err(refusal) = ask_nets(alloc, model, &assembled) {
        return Err(texts.at_netlist(refusal));
    }
    let mut inputs = values(alloc, model, &model.inputs)?;
    masks_last(&mut inputs, masks)?;
    let outputs = values(alloc, model, &model.outputs)?;
    let given = nets(alloc, &inputs)?;
    let output_nets = nets(alloc, &outputs)?;
    let built = match build_model(alloc, model, &assembled.cells, &given, &output_nets) {
        Ok(built) => built,
        Err(error) => return Err(texts.at_netlist(refusal(error, &assembled.spots, model))),
    };
    let most = Sizes::Whole.masked_limits().wires;
    if built.wires > most {
        return Err(BlifError::Wires {
            wires: built.wires,
            most,
        });
    }
    let wired = name_wires(alloc, model, &inputs, &outputs, built)?;
    Ok(wired)
}

/// The circuit of a text of BLIF: of its first model, with the others and those of `cells` as cells. The input value
/// of the name `masks`, where one is told, is put last. Each net has a wire, which is judged, and so has each output.
pub fn read(
    alloc: Global,
    text: &str,
    cells: Option<&str>,
    masks: Option<&str>,
) -> Result<Circuit, BlifError> {
    let texts = Texts {
        netlist: text,
        cells: cells.unwrap_or(""),
    };
    let own = parse(alloc, text).map_err(|refusal| refusal.placed(text, Source::Netlist))?;
    let library = parse(alloc, texts.cells).map_err(|refusal| refusal.placed(
        texts.cells,
        Source::Cells,
    ))?;
    let start = Spot { line: 1, word: 1 };
    let Some((model, others)) = own.split_first() else {
        return Err(texts.at_netlist(at(start, Fault::NoModel)));
    };
    if model.inputs.is_empty() || model.outputs.is_empty() {
        return Err(texts.at_netlist(at(model.name.spot, Fault::NoPorts)));
    }
    let mut models = Models {
        entries: HashMap::new(alloc),
    };
    models
        .add(alloc, others, Source::Netlist)
        .map_err(|refusal| refusal.placed(text, Source::Netlist))?;
    models
        .add(alloc, &library, Source::Cells)
        .map_err(|refusal| refusal.placed(texts.cells, Source::Cells))?;
    let wired = circuit_of(alloc, model, &models, masks, texts)?;
    Ok(wired.circuit)
}
