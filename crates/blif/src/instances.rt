//! Models as cells: the truth table of each output pin, and the cells of an instance.

ghost use Rattle.std.specs.Prelude.{OnOk};
ghost use Rattle.blif.specs.Meaning.{Adds};

use crate::error::{Fault, Refusal, Spot, at};
use crate::statements::{Instance, Model, Names, Statement};
use cells::build::{BuildError, Cell};
use cells::order::order;
use cells::table::{INPUTS, MOST_INPUTS};
use std::alloc::Global;
use std::collections::HashMap;

/// A model as a cell: its pins by number, the inputs first, and the table of each output pin over the inputs.
#[derive(Debug, Drop)]
pub struct Shape<'a> {
    pub pins: HashMap<&'a str, usize>,
    pub inputs: usize,
    pub tables: Vec<u64>,
}

/// The refusal of cells in terms of these places and nets.
pub fn refusal(error: BuildError, spots: &[Spot], model: &Model<'_>) -> Refusal {
    let here = model.name.spot;
    let of_cell = |cell: usize| spots.get(cell).copied().unwrap_or(here);
    let of_net = |net: u32| model.nets.get(net as usize).map_or(here, |word| word.spot);
    match error {
        BuildError::Memory => Refusal::Memory,
        BuildError::Wires => Refusal::Memory,
        BuildError::Inputs { cell } => at(of_cell(cell), Fault::Inputs),
        BuildError::Table { cell } => at(of_cell(cell), Fault::Table),
        BuildError::Cycle { cell } => at(of_cell(cell), Fault::Cycle),
        BuildError::Unset { net, .. } => at(of_net(net), Fault::Unset),
        BuildError::Twice { net } => at(of_net(net), Fault::Twice),
    }
}

/// The tables of nets over the inputs of a model, where they are known.
#[derive(Debug, Drop)]
struct Tables {
    known: Vec<Option<u64>>,
    reads: Vec<u64>,
}

impl Tables {
    /// Gives a net its table.
    fn give(&mut self, net: u32, table: u64, spot: Spot) -> Result<(), Refusal> {
        match self.known.get_mut(net as usize) {
            Some(place) if place.is_none() => {
                *place = Some(table);
                Ok(())
            }
            _ => Err(at(spot, Fault::Twice)),
        }
    }

    /// Gives the net of a cover its table.
    fn cover(&mut self, names: &Names) -> Result<(), Refusal> {
        self.reads.clear();
        for net in &names.inputs {
            match self.known.get(*net as usize).copied() {
                Some(Some(table)) => self.reads.push(table)?,
                _ => return Err(at(names.spot, Fault::Unset)),
            }
        }
        let table = names.cover.table(&self.reads);
        self.give(names.output, table, names.spot)
    }
}

/// The covers of a model that is used as a cell, as cells to be ordered.
fn covers(alloc: Global, model: &Model<'_>) -> Result<Vec<Cell>, Refusal> {
    let mut cells = Vec::new(alloc);
    for statement in &model.statements {
        match statement {
            Statement::OfNames(names) => cells.push(Cell {
                output: names.output,
                inputs: names.inputs.clone()?,
                table: 0,
            })?,
            Statement::OfModel(instance) => return Err(at(instance.model.spot, Fault::Nested)),
        }
    }
    Ok(cells)
}

/// The tables of a model's nets over its inputs, of which there are at most six.
fn tables_of(alloc: Global, model: &Model<'_>) -> Result<Tables, Refusal> {
    let cells = covers(alloc, model)?;
    let order = match order(alloc, model.nets.len(), &cells) {
        Ok(order) => order,
        Err(error) => return Err(refusal(error, &[], model)),
    };
    let mut tables = Tables {
        known: vec![in alloc; None; model.nets.len()]?,
        reads: Vec::new(alloc),
    };
    for (net, table) in model.inputs.iter().zip(INPUTS.iter()) {
        tables.give(*net, *table, model.name.spot)?;
    }
    for number in &order {
        if let Some(Statement::OfNames(names)) = model.statements.get(*number) {
            tables.cover(names)?;
        }
    }
    Ok(tables)
}

/// The model as a cell.
pub fn shape_of<'a>(alloc: Global, model: &Model<'a>) -> Result<Shape<'a>, Refusal> {
    if let Some(spot) = model.latch {
        return Err(at(spot, Fault::Latch));
    }
    if model.inputs.len() > MOST_INPUTS {
        return Err(at(model.name.spot, Fault::Inputs));
    }
    let tables = tables_of(alloc, model)?;
    let mut shape = Shape {
        pins: HashMap::new(alloc),
        inputs: model.inputs.len(),
        tables: Vec::new(alloc),
    };
    for (pin, net) in model.inputs.iter().chain(model.outputs.iter()).enumerate() {
        let Some(word) = model.nets.get(*net as usize).copied() else {
            return Err(at(model.name.spot, Fault::Unset));
        };
        shape.pins.insert(word.text, pin)?;
        if pin >= shape.inputs {
            match tables.known.get(*net as usize).copied() {
                Some(Some(table)) => shape.tables.push(table)?,
                _ => return Err(at(word.spot, Fault::Unset)),
            }
        }
    }
    Ok(shape)
}

/// The nets that an instance connects to the pins of its model, by number.
fn connected(
    alloc: Global,
    shape: &Shape<'_>,
    instance: &Instance<'_>,
) -> Result<Vec<Option<u32>>, Refusal> {
    let pins = shape.inputs.saturating_add(shape.tables.len());
    let mut nets = vec![in alloc; None; pins]?;
    for connection in &instance.connections {
        let Some(pin) = shape.pins.get(&connection.pin).copied() else {
            return Err(at(connection.spot, Fault::Pin));
        };
        match nets.get_mut(pin) {
            Some(place) if place.is_none() => *place = Some(connection.net),
            _ => return Err(at(connection.spot, Fault::PinTwice)),
        }
    }
    Ok(nets)
}

/// Adds the cell of an output pin, where it is connected to a net.
fn add_pin(
    alloc: Global,
    cells: &mut Vec<Cell>,
    spots: &mut Vec<Spot>,
    net: Option<u32>,
    inputs: &[u32],
    table: u64,
    spot: Spot,
) -> Result<(), Refusal>
    ensures { OnOk result (Adds cells.old.items cells.new.items) }
{
    let Some(output) = net else {
        return Ok(());
    };
    let inputs = Vec::from_slice(alloc, inputs)?;
    spots.push(spot)?;
    cells.push(Cell {
        output,
        inputs,
        table,
    })?;
    Ok(())
}

/// The nets that the input pins are connected to.
fn input_nets(
    alloc: Global,
    nets: &[Option<u32>],
    inputs: usize,
    spot: Spot,
) -> Result<Vec<u32>, Refusal> {
    let mut list = Vec::new(alloc);
    for net in nets.iter().take(inputs) {
        match net {
            Some(net) => list.push(*net)?,
            None => return Err(at(spot, Fault::Unconnected)),
        }
    }
    Ok(list)
}

/// Adds the cells of an instance of a shape, one for each output pin that is connected.
pub fn add_instance(
    alloc: Global,
    shape: &Shape<'_>,
    instance: &Instance<'_>,
    cells: &mut Vec<Cell>,
    spots: &mut Vec<Spot>,
) -> Result<(), Refusal>
    ensures { OnOk result (Adds cells.old.items cells.new.items) }
{
    let spot = instance.model.spot;
    let nets = connected(alloc, shape, instance)?;
    let inputs = input_nets(alloc, &nets, shape.inputs, spot)?;
    for (place, table) in shape.tables.iter().enumerate() {
        let pin = shape.inputs.saturating_add(place);
        let net = nets.get(pin).copied().unwrap_or(None);
        add_pin(alloc, cells, spots, net, &inputs, *table, spot)?;
    }
    Ok(())
}
