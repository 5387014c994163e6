//! The cells of the netlist's own model, and what is asked of its nets.

ghost use Rattle.std.specs.Prelude.{OnOk, IfOk, All};
ghost use Rattle.blif.specs.Meaning.{HasStatement};

use crate::error::{BlifError, Fault, Refusal, Source, Spot, at};
use crate::instances::add_instance;
use crate::models::Models;
use crate::reads::reads;
use crate::statements::{Instance, Model, Names, Statement};
use cells::build::Cell;
use cells::table::INPUTS;
use std::alloc::Global;

/// Cells, and the statement that each comes from.
#[derive(Debug, Drop)]
pub struct Cells {
    pub cells: Vec<Cell>,
    pub spots: Vec<Spot>,
}

impl Cells {
    ghost use Rattle.blif.specs.Meaning.{AddsCover, Adds};

    /// Adds the cell of a cover.
    fn add_names(&mut self, alloc: Global, names: &Names) -> Result<(), Refusal>
        ensures { OnOk result (AddsCover names.now self.old.cells.items self.new.cells.items) }
    {
        let count = names.inputs.len();
        if count > INPUTS.len() {
            return Err(at(names.spot, Fault::Inputs));
        }
        let table = names.cover.table(&INPUTS[..count]);
        let inputs = Vec::from_slice(alloc, &names.inputs)?;
        self.spots.push(names.spot)?;
        self.cells.push(Cell {
            output: names.output,
            inputs,
            table,
        })?;
        Ok(())
    }

    /// Adds the cells of an instance of a model.
    fn add_model(
        &mut self,
        alloc: Global,
        models: &Models<'_>,
        instance: &Instance<'_>,
    ) -> Result<(), Refused>
        ensures { OnOk result (Adds self.old.cells.items self.new.cells.items) }
    {
        let name = instance.model;
        let Some(entry) = models.entries.get(&name.text) else {
            return Err(at(name.spot, Fault::MissingModel).into());
        };
        let shape = match &entry.shape {
            Ok(shape) => shape,
            Err(refusal) => {
                return Err(Refused {
                    refusal: *refusal,
                    source: entry.source,
                });
            }
        };
        add_instance(alloc, shape, instance, &mut self.cells, &mut self.spots)?;
        Ok(())
    }
}

impl Cells {
    ghost use Rattle.blif.specs.Meaning.{HasStatement, Adds};

    /// Adds the cells of a statement.
    fn add_statement(
        &mut self,
        alloc: Global,
        models: &Models<'_>,
        statement: &Statement<'_>,
    ) -> Result<(), Refused>
        ensures had { OnOk result (HasStatement self.new.cells.items statement.now) }
        ensures adds { OnOk result (Adds self.old.cells.items self.new.cells.items) }
    {
        match statement {
            Statement::OfNames(names) => {
                self.add_names(alloc, names)?;
                Ok(())
            }
            Statement::OfModel(instance) => {
                self.add_model(alloc, models, instance)?;
                Ok(())
            }
        }
    }
}

/// A refusal, and the file that it is about.
#[derive(Clone, Copy, Debug)]
pub struct Refused {
    pub refusal: Refusal,
    pub source: Source,
}

impl From<Refusal> for Refused {
    fn from(refusal: Refusal) -> Self {
        Refused {
            refusal,
            source: Source::Netlist,
        }
    }
}

/// Asks that each net is given once: by an input or by a cell.
fn ask_once(model: &Model<'_>, given: &mut [bool], net: u32, spot: Spot) -> Result<(), Refusal> {
    match given.get_mut(net as usize) {
        Some(place) if !*place => {
            *place = true;
            Ok(())
        }
        _ => Err(at(spot, Fault::Twice)),
    }
}

/// Asks that each net is given by an input or a cell, and once.
fn ask_given(
    alloc: Global,
    model: &Model<'_>,
    cells: &Cells,
    read: &[bool],
) -> Result<(), Refusal> {
    let mut given = vec![in alloc; false; model.nets.len()]?;
    for net in &model.inputs {
        let spot = model
            .nets
            .get(*net as usize)
            .map_or(model.name.spot, |word| word.spot);
        ask_once(model, &mut given, *net, spot)?;
    }
    for (cell, spot) in cells.cells.iter().zip(cells.spots.iter()) {
        ask_once(model, &mut given, cell.output, *spot)?;
    }
    for (word, (given, read)) in model.nets.iter().zip(given.iter().zip(read.iter())) {
        if *read && !*given {
            return Err(at(word.spot, Fault::Unset));
        }
    }
    Ok(())
}

/// The cells of a model: a cell for each cover and each output pin of an instance.
pub fn assemble(alloc: Global, model: &Model<'_>, models: &Models<'_>) -> Result<Cells, Refused>
    ensures { IfOk result (λ made. All (HasStatement made.cells.items) model.now.statements.items) }
{
    let mut cells = Cells {
        cells: Vec::new(alloc),
        spots: Vec::new(alloc),
    };
    for statement in &model.statements {
        cells.add_statement(alloc, models, statement)?;
    }
    Ok(cells)
}

/// Asks that a model has no latch, and that each of its nets is given by an input or a cell, and once.
pub fn ask_nets(alloc: Global, model: &Model<'_>, cells: &Cells) -> Result<(), Refusal> {
    if let Some(spot) = model.latch {
        return Err(at(spot, Fault::Latch));
    }
    let read = reads(alloc, model)?;
    for (word, read) in model.nets.iter().zip(read.iter()) {
        if *read && word.text == "$undef" {
            return Err(at(word.spot, Fault::Undefined));
        }
    }
    ask_given(alloc, model, cells, &read)
}
