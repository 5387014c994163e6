//! The models that a netlist may use as cells.

use crate::error::{BlifError, Fault, Refusal, Source, at};
use crate::instances::{Shape, shape_of};
use crate::statements::Model;
use std::alloc::Global;
use std::collections::HashMap;

/// A model as a cell, or why it is none, and the file that it stands in.
#[derive(Debug, Drop)]
pub struct Entry<'a> {
    pub shape: Result<Shape<'a>, Refusal>,
    pub source: Source,
}

/// The models by name.
#[derive(Drop)]
pub struct Models<'a> {
    pub entries: HashMap<&'a str, Entry<'a>>,
}

impl<'a> Models<'a> {
    /// Adds models of a file. A name of an earlier file stays with that file's model.
    pub fn add(
        &mut self,
        alloc: Global,
        models: &[Model<'a>],
        source: Source,
    ) -> Result<(), Refusal> {
        for model in models {
            let name = model.name.text;
            match self.entries.get(&name) {
                Some(entry) if entry.source == source => return Err(at(
                    model.name.spot,
                    Fault::ModelTwice,
                )),
                Some(_) => continue,
                None => (),
            }
            let shape = shape_of(alloc, model);
            if let Err(Refusal::Memory) = shape {
                return Err(Refusal::Memory);
            }
            self.entries.insert(name, Entry { shape, source })?;
        }
        Ok(())
    }
}
