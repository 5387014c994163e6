//! Which nets are read, and the constants that nothing reads.

use crate::statements::{Model, Statement};
use std::alloc::{AllocError, Global};

/// Which nets are read: by a cell, or as an output.
pub fn reads(alloc: Global, model: &Model<'_>) -> Result<Vec<bool>, AllocError> {
    let mut read = vec![in alloc; false; model.nets.len()]?;
    for statement in &model.statements {
        match statement {
            Statement::OfNames(names) => mark(&mut read, &names.inputs),
            Statement::OfModel(instance) => {
                for connection in &instance.connections {
                    mark(&mut read, &[connection.net]);
                }
            }
        }
    }
    mark(&mut read, &model.outputs);
    Ok(read)
}

/// Marks nets.
fn mark(marks: &mut [bool], nets: &[u32]) {
    for net in nets {
        if let Some(place) = marks.get_mut(*net as usize) {
            *place = true;
        }
    }
}

/// The nets whose constants yosys writes into each file, whether they are read or not.
fn is_constant(name: &str) -> bool {
    matches!(name, "$false" | "$true" | "$undef")
}

/// Leaves out the constants `$false`, `$true` and `$undef` where nothing reads them.
pub fn leave_out_constants(alloc: Global, model: &mut Model<'_>) -> Result<(), AllocError> {
    let read = reads(alloc, model)?;
    let nets = &model.nets;
    model.statements.retain(|statement| match statement {
        Statement::OfNames(names) => {
            let place = names.output as usize;
            let constant = nets.get(place).is_some_and(|word| is_constant(word.text));
            !constant || read.get(place).copied().unwrap_or(false)
        }
        Statement::OfModel(_) => true,
    });
    Ok(())
}
