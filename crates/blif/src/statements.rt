//! What a file of BLIF says: its models and their statements.

use crate::error::Spot;
use cells::cover::Cover;
use std::alloc::{AllocError, Global};
use std::collections::HashMap;

/// A word of a file, and where it stands.
#[derive(Clone, Copy, Debug)]
pub struct Word<'a> {
    pub text: &'a str,
    pub spot: Spot,
}

/// A `.names` statement: the net that it gives, those that it reads, and its cover over these.
#[derive(Debug, Drop)]
pub struct Names {
    pub output: u32,
    pub inputs: Vec<u32>,
    pub cover: Cover,
    pub spot: Spot,
}

/// A pin of a model and the net that it is connected to.
#[derive(Clone, Copy, Debug)]
pub struct Connection<'a> {
    pub pin: &'a str,
    pub net: u32,
    pub spot: Spot,
}

/// A `.subckt` or `.gate` statement.
#[derive(Debug, Drop)]
pub struct Instance<'a> {
    pub model: Word<'a>,
    pub connections: Vec<Connection<'a>>,
}

/// A statement that gives nets.
#[derive(Debug, Drop)]
pub enum Statement<'a> {
    OfNames(Names),
    OfModel(Instance<'a>),
}

/// A model: its nets by number, each with its name where it stands first, the nets of its ports, and its statements.
#[derive(Drop)]
pub struct Model<'a> {
    pub name: Word<'a>,
    pub nets: Vec<Word<'a>>,
    pub numbers: HashMap<&'a str, u32>,
    pub inputs: Vec<u32>,
    pub outputs: Vec<u32>,
    pub statements: Vec<Statement<'a>>,
    pub latch: Option<Spot>,
}

impl<'a> Model<'a> {
    /// A model of no statement.
    pub fn new(alloc: Global, name: Word<'a>) -> Self {
        Model {
            name,
            nets: Vec::new(alloc),
            numbers: HashMap::new(alloc),
            inputs: Vec::new(alloc),
            outputs: Vec::new(alloc),
            statements: Vec::new(alloc),
            latch: None,
        }
    }

    /// The number of the net of this name, which is new where no net has it.
    pub fn net(&mut self, name: Word<'a>) -> Result<u32, AllocError> {
        if let Some(number) = self.numbers.get(&name.text).copied() {
            return Ok(number);
        }
        let number = u32::try_from(self.nets.len()).map_err(|_| AllocError)?;
        self.nets.push(name)?;
        self.numbers.insert(name.text, number)?;
        Ok(number)
    }
}
