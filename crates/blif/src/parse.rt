//! A text of BLIF as its models.

use crate::error::{Fault, Refusal, Spot, at};
use crate::reads::leave_out_constants;
use crate::statements::{Connection, Instance, Model, Names, Statement, Word};
use cells::cover::{Cover, Cube, Literal};
use cells::table::MOST_INPUTS;
use std::alloc::Global;

/// The models so far, and the words of the statement at hand.
#[derive(Drop)]
struct Parser<'a> {
    alloc: Global,
    models: Vec<Model<'a>>,
    words: Vec<Word<'a>>,
    /// whether statements stand in the last model
    open: bool,
    /// whether the last statement is a `.names`, which lines of its cover follow
    cover: bool,
}

/// What a character of a cube asks of its input.
fn literal(character: u8) -> Option<Literal> {
    match character {
        b'0' => Some(Literal::Zero),
        b'1' => Some(Literal::One),
        b'-' => Some(Literal::Any),
        _ => None,
    }
}

/// The cube that a word spells, over this many inputs.
fn cube(word: Word<'_>, inputs: usize) -> Result<Cube, Refusal> {
    let mut literals = [Literal::Any; 6];
    if word.text.len() != inputs {
        return Err(at(word.spot, Fault::Cube));
    }
    for (place, character) in word.text.bytes().enumerate() {
        match (literals.get_mut(place), literal(character)) {
            (Some(entry), Some(literal)) => *entry = literal,
            _ => return Err(at(word.spot, Fault::Cube)),
        }
    }
    Ok(Cube { literals })
}

/// The bit that a word spells.
fn value(word: Word<'_>) -> Result<bool, Refusal> {
    match word.text {
        "0" => Ok(false),
        "1" => Ok(true),
        _ => Err(at(word.spot, Fault::Value)),
    }
}

/// Adds a cube to a cover, of which all have one value.
fn add_cube(cover: &mut Cover, cube: Cube, value: bool, spot: Spot) -> Result<(), Refusal> {
    if cover.cubes.is_empty() {
        cover.value = value;
    }
    if cover.value != value {
        return Err(at(spot, Fault::Mixed));
    }
    cover.cubes.push(cube)?;
    Ok(())
}

/// Adds the line of a cover that the words are.
fn add_line(names: &mut Names, words: &[Word<'_>]) -> Result<(), Refusal> {
    match (names.inputs.len(), words) {
        (0, [last]) => {
            let cube = Cube {
                literals: [Literal::Any; 6],
            };
            add_cube(&mut names.cover, cube, value(*last)?, last.spot)
        }
        (inputs, [first, last]) => {
            let cube = cube(*first, inputs)?;
            add_cube(&mut names.cover, cube, value(*last)?, last.spot)
        }
        (_, [_, _, third, ..]) => Err(at(third.spot, Fault::Long)),
        (_, [only]) => Err(at(only.spot, Fault::Cube)),
        (_, []) => Ok(()),
    }
}

/// The net of a word, of those that follow a statement's name.
fn add_ports<'a>(model: &mut Model<'a>, words: &[Word<'a>], outputs: bool) -> Result<(), Refusal> {
    for word in words.iter().skip(1) {
        let net = model.net(*word)?;
        if outputs {
            model.outputs.push(net)?;
        } else {
            model.inputs.push(net)?;
        }
    }
    Ok(())
}

/// Adds a `.names` statement, whose last word is the net that it gives.
fn add_names<'a>(
    alloc: Global,
    model: &mut Model<'a>,
    words: &[Word<'a>],
    spot: Spot,
) -> Result<(), Refusal> {
    let mut inputs = Vec::new(alloc);
    let mut last = None;
    for word in words.iter().skip(1) {
        if let Some(before) = last {
            inputs.push(before)?;
        }
        if inputs.len() > MOST_INPUTS {
            return Err(at(word.spot, Fault::Inputs));
        }
        last = Some(model.net(*word)?);
    }
    let Some(output) = last else {
        return Err(at(spot, Fault::Short));
    };
    let cover = Cover {
        cubes: Vec::new(alloc),
        value: true,
    };
    let names = Names {
        output,
        inputs,
        cover,
        spot,
    };
    model.statements.push(Statement::OfNames(names))?;
    Ok(())
}

/// The connection that a word spells.
fn connection<'a>(model: &mut Model<'a>, word: Word<'a>) -> Result<Connection<'a>, Refusal> {
    let Some((pin, text)) = word.text.split_once('=') else {
        return Err(at(word.spot, Fault::Connection));
    };
    let net = model.net(Word {
        text,
        spot: word.spot,
    })?;
    Ok(Connection {
        pin,
        net,
        spot: word.spot,
    })
}

/// Adds a `.subckt` or `.gate` statement.
fn add_instance<'a>(
    alloc: Global,
    model: &mut Model<'a>,
    words: &[Word<'a>],
    spot: Spot,
) -> Result<(), Refusal> {
    let Some(name) = words.get(1).copied() else {
        return Err(at(spot, Fault::Short));
    };
    let mut connections = Vec::new(alloc);
    for word in words.iter().skip(2) {
        connections.push(connection(model, *word)?)?;
    }
    let instance = Instance {
        model: name,
        connections,
    };
    model.statements.push(Statement::OfModel(instance))?;
    Ok(())
}

/// Adds the statement that begins with a word, in a model.
fn add_statement<'a>(
    alloc: Global,
    model: &mut Model<'a>,
    words: &[Word<'a>],
    first: Word<'a>,
) -> Result<(), Refusal> {
    match first.text {
        ".inputs" => add_ports(model, words, false),
        ".outputs" => add_ports(model, words, true),
        ".names" => add_names(alloc, model, words, first.spot),
        ".subckt" | ".gate" => add_instance(alloc, model, words, first.spot),
        ".latch" => {
            model.latch = Some(first.spot);
            Ok(())
        }
        _ => Err(at(first.spot, Fault::Command)),
    }
}

/// Adds a line of the cover of the last statement.
fn add_to_last(model: &mut Model<'_>, words: &[Word<'_>], spot: Spot) -> Result<(), Refusal> {
    match model.statements.last_mut() {
        Some(Statement::OfNames(names)) => add_line(names, words),
        _ => Err(at(spot, Fault::NoCover)),
    }
}

impl<'a> Parser<'a> {
    /// Begins a model.
    fn begin(&mut self, spot: Spot) -> Result<(), Refusal> {
        let Some(name) = self.words.get(1).copied() else {
            return Err(at(spot, Fault::Short));
        };
        if let Some(third) = self.words.get(2) {
            return Err(at(third.spot, Fault::Long));
        }
        self.models.push(Model::new(self.alloc, name))?;
        self.open = true;
        self.cover = false;
        Ok(())
    }

    /// Adds the statement of the words, which begin with `first`, to the last model.
    fn add(&mut self, first: Word<'a>) -> Result<(), Refusal> {
        let model = match self.models.last_mut() {
            Some(model) if self.open => model,
            _ => return Err(at(first.spot, Fault::NoModel)),
        };
        if first.text.starts_with('.') {
            self.cover = first.text == ".names";
            return add_statement(self.alloc, model, &self.words, first);
        }
        if !self.cover {
            return Err(at(first.spot, Fault::NoCover));
        }
        add_to_last(model, &self.words, first.spot)
    }

    /// Takes the statement of the words.
    fn statement(&mut self) -> Result<(), Refusal> {
        let Some(first) = self.words.first().copied() else {
            return Ok(());
        };
        match first.text {
            ".model" => self.begin(first.spot)?,
            ".end" => self.open = false,
            _ => self.add(first)?,
        }
        self.words.clear();
        Ok(())
    }

    /// Takes a line. One that ends in a backslash goes on in the next.
    fn line(&mut self, number: usize, line: &'a str) -> Result<(), Refusal> {
        let bare = match line.split_once('#') {
            Some((before, _)) => before,
            None => line,
        };
        let front = bare.trim_ascii_end().strip_suffix('\\');
        for (place, text) in front.unwrap_or(bare).split_ascii_whitespace().enumerate() {
            let spot = Spot {
                line: number,
                word: place.saturating_add(1),
            };
            self.words.push(Word { text, spot })?;
        }
        match front {
            Some(_) => Ok(()),
            None => self.statement(),
        }
    }
}

/// The models of a text, in their order. The constants that yosys writes into each file are left out where nothing
/// reads them.
pub fn parse<'a>(alloc: Global, text: &'a str) -> Result<Vec<Model<'a>>, Refusal> {
    let mut parser = Parser {
        alloc,
        models: Vec::new(alloc),
        words: Vec::new(alloc),
        open: false,
        cover: false,
    };
    for (place, line) in text.lines().enumerate() {
        parser.line(place.saturating_add(1), line)?;
    }
    parser.statement()?;
    let mut models = parser.models;
    for model in models.iter_mut() {
        leave_out_constants(alloc, model)?;
    }
    Ok(models)
}
