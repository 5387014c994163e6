//! `fidrovelj info`.

use command_answer::answer::Answer;
use command_answer::failure::Failure;
use command_answer::files::Text;
use command_answer::grouped::Grouped;
use command_answer::netlists::{fashion_of, masked_limits, refused, shape_of};
use command_netlists::census::{Census, census_of};
use command_netlists::conversions::{Rewriting, rewrite};
use command_netlists::shape::Shape;
use command_words::VERSION;
use command_words::plan::InfoTask;
use netlist::{Limits, Sizes};
use serde_json::{Value, json};
use std::alloc::{AllocError, Global};

fn widths(alloc: Global, list: &[u32]) -> Result<String, AllocError> {
    let mut text = String::new(alloc);
    for (index, width) in list.iter().enumerate() {
        if 0 < index {
            text.push_str(", ")?;
        }
        write!(text, "{width}")?;
    }
    Ok(text)
}

/// Whether a netlist fits limits.
fn fits(shape: &Shape, bytes: usize, limits: Limits) -> bool {
    shape.wires <= limits.wires as usize
        && bytes <= limits.text
        && shape.inputs.len() <= limits.inputs
}

/// The limits that a netlist fits, in words.
fn limits(shape: &Shape, bytes: usize) -> &'static str {
    if fits(shape, bytes, Sizes::Standard.source_limits()) {
        "a source of standard size"
    } else if fits(shape, bytes, Sizes::Standard.masked_limits()) {
        "a masked netlist of standard size"
    } else if fits(shape, bytes, Sizes::Whole.source_limits()) {
        "a source of the size of a whole cipher"
    } else {
        "a masked netlist of the size of a whole cipher"
    }
}

fn plural(count: usize) -> &'static str {
    if count == 1 { "" } else { "s" }
}

fn words(
    alloc: Global,
    answer: &mut Answer,
    shape: &Shape,
    census: Census,
    bytes: usize,
) -> Result<(), AllocError> {
    let inputs = widths(alloc, shape.inputs.as_slice())?;
    let outputs = widths(alloc, shape.outputs.as_slice())?;
    let ins = shape.inputs.len();
    let outs = shape.outputs.len();
    answer.say(format!(in alloc; "{ins} input value{} of {inputs} bits", plural(ins))?.as_str())?;
    answer.say(format!(in alloc;
        "{outs} output value{} of {outputs} bits",
        plural(outs)
    )?.as_str())?;
    let wires = Grouped(shape.wires);
    let gates = Grouped(shape.gates);
    let Census {
        xor,
        and,
        inv,
        eqw,
        eq,
        depth,
        and_depth,
    } = census;
    answer.say(format!(in alloc;
        "{wires} wires, {gates} gates: {xor} XOR, {and} AND, {inv} INV, {eqw} EQW, {eq} EQ"
    )?.as_str())?;
    answer.say(format!(in alloc; "depth {depth}, in ANDs {and_depth}")?.as_str())?;
    answer.say(limits(shape, bytes))?;
    answer.say(match shape.source_inputs() {
        Some(_) => "the last input value can be a mask pair",
        None => "the last input value is no mask pair",
    })
}

fn numbers(alloc: Global, list: &[u32]) -> Result<Value, AllocError> {
    let mut values = Vec::new(alloc);
    for width in list {
        let width = u64::from(*width);
        values.push(json!(in alloc; width)?)?;
    }
    Ok(Value::Array(values))
}

fn object(
    alloc: Global,
    file: &str,
    shape: &Shape,
    census: Census,
    bytes: usize,
) -> Result<String, AllocError> {
    let inputs = numbers(alloc, shape.inputs.as_slice())?;
    let outputs = numbers(alloc, shape.outputs.as_slice())?;
    let wires = shape.wires as u64;
    let gates = shape.gates as u64;
    let xor = census.xor as u64;
    let and = census.and as u64;
    let inv = census.inv as u64;
    let eqw = census.eqw as u64;
    let eq = census.eq as u64;
    let depth = u64::from(census.depth);
    let and_depth = u64::from(census.and_depth);
    let fits = limits(shape, bytes);
    let has_masks = shape.source_inputs().is_some();
    let value = json!(in alloc; {
        "version": VERSION,
        "command": "info",
        "file": file,
        "inputs": inputs,
        "outputs": outputs,
        "wires": wires,
        "gates": gates,
        "xor": xor,
        "and": and,
        "inv": inv,
        "eqw": eqw,
        "eq": eq,
        "depth": depth,
        "and_depth": and_depth,
        "fits": fits,
        "ends_in_pair": has_masks,
    })?;
    value.to_string(alloc)
}

/// What a netlist is made of.
pub fn answer(
    alloc: Global,
    task: InfoTask,
    netlist: &Text,
    is_json: bool,
) -> Result<Answer, Failure> {
    let file = netlist.name.as_str();
    let other = fashion_of(alloc, netlist, task.from)?;
    let text = match &other {
        Some(text) => text.as_slice(),
        None => netlist.bytes.as_slice(),
    };
    let shape = shape_of(alloc, file, text)?;
    let written = match rewrite(alloc, Rewriting::Written, text)? {
        Ok(written) => written,
        Err(question) => return Err(refused(alloc, file, text, question, masked_limits())),
    };
    let census = match census_of(alloc, written.as_slice())? {
        Ok(census) => census,
        Err(question) => return Err(refused(alloc, file, text, question, masked_limits())),
    };
    let mut answer = Answer::new(alloc);
    if is_json {
        answer.say(object(alloc, file, &shape, census, text.len())?.as_str())?;
    } else {
        words(alloc, &mut answer, &shape, census, text.len())?;
    }
    Ok(answer)
}
