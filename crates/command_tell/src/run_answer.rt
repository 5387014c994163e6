//! `fidrovelj run`.

use crate::vectors::{Vector, bits_of, vectors, words_of};
use command_answer::answer::{Answer, Status};
use command_answer::failure::Failure;
use command_answer::files::{Files, Text};
use command_answer::netlists::{fashion_of, masked_limits, refused, shape_of};
use command_lists::failure::ListError;
use command_lists::numbers::total;
use command_lists::values::{Values, parse, write};
use command_netlists::shape::Shape;
use command_running::{run, run64};
use command_words::plan::{Role, RunTask};
use std::alloc::{AllocError, Global};

/// One run, its output written as its input is.
fn once(
    alloc: Global,
    file: &str,
    text: &[u8],
    words: &str,
    shape: &Shape,
) -> Result<Answer, Failure> {
    let values: Result<Values, ListError> = parse(
        alloc,
        words,
        shape.inputs.as_slice(),
        "bits",
        "input bits",
    );
    let Values { bits, notation } = match values {
        Ok(values) => values,
        Err(error) => return Err(Failure::List(String::from_str(alloc, "VALUES")?, error)),
    };
    let widths = shape.outputs.as_slice();
    let outputs = match run(alloc, text, bits.as_slice(), total(widths))? {
        Ok(outputs) => outputs,
        Err(question) => return Err(refused(alloc, file, text, question, masked_limits())),
    };
    let mut line = String::new(alloc);
    write(&mut line, outputs.as_slice(), widths, notation)?;
    let mut answer = Answer::new(alloc);
    answer.say(line.as_str())?;
    Ok(answer)
}

/// The line of one vector: its output, and if another is expected that too. Says whether it is the expected one.
fn tell_vector(
    alloc: Global,
    answer: &mut Answer,
    vector: &Vector,
    outputs: &[u8],
    widths: &[u32],
) -> Result<bool, AllocError> {
    let mut line = String::new(alloc);
    write(&mut line, outputs, widths, vector.notation)?;
    let is_expected = match &vector.expected {
        Some(expected) => expected.as_slice() == outputs,
        None => true,
    };
    if let Some(expected) = &vector.expected {
        if !is_expected {
            write!(line, " in place of ")?;
            write(&mut line, expected.as_slice(), widths, vector.notation)?;
            write!(line, " (line {})", vector.line)?;
        }
    }
    answer.say(line.as_str())?;
    Ok(is_expected)
}

/// At most sixty-four vectors in one pass. Says how many outputs are not the expected ones.
fn some(
    alloc: Global,
    answer: &mut Answer,
    file: &str,
    text: &[u8],
    vectors: &[Vector],
    shape: &Shape,
) -> Result<usize, Failure> {
    let words = words_of(alloc, vectors, total(shape.inputs.as_slice()))?;
    let widths = shape.outputs.as_slice();
    let outputs = match run64(alloc, text, words.as_slice(), total(widths))? {
        Ok(outputs) => outputs,
        Err(question) => return Err(refused(alloc, file, text, question, masked_limits())),
    };
    let mut odd = 0usize;
    for (place, vector) in vectors.iter().enumerate() {
        let bits = bits_of(alloc, outputs.as_slice(), place)?;
        if !tell_vector(alloc, answer, vector, bits.as_slice(), widths)? {
            odd = odd.saturating_add(1);
        }
    }
    Ok(odd)
}

fn all(
    alloc: Global,
    file: &str,
    text: &[u8],
    source: &Text,
    shape: &Shape,
) -> Result<Answer, Failure> {
    let name = source.name.as_str();
    let list = match str::from_utf8(source.bytes.as_slice()) {
        Ok(words) => vectors(alloc, name, words, shape)?,
        Err(_) => return Err(Failure::Words(format!(in alloc;
            "{name}: a file of vectors is text"
        )?)),
    };
    let mut answer = Answer::new(alloc);
    let mut odd = 0usize;
    for sixty_four in list.as_slice().chunks(64) {
        odd = odd.saturating_add(some(alloc, &mut answer, file, text, sixty_four, shape)?);
    }
    if 0 < odd {
        answer.status = Status::Found;
    }
    Ok(answer)
}

/// The output values of a netlist, or of each vector.
pub fn answer(
    alloc: Global,
    task: RunTask,
    files: Files,
    netlist: &Text,
) -> Result<Answer, Failure> {
    let file = netlist.name.as_str();
    let other = fashion_of(alloc, netlist, task.from)?;
    let text = match &other {
        Some(text) => text.as_slice(),
        None => netlist.bytes.as_slice(),
    };
    let shape = shape_of(alloc, file, text)?;
    match (&task.values, files.get(Role::Vectors)) {
        (_, Some(source)) => all(alloc, file, text, source, &shape),
        (Some(words), None) => once(alloc, file, text, words.as_str(), &shape),
        (None, None) => Err(Failure::Words(format!(in alloc;
            "no input values: give them after the file, or a file of them by --vectors"
        )?)),
    }
}
