//! Files of any name, and standard input under the name `-`.

use command_answer::failure::Failure;
use command_answer::files::Text;
use command_words::plan::Source;
use std::alloc::Global;
use std::io::{ErrorKind, Read};
use std::rt::Files;
use std::{fs, io};

/// The most bytes that are read: a netlist of the largest size has as many.
const LIMIT: usize = 27_000_000;

/// All bytes of a reader, at most one more than any limit admits.
fn all<F: Read>(alloc: Global, reader: &mut F) -> io::Result<Vec<u8>> {
    let mut bytes = Vec::new(alloc);
    reader.take(LIMIT as u64 + 1).read_to_end(&mut bytes)?;
    Ok(bytes)
}

fn opened<R: Files + Input + AllocGlobal>(rt: &R, name: &str) -> io::Result<Vec<u8>> {
    if name == "-" {
        return all(rt.alloc(), &mut rt.reader());
    }
    let mut file = fs::open(rt, name)?;
    all(rt.alloc(), &mut file)
}

/// The name that a message has for a file.
fn shown(name: &str) -> &str {
    if name == "-" { "standard input" } else { name }
}

fn failed(alloc: Global, name: &str, error: io::Error) -> Failure {
    match format!(in alloc; "{name}: {error}") {
        Ok(words) => Failure::Words(words),
        Err(_) => Failure::Memory,
    }
}

/// The bytes of a file, or none where it is missing and may be. A file longer than any limit admits is refused before
/// it is read whole.
fn text_of<R: Files + Input + AllocGlobal>(
    rt: &R,
    source: Source,
) -> Result<Option<Text>, Failure> {
    let alloc = rt.alloc();
    let Source {
        role,
        name,
        is_optional,
    } = source;
    let bytes = match opened(rt, name.as_str()) {
        Ok(bytes) => bytes,
        Err(error) if is_optional && error.kind() == ErrorKind::NotFound => return Ok(None),
        Err(error) => return Err(failed(alloc, shown(name.as_str()), error)),
    };
    let shown = shown(name.as_str());
    if LIMIT < bytes.len() {
        return Err(Failure::Words(format!(in alloc;
            "{shown}: longer than 27,000,000 bytes, which no limit admits (refused by 2)"
        )?));
    }
    let name = String::from_str(alloc, shown)?;
    Ok(Some(Text { role, name, bytes }))
}

/// The files of a plan, in its order.
pub fn texts_of<R: Files + Input + AllocGlobal>(
    rt: &R,
    sources: Vec<Source>,
) -> Result<Vec<Text>, Failure> {
    let mut texts = Vec::new(rt.alloc());
    for source in sources {
        if let Some(text) = text_of(rt, source)? {
            texts.push(text)?;
        }
    }
    Ok(texts)
}
