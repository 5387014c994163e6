//! Results put in place: each is written whole to a new file beside the old one, and then takes its name. A refusal
//! or a full disk leaves the old file as it was.

use command_answer::answer::NewFile;
use command_answer::failure::Failure;
use std::alloc::Global;
use std::io::Write;
use std::rt::Files;
use std::{fs, io};

/// How many names are tried for a new file.
const NAMES: u32 = 100;

/// A file that is written whole and waits for its name.
#[derive(Drop)]
struct Waiting {
    new: String,
    name: String,
}

fn failed(alloc: Global, name: &str, error: io::Error) -> Failure {
    match format!(in alloc; "{name}: {error}") {
        Ok(words) => Failure::Words(words),
        Err(_) => Failure::Memory,
    }
}

/// The file that a name leads to: a link is followed.
fn followed<R: Files + AllocGlobal>(rt: &R, name: &str) -> io::Result<String> {
    match fs::canonicalize(rt, name) {
        Ok(path) => Ok(String::from_str(rt.alloc(), path.as_str())?),
        Err(_) => Ok(String::from_str(rt.alloc(), name)?),
    }
}

/// Whether a name is that of a device, a pipe or a folder.
fn is_special<R: Files>(rt: &R, name: &str) -> bool {
    match fs::metadata(rt, name) {
        Ok(data) => !data.is_file(),
        Err(_) => false,
    }
}

/// A new file beside another, with its name.
fn beside<R: Files + AllocGlobal>(rt: &R, name: &str) -> io::Result<(R::File, String)> {
    let mut last = io::Error::from(io::ErrorKind::AlreadyExists);
    for number in 0..NAMES {
        let new = format!(in rt.alloc(); "{name}.new{number}")?;
        match fs::File::create_new(rt, new.as_str()) {
            Ok(file) => return Ok((file, new)),
            Err(error) => last = error,
        }
    }
    Err(last)
}

fn write_all<R: Files + AllocGlobal>(rt: &R, name: &str, bytes: &[u8]) -> io::Result<String> {
    let (mut file, new) = beside(rt, name)?;
    match file.write_all(bytes) {
        Ok(()) => Ok(new),
        Err(error) => {
            let _ = fs::remove_file(rt, new.as_str());
            Err(error)
        }
    }
}

fn written<R: Files + AllocGlobal>(rt: &R, file: &NewFile) -> io::Result<Option<Waiting>> {
    let name = file.name.as_str();
    if is_special(rt, name) {
        fs::write(rt, name, file.bytes.as_slice())?;
        return Ok(None);
    }
    let name = followed(rt, name)?;
    let new = write_all(rt, name.as_str(), file.bytes.as_slice())?;
    Ok(Some(Waiting { new, name }))
}

fn put_in_place<R: Files>(rt: &R, waiting: &[Waiting]) -> io::Result<()> {
    for file in waiting {
        fs::rename(rt, file.new.as_str(), file.name.as_str())?;
    }
    Ok(())
}

fn take_away<R: Files>(rt: &R, waiting: &[Waiting]) {
    for file in waiting {
        let _ = fs::remove_file(rt, file.new.as_str());
    }
}

fn all_written<R: Files + AllocGlobal>(
    rt: &R,
    files: &[NewFile],
    done: &mut Vec<Waiting>,
) -> Result<(), Failure> {
    for file in files.iter().rev() {
        match written(rt, file) {
            Ok(Some(file)) => done.push(file)?,
            Ok(None) => {}
            Err(error) => return Err(failed(rt.alloc(), file.name.as_str(), error)),
        }
    }
    Ok(())
}

/// All files written whole, and then put in place; none of them where one can't be written.
pub fn write_files<R: Files + AllocGlobal>(rt: &R, files: &[NewFile]) -> Result<(), Failure> {
    let mut done = Vec::new(rt.alloc());
    if let Err(failure) = all_written(rt, files, &mut done) {
        take_away(rt, done.as_slice());
        return Err(failure);
    }
    match put_in_place(rt, done.as_slice()) {
        Ok(()) => Ok(()),
        Err(error) => {
            take_away(rt, done.as_slice());
            Err(failed(rt.alloc(), "putting the result in place", error))
        }
    }
}

/// Whether two names lead to one file.
pub fn is_same_file<R: Files + AllocGlobal>(rt: &R, first: &str, second: &str) -> bool {
    match (fs::canonicalize(rt, first), fs::canonicalize(rt, second)) {
        (Ok(first), Ok(second)) => first.as_str() == second.as_str(),
        _ => false,
    }
}
