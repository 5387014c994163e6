//! An answer: what is written where, and the status.

ghost use Rattle.std.specs.Prelude.{◌≡◌, ◌≤◌, [], ◌∷◌, ◌++◌, OnOk};

use std::alloc::{AllocError, Global};

/// How a command ends.
#[derive(Clone, Copy, Debug, PartialEq, Eq)]
pub enum Status {
    /// done, or clean
    Done,
    /// a leak, a bad pair, or another output than the expected one
    Found,
    /// refused; also usage, files and memory
    Refused,
    /// not decided
    Undecided,
}

impl Status {
    /// The status of the process: 0 to 3.
    pub fn code(self) -> u8
        ensures { result ≤ 3 }
    {
        match self {
            Status::Done => 0,
            Status::Found => 1,
            Status::Refused => 2,
            Status::Undecided => 3,
        }
    }
}

/// A file that is to be put in place.
#[derive(Debug, Drop)]
pub struct NewFile {
    /// its name
    pub name: String,
    /// what it holds
    pub bytes: Vec<u8>,
}

/// What a command line comes to.
#[derive(Debug, Drop)]
pub struct Answer {
    /// for standard output
    pub output: Vec<u8>,
    /// remarks for standard error
    pub remarks: String,
    /// the files that are put in place, before anything is printed
    pub files: Vec<NewFile>,
    /// how it ends
    pub status: Status,
}

impl Answer {
    ghost use Rattle.command_answer.specs.Delivered.{Delivers, Stands};

    /// Nothing to say, and done.
    pub fn new(alloc: Global) -> Self
        ensures done { result.status ≡ Status.Done }
        ensures empty { (result.output.items ≡ []) × (result.files.items ≡ []) }
    {
        Answer {
            output: Vec::new(alloc),
            remarks: String::new(alloc),
            files: Vec::new(alloc),
            status: Status::Done,
        }
    }

    /// A line for standard output.
    pub fn say(&mut self, line: &str) -> Result<(), AllocError>
        ensures output { OnOk result (self.new.output.items ≡ self.old.output.items ++ line.now ++ 10 ∷ []) }
        ensures others { (self.new.status ≡ self.old.status) × (self.new.files.items ≡ self.old.files.items) }
    {
        self.output.extend_from_slice(line.as_bytes())?;
        self.output.push(b'\n')?;
        Ok(())
    }

    /// A remark, unless remarks are not wanted.
    pub fn remark(&mut self, line: &str, is_quiet: bool) -> Result<(), AllocError>
        ensures others { (self.new.status ≡ self.old.status) × (self.new.files.items ≡ self.old.files.items)
            × (self.new.output.items ≡ self.old.output.items) }
    {
        if !is_quiet {
            self.remarks.push_str(line)?;
            self.remarks.push('\n')?;
        }
        Ok(())
    }

    /// Bytes for a file, or for standard output where there is no name.
    pub fn deliver(&mut self, name: Option<String>, bytes: Vec<u8>) -> Result<(), AllocError>
        ensures bytes { OnOk result (Delivers name bytes.items self.old self.new) }
        ensures stands { OnOk result (Stands self.new bytes.items) }
        ensures status { self.new.status ≡ self.old.status }
    {
        match name {
            Some(name) => self.files.push(NewFile { name, bytes })?,
            None => self.output.extend_from_slice(bytes.as_slice())?,
        }
        Ok(())
    }
}
