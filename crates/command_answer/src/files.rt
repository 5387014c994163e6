//! The files that were read for a plan.

use command_words::plan::Role;

/// A file as it was read.
#[derive(Debug, Drop)]
pub struct Text {
    /// what it was read for
    pub role: Role,
    /// its name, or `standard input`
    pub name: String,
    /// its bytes
    pub bytes: Vec<u8>,
}

/// All files of a plan. One that was optional and is missing has no entry.
#[derive(Clone, Copy)]
pub struct Files<'a> {
    /// the files
    pub texts: &'a [Text],
}

impl<'a> Files<'a> {
    /// The file with a role.
    pub fn get(&self, role: Role) -> Option<&'a Text> {
        self.texts.iter().find(|text| text.role == role)
    }

    /// The bytes of the file with a role, none where it is missing.
    pub fn bytes(&self, role: Role) -> &'a [u8] {
        match self.get(role) {
            Some(text) => text.bytes.as_slice(),
            None => &[],
        }
    }

    /// The name of the file with a role.
    pub fn name(&self, role: Role) -> &'a str {
        match self.get(role) {
            Some(text) => text.name.as_str(),
            None => "-",
        }
    }
}
