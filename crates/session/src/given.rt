//! A session as it is handed in.
use crate::Session;
use gates::records::SourceRecord;

/// The session, the widths of its input and of its output values, and the list of records whose first are its gates, to
/// read.
#[derive(Clone, Copy)]
pub struct Given<'a> {
    pub session: Session,
    pub widths: &'a [u32],
    pub outputs: &'a [u32],
    pub source: &'a [SourceRecord],
}
