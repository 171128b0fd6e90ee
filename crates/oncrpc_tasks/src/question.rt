//! What is asked of an input.
use xdr_json::Layout;
use xdr_types::{KindId, Limits, Schema};

/// What is printed of a value.
#[derive(Clone, Copy, PartialEq, Eq)]
pub enum Form {
    /// Nothing but the line of its outcome.
    Outcome,
    /// Its lines, and then that line.
    Lines,
    /// Its JSON and a line feed. The line of the outcome goes to the stream of faults, unless it is `ok N`.
    Json(Layout),
}

/// A value of a kind that the schema has, within the limits, and how it is read and reported.
#[derive(Clone, Copy)]
pub struct Question<'a> {
    pub schema: &'a Schema,
    pub kind: KindId,
    pub limits: Limits,
    /// Whether the input is a text of hexadecimal. Else it is read as it is.
    pub hex: bool,
    /// What is printed of the value.
    pub form: Form,
}
