//! What is asked of a server.
use rpc_message::Call;
use xdr_json::Layout;
use xdr_types::{KindId, Limits, Schema};

/// What is printed of a result.
#[derive(Clone, Copy, PartialEq, Eq)]
pub enum Form {
    /// One line of its bytes in lower-case hexadecimal.
    Hex,
    /// Its lines, a line for each part.
    Lines,
    /// Its JSON and a line feed.
    Json(Layout),
}

/// A call that is to be made, and what its results are to be.
#[derive(Drop)]
pub struct Asked {
    /// The call, with its arguments as the bytes that they are.
    pub call: Call,
    /// The schema that has the kind of the result.
    pub schema: Schema,
    /// That kind. Of a procedure without a result it is void, whose value has no bytes.
    pub result: KindId,
    /// The limits on the result.
    pub limits: Limits,
    /// How it is printed.
    pub form: Form,
}
