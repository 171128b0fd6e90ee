//! What a reader holds.
use rpc_record::RecordReader;

/// The reader, and the record that was read whole and was not taken yet.
#[derive(Drop)]
pub struct State {
    pub reader: RecordReader,
    /// Whether a record waits to be taken.
    pub waits: bool,
    /// The record that waits; where none does, memory for one to come.
    pub last: Vec<u8>,
}
