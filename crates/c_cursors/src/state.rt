//! What a handle holds.
use xdr_cursor::Cursor;

/// A cursor over the parts of a value.
#[derive(Drop)]
pub struct State {
    pub cursor: Cursor,
}
