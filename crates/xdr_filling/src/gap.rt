//! Parts of a node that are not filled.

use xdr_stream::machine::frame::Frame;

/// Parts of a node that are not filled, and how many levels their values may have.
#[derive(Clone, Copy)]
pub struct Gap<'s> {
    pub(crate) frame: Frame<'s>,
    pub(crate) room: u32,
}

// No parts, which fills what has no gap yet.
impl<'s> Default for Gap<'s> {
    fn default() -> Gap<'s> {
        Gap {
            frame: Frame::default(),
            room: 0,
        }
    }
}
