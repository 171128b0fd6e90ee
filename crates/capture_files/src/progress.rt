//! How far a reader is with a unit.

use crate::captured::Found;
use crate::fault::CaptureFault;

/// How far a reader is with the unit at work.
#[derive(Clone, Copy, Debug, PartialEq, Eq)]
pub enum Progress {
    /// Bytes are missing.
    Gathering,
    /// It has a packet, which waits.
    Waiting(Found),
    /// The file is refused.
    Broken(CaptureFault),
}
