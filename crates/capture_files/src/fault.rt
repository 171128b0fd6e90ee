//! What a reader answers.

use crate::reason::CaptureReason;
use thiserror::Error;

/// Why a file is refused, and where: the place of the record or block that is at fault, u64::MAX for any place behind.
#[derive(Clone, Copy, Debug, PartialEq, Eq, Error)]
#[error("{reason} at {at}")]
pub struct CaptureFault {
    pub reason: CaptureReason,
    pub at: u64,
}

/// How far a reader has come.
#[derive(Clone, Copy, Debug, PartialEq, Eq)]
pub enum CaptureStep {
    /// It took the whole piece, and no packet waits.
    More,
    /// A packet waits. It ends with the last of the first `used` bytes of the piece, and these alone were taken.
    Packet { used: usize },
}
