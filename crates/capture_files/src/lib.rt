//! Files of captured packets, the classic format and pcapng, read in any pieces: one packet at a time, in a buffer of
//! bounded size (draft-ietf-opsawg-pcap, draft-ietf-opsawg-pcapng).
//!
//! - `reader` takes bytes in any pieces and hands packets out. By `units` it gathers one unit of the file at a time.
//! - `step` says what a unit is: by `classic` for the header and the records of the classic format, by `blocks`,
//!   `sections`, `interfaces`, `packets` and `passing` for the blocks of pcapng.
//! - `place` has where in a file a unit stands, `progress` how far the reader is with it, and `numbers` the numbers of
//!   both orders of bytes. `captured` has a packet, `fault` and `reason` why a file is refused.
//! - `laws` are theorems about the definitions.
#![tactic(auto)]

mod blocks;
mod captured;
mod classic;
mod fault;
mod interfaces;
mod laws;
mod numbers;
mod packets;
mod passing;
mod place;
mod progress;
mod reader;
mod reason;
mod sections;
mod step;

pub use captured::{Captured, Interface};
pub use fault::{CaptureFault, CaptureStep};
pub use laws::{a_file_has_one_reading, a_file_is_not_refused, spelled_files_are_read};
pub use reader::CaptureReader;
pub use reason::CaptureReason;
