//! Where bytes come from and where they go, a piece at a time.
//!
//! A [`Source`] and a [`Sink`] may report what they did: their bytes, their calls and the calls that failed. The
//! contracts above speak of what is reported.
//!
//! - `traits`: sources and sinks. `input`: all of a source, or more than enough. `whole`: a whole slice into a sink.
//! - `memory`: over borrowed memory, which reports all. `gathered`: a sink that keeps its bytes and reports them.
//!   `over_std`: over std's readers and writers, which reports nothing.
#![tactic(auto)]

mod gathered;
mod input;
mod memory;
mod over_std;
mod traits;
mod whole;

pub use gathered::Gathered;
pub use input::{InputFault, MOST_READS, read_past};
pub use memory::{MemorySink, MemorySource};
pub use over_std::{FromRead, IntoWrite};
pub use traits::{ReadFault, Sink, SinkFault, Source};
pub use whole::{Cut, write_whole};
