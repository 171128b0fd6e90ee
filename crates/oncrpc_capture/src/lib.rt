//! The engine of `oncrpc capture`, over readers and writers: the messages that a capture carries, over UDP and TCP,
//! printed and judged, and the exit status.
//!
//! - `capture`: the call, by `task`, which is what the words ask for. `desk`: goes through the packets of the file.
//! - `pairs`: who talks to whom. `flows`: those who do so over TCP, each a `flow` of two directions. `finding` tells
//!   where bytes begin as a call does.
//! - `printing`: where what is found goes, by `text`, or into `stats`. `seen`: when and from whom it came. `told`: what
//!   is said of bytes without a message. `clock`: times of captures.
#![tactic(auto)]

mod capture;
mod clock;
mod desk;
mod finding;
mod flow;
mod flows;
mod pairs;
mod printing;
mod seen;
mod stats;
mod task;
mod text;
mod told;

pub use capture::capture_over;
pub use task::CaptureTask;
