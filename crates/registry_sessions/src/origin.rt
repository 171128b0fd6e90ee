//! Where the bytes of a connection come from.
use registry_answer::Transport;
use registry_callers::Caller;

/// Where the bytes of a connection come from: who sends them, and over which transport.
#[derive(Clone, Copy, Debug, PartialEq, Eq)]
pub struct Origin {
    pub caller: Caller,
    pub transport: Transport,
}
