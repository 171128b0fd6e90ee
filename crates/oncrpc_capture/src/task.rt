//! What the words of `capture` ask for.
use oncrpc_answers::Texts;
use oncrpc_watch::Style;

/// A capture to be read.
#[derive(PartialEq, Eq, Drop)]
pub struct CaptureTask {
    /// The file, or `-` for the input.
    pub file: String,
    /// The texts that declare programs.
    pub types: Texts,
    /// The ports whose traffic is RPC. Without any it is what looks like it.
    pub ports: Vec<u16>,
    /// How messages are printed.
    pub style: Style,
    /// Whether counts are printed in place of messages.
    pub stats: bool,
}
