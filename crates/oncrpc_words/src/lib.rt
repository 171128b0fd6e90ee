//! The program's words: what they ask for, what its help says, and what is printed where they ask for no task.
//!
//! - `words`, `calls`, `watching`: the words are read; `command`, `tables`: by which commands and options; `request`:
//!   into what they ask for.
//! - `help`: what help says of the program, before the options; `after`, `after_calls`, `after_network` and
//!   `after_watching` what it says behind them. `fault`: words that ask for no task.
#![tactic(auto)]

mod after;
mod after_calls;
mod after_network;
mod after_watching;
mod calls;
mod command;
mod fault;
mod help;
mod request;
mod tables;
mod watching;
mod words;

pub use fault::{WordsFault, no_memory, print_words_fault};
pub use request::{
    CallTask, Caller, CaptureTask, InfoTask, KeepTask, MessagesTask, Peer, PingTask, Printing,
    Request, ServeTask,
};
pub use words::read_words;
