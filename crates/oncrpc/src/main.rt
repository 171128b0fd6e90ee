//! `oncrpc` checks, shows and makes XDR values, marks ONC RPC records, calls programs, and asks and serves the registry
//! of rpcbind.
//!
//! - `run` does what the words ask, with `files` for texts of declarations.
//! - `calling` calls what `asking` finds in the words, the declarations and the `arguments`; `unmade` says why there is
//!   no call. `pinging` calls procedure 0 of a program.
//! - `reaching` makes the call, at the port that a registry tells (`ports`), and `timed` waits no longer than that;
//!   `unreached` says why there is no answer.
//! - `watching` reads what peers said, by what the `installed` texts declare.
//! - `network` asks a registry, over UDP by a `repeating` port, and serves one to so many clients; `keeping` serves one
//!   as long as the program runs.
#![tactic(auto)]

mod arguments;
mod asking;
mod calling;
mod files;
mod installed;
mod keeping;
mod network;
mod pinging;
mod ports;
mod reaching;
mod repeating;
mod run;
mod timed;
mod unmade;
mod unreached;
mod watching;

use std::process::ExitCode;

fn main(rt: HostRuntime) -> ExitCode {
    ExitCode::from(run::run(&rt))
}
