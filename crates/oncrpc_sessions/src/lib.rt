//! The registry for many clients at once, over readiness of sockets: TCP and UDP on one port of one address, and a Unix
//! socket.
//!
//! - `rounds` waits and accepts, within `bounds`, for which there may be a `shortage` of files; `datagrams` answers
//!   those that came; `clients` gives each client its turns, and lets those go that are done.
//! - `listeners` accepts connections, also at the path that `local` makes a socket at; `whence` says who calls.
//! - `client` is one client's socket, a `stream`, beside its session; `ending` what became of it.
//! - `unheard` is why there are no sockets, and the `cause` of it.
#![tactic(auto)]

mod bounds;
mod cause;
mod client;
mod clients;
mod datagrams;
mod ending;
mod listeners;
mod local;
mod rounds;
mod shortage;
mod stream;
mod unheard;
mod whence;

pub use bounds::Bounds;
pub use cause::Cause;
pub use ending::{Ending, Why};
pub use rounds::Sockets;
pub use shortage::Shortage;
pub use unheard::{Place, Unheard};
pub use whence::Whence;
