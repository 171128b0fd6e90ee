//! A procedure of any server called: a call is sent, and the result that comes is judged to its last byte and printed
//! (RFC 5531, section 9).
//!
//! - `call`: the call over a connection or by datagrams, and how it ends. `asked`: the call, and the kind of its
//!   result.
//! - `datagrams`: a call that is sent again while no reply comes. `asking`: the call that a name and arguments ask for.
//! - `arguments`: bytes judged as arguments. `unasked`: why nothing is asked.
//! - `page`: what is printed of a reply. `results`: what results are. `refusal`: the lines of other replies. `failing`:
//!   those of devices and of memory.
//! - `null`: the call of procedure 0. `question`: that for a port, over a `transport`. `port`: the port that is told,
//!   over IPv6 by the text of `uaddr6`. `laws`: what follows from the definitions.
#![tactic(auto)]

mod arguments;
mod asked;
mod asking;
mod call;
mod datagrams;
mod failing;
mod laws;
mod null;
mod page;
mod port;
mod question;
mod refusal;
mod results;
mod transport;
mod uaddr6;
mod unasked;

pub use arguments::judge_arguments;
pub use asked::{Asked, Form};
pub use asking::{MOST_ARGUMENTS, Terms, ask};
pub use call::{call_datagram, call_over};
pub use datagrams::{MOST_PASSED, ask_by_datagrams};
pub use laws::results_have_one_ending;
pub use null::ask_null;
pub use port::told_port;
pub use question::port_question;
pub use transport::Transport;
pub use unasked::Unasked;
