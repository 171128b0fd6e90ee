//! A decoder of XDR that reads unit by unit and keeps no input.
//!
//! - `machine`: how reading goes on, whatever is made of the nodes. In it are `nodes`, `entering`, `coming`,
//!   `frame`, `step`, `unit` and `number`.
//! - `builder`: what is made of the nodes. In it are `values`, `level`, `whole`, `made`, `flat`, `taken`, `tally` and
//!   `nothing`.
//! - `runs`: what comes next as bytes that are taken at once. In it are `numbers`, `content`, `leaf`,
//!   `entire`, `ahead` and `sort`.
//! - `reader`: where reading stands. In it are `start`, `due`, `pieces`, `parts`, `steps`, `onward`, `entire`,
//!   `fields`, `nodes`, `many` and `settling`.
//! - `decoder`: bytes in pieces as a value. `checker`: bytes in pieces, judged without a value.
//! - `holding`: what a reader holds. `fault`: why bytes are refused.
#![tactic(auto)]

mod builder;
pub mod checker;
pub mod decoder;
mod fault;
pub mod holding;
pub mod machine;
mod reader;
mod runs;

pub use builder::nothing::Nothing;
pub use builder::values::Values;
pub use fault::{DecodeFault, Reason};
pub use holding::Held;
pub use reader::{Progress, Reader, State};
