//! The parts of a value for C, one by one, by a cursor that C keeps. What each such call does, and how C sees its
//! answer.
//!
//! - `handle`, `state`: the cursor that C keeps. `beginning`: a cursor before the first part. `giving`: the next part.
//!   `putting`: a part put where C lends a place. `passing`: parts that are passed over.
//! - `given`: the answers, and how C sees them. `examples`: what the contracts make certain for chosen inputs.
#![tactic(auto)]

mod beginning;
mod examples;
mod given;
mod giving;
mod handle;
mod passing;
mod putting;
mod state;

pub use beginning::{free_cursor, start_cursor};
pub use giving::next_by_cursor;
pub use handle::PartsCursor;
pub use passing::skip_by_cursor;
