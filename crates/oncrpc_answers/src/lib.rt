//! What a task asks for, and how it ends.
//!
//! - `task`: what the words ask for. `answer`: what an input holds, its line and its exit status.
//! - `failure`: what stops a task, its line and its exit status.
#![tactic(auto)]

mod answer;
mod failure;
mod task;

pub use answer::{Answer, line_of, status_of};
pub use failure::{Failure, report};
pub use task::{Dialect, JsonTask, RecordsTask, Task, Texts, TypesTask, ValueTask};
