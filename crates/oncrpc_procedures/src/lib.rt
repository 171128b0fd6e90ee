//! The procedure that a text names in what is declared: `PROGRAM.VERSION.PROCEDURE`, each part a number or a name (RFC
//! 5531, section 12.3).
//!
//! - `named`: the procedure that a text names. `unnamed`: why it names none.
//! - `parts`: the parts of a name, and what one means. `search`: where there is a procedure that they mean.
//! - `program`: the program that a text names, `PROGRAM` or `PROGRAM.VERSION`, by its `program_parts` and what is
//!   `called` by them. `unnamed_program`: why it names none.
//! - `installed`: the installed text that declares a program.
//! - `laws`: what follows from the definitions.
#![tactic(auto)]

mod called;
mod installed;
mod laws;
mod named;
mod parts;
mod program;
mod program_parts;
mod search;
mod unnamed;
mod unnamed_program;

pub use installed::{INSTALLED, installed_text};
pub use laws::names_have_one_reading;
pub use named::{Named, procedure_named};
pub use program::{NamedProgram, program_named};
pub use unnamed::Unnamed;
pub use unnamed_program::UnnamedProgram;
