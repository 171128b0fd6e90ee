//! How the libraries are called, a function for each: `docs/LIBRARY.md` is over these. The program prints what each
//! came to.
#![tactic(auto)]

mod messages;
mod values;

use messages::{ask_for_a_port, reply_to_a_call, unmark};
use std::alloc::Global;
use std::process::ExitCode;
use std::string::String;
use values::{counted_in_pieces, declared_value, fed_in_pieces, lent_in_place, structure_by_hand};

/// What an example came to: a line, or none where memory was refused or a call answered otherwise.
pub type Reported = Option<String>;

// The lines of all examples.
fn lines(alloc: Global) -> Option<[String; 8]> {
    Some([
        structure_by_hand(alloc)?,
        declared_value(alloc)?,
        fed_in_pieces(alloc)?,
        counted_in_pieces(alloc)?,
        lent_in_place(alloc)?,
        unmark(alloc)?,
        reply_to_a_call(alloc)?,
        ask_for_a_port(alloc)?,
    ])
}

fn main(rt: HostRuntime) -> ExitCode {
    let Some(lines) = lines(rt.alloc()) else {
        return ExitCode::from(4);
    };
    for line in &lines {
        if println!(rt; "{line}").is_err() {
            return ExitCode::from(3);
        }
    }
    ExitCode::from(0)
}
