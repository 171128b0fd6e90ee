//! Calls of the libraries again and again, for measurements: `tool_bench codec VALUE WORK COUNT`, `tool_bench
//! directory WORK ROWS COUNT`, `tool_bench served WORK ROWS COUNT` and `tool_bench json WORK NAME TIMES`, which alone
//! reads and prints. Without words it does nothing.
//!
//! - `codec`: values and their bytes. `json`: values as JSON. `directory`: a registry. `served`: calls that it answers.
#![tactic(auto)]

mod codec;
mod directory;
mod json;
mod served;

use std::env;
use std::process::ExitCode;

fn work(rt: &HostRuntime, words: &[String]) -> bool {
    match words {
        [] => true,
        [what, rest @ ..] => match what.as_str() {
            "codec" => codec::work(rt.alloc(), rest),
            "directory" => directory::work(rt.alloc(), rest),
            "served" => served::work(rt.alloc(), rest),
            "json" => json::work(rt, rest),
            _ => false,
        },
    }
}

fn main(rt: HostRuntime) -> ExitCode {
    let words = match env::args(&rt) {
        Ok(args) => args.skip(1).collect::<Vec<String>>(rt.alloc()),
        Err(_) => return ExitCode::from(2),
    };
    match words {
        Ok(words) if work(&rt, words.as_slice()) => ExitCode::from(0),
        _ => ExitCode::from(1),
    }
}
