//! Words that ask for no task: refused ones, and those that ask for help.
ghost use Rattle.std.specs.Prelude.{◌≡◌, ◌≢◌, ◌⊎◌, [], string_bytes};
ghost use Rattle.oncrpc_words.specs.Printed.{EndsWords, PrintsWords};

use clap::Error;
use clap::error::ErrorKind;
use oncrpc_answers::{Failure, report};
use std::alloc::Global;
use xdr_io::{Sink, write_whole};

/// Why there is no task: clap's text with status 2, or 0 for help; an empty text with status 4 where memory was
/// refused.
#[derive(PartialEq, Eq, Drop)]
pub struct WordsFault {
    pub text: String,
    pub status: u8,
}

/// Memory was refused.
pub fn no_memory(alloc: Global) -> WordsFault
    ensures status { result.status ≡ 4 }
    ensures text { string_bytes result.text ≡ [] }
{
    WordsFault {
        text: String::new(alloc),
        status: 4,
    }
}

/// What a word that has its form may not be.
#[derive(Clone, Copy)]
pub enum Misfit {
    /// An address to listen at that is none.
    Address,
    /// A name to be defined that no line `#ifdef` can ask for.
    Name,
    /// Groups that are no numbers or more than 16, or the name of a machine that is too long.
    Groups,
}

/// What is said of such a word.
fn line_of(misfit: Misfit) -> &'static str {
    match misfit {
        Misfit::Address => {
            "error: --bind wants an address of IPv4\n\nFor more information, try '--help'.\n"
        }
        Misfit::Groups => {
            "error: --gids wants at most 16 numbers, and --machine at most 255 bytes\n
For more information, try '--help'.\n"
        }
        Misfit::Name => {
            "error: --define wants a name: letters, digits and _, no digit first, and no value\n
For more information, try '--help'.\n"
        }
    }
}

/// A word may not be what it is.
pub fn misfit_fault(alloc: Global, misfit: Misfit) -> WordsFault
    // The status is 2, or 4 without a text.
    ensures status { (result.status ≡ 2) ⊎ (result.status ≡ 4) }
    ensures memory { result.status ≡ 4 → string_bytes result.text ≡ [] }
{
    match String::from_str(alloc, line_of(misfit)) {
        Ok(text) => WordsFault { text, status: 2 },
        Err(_) => no_memory(alloc),
    }
}

/// What clap's error says, and the status that it ends with.
pub fn fault_of(alloc: Global, error: &Error) -> WordsFault
    // The status is 0, of help, 2 or 4,
    ensures status { (result.status ≡ 0) ⊎ (result.status ≡ 2) ⊎ (result.status ≡ 4) }
    // and at 4 there is no text.
    ensures memory { result.status ≡ 4 → string_bytes result.text ≡ [] }
{
    if matches!(error.kind(), ErrorKind::OutOfMemory) {
        return no_memory(alloc);
    }
    let status = if error.use_stderr() { 2 } else { 0 };
    match format!(in alloc; "{error}") {
        Ok(text) => WordsFault { text, status },
        Err(_) => no_memory(alloc),
    }
}

/// Prints why there is no task, and gives the exit status. Help goes to the output, and where that cannot be written
/// the status is 3, after the first bytes of the text. What is wrong with the words, and an allocation failure, go to
/// `faults`, where that can be done.
pub fn print_words_fault<O: Sink, F: Sink>(fault: &WordsFault, output: &mut O, faults: &mut F) -> u8
    ensures ends { EndsWords fault.now.status result }
    ensures prints { PrintsWords (string_bytes fault.now.text) (O.taken output.old) (O.taken output.new)
        (O.failures output.old) (O.failures output.new) result }
    // Nothing goes to the output where the text is no help.
    ensures unprinted { fault.now.status ≢ 0 → output.new ≡ output.old }
{
    match fault.status {
        0 => match write_whole(output, fault.text.as_bytes()) {
            Ok(()) => 0,
            Err(_) => report(Failure::Write, faults),
        },
        2 => {
            let _ = write_whole(faults, fault.text.as_bytes());
            2
        }
        _ => report(Failure::NoMemory, faults),
    }
}
