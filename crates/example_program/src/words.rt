//! The program's words: what they ask for, and how it ends where they ask for no task.
ghost use Rattle.std.specs.Prelude.{◌≡◌, ◌≢◌, ◌⊎◌, ℕ, IfOk, take, string_bytes};
ghost use Rattle.std.specs.Io.KnownBytes.{Appends};
ghost use Rattle.oncrpc_words.specs.Words.{IsFirst};

use oncrpc_words::{Request, WordsFault, no_memory, print_words_fault, read_words};
use std::alloc::Global;
use xdr_io::Sink;

/// Called without any word the program checks an opaque in hexadecimal, within the greatest limits.
pub fn the_first_run(alloc: Global) -> Result<Request, WordsFault>
    ensures { IfOk result IsFirst }
{
    read_words(alloc, Vec::new(alloc))
}

/// Words that ask for no task end with 0 for help, 2 where they are refused, or 4 for an allocation failure.
pub fn statuses_of_words(alloc: Global, words: Vec<String>) -> u8
    ensures { (result ≡ 0) ⊎ (result ≡ 2) ⊎ (result ≡ 4) }
{
    match read_words(alloc, words) {
        Ok(_) => 0,
        Err(fault) => fault.status,
    }
}

/// An allocation failure ends with 4, and prints nothing to the output.
pub fn want_of_memory_ends_with_4<O: Sink, F: Sink>(
    alloc: Global,
    output: &mut O,
    faults: &mut F,
) -> u8
    ensures status { result ≡ 4 }
    ensures unprinted { output.new ≡ output.old }
{
    print_words_fault(&no_memory(alloc), output, faults)
}

/// Refused words end with 2, whatever becomes of their text, and print nothing to the output.
pub fn refused_words_end_with_2<O: Sink, F: Sink>(
    fault: &WordsFault,
    output: &mut O,
    faults: &mut F,
) -> u8
    requires { fault.now.status ≡ 2 }
    ensures status { result ≡ 2 }
    ensures unprinted { output.new ≡ output.old }
{
    print_words_fault(fault, output, faults)
}

/// Help that ends with 0 was printed whole.
pub fn help_is_printed<O: Sink, F: Sink>(fault: &WordsFault, output: &mut O, faults: &mut F) -> u8
    requires { fault.now.status ≡ 0 }
    ensures { result ≢ 3 → Appends (O.taken output.old) (O.taken output.new) (string_bytes fault.now.text) }
{
    print_words_fault(fault, output, faults)
}

/// Help that ends with 3 was printed up to the write that failed.
pub fn help_is_printed_in_part<O: Sink, F: Sink>(
    fault: &WordsFault,
    output: &mut O,
    faults: &mut F,
) -> u8
    ensures { result ≡ 3 → (count : ℕ)
        × Appends (O.taken output.old) (O.taken output.new) (take count (string_bytes fault.now.text)) }
{
    print_words_fault(fault, output, faults)
}
