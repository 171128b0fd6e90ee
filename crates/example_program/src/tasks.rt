//! Tasks as the words ask for them, with the texts of declarations that they name.
ghost use Rattle.std.specs.Prelude.{◌≡◌, ◌≢◌, ◌<◌, ◌≤◌, ◌++◌, ◌∷◌, [], ℕ, List, None, Some, IfSome, map, true};
ghost use Rattle.std.specs.Prelude.{length, string_bytes};
ghost use Rattle.xdr_io.specs.Reported.{CountsAtMost};
ghost use Rattle.xdr_types.specs.Named.{place_named};
ghost use Rattle.xdr_types.specs.Within.{AreBounds};
ghost use Rattle.oncrpc_names.specs.Names.{IsPartName, name_text};
ghost use Rattle.oncrpc_names.specs.declared.reading.Part.TheVariants.{Argument};
ghost use Rattle.oncrpc_names.specs.declared.reading.PartName.{PartName};
ghost use Rattle.oncrpc_answers.specs.declared.task.Dialect.TheVariants.{Rfc, Rpcgen};
ghost use Rattle.oncrpc_kinds.specs.Naming.{Names};
ghost use Rattle.oncrpc_tasks.specs.Sources.{bare};
ghost use Rattle.xdr_lang.specs.Declarations.{Declared, Procedure, procedure_of_program};
ghost use Rattle.xdr_lang.specs.Means.{Means};
ghost use Rattle.xdr_rpcgen.specs.DialectMeans.{DialectMeans};

use oncrpc_answers::{Task, ValueTask};
use oncrpc_tasks::{MemoryOpener, Opener, task_over};
use std::alloc::Global;
use xdr_io::{Sink, Source};

/// A task that is done has limits in their ranges: others are refused, and the greatest do not stand for them.
pub fn limits_are_looked_at<P: Opener, I: Source, O: Sink, F: Sink>(
    alloc: Global,
    what: ValueTask,
    opener: &mut P,
    input: &mut I,
    output: &mut O,
    faults: &mut F,
) -> u8
    ensures { result ≤ 1 → AreBounds what.depth what.bytes }
{
    task_over(alloc, &Task::Check(what), opener, input, output, faults)
}

/// Where no file is named, a task that is done has a name of a basic kind.
pub fn the_name_is_looked_up<P: Opener, I: Source, O: Sink, F: Sink>(
    alloc: Global,
    what: ValueTask,
    opener: &mut P,
    input: &mut I,
    output: &mut O,
    faults: &mut F,
) -> u8
    requires { what.types.files.items ≡ [] }
    ensures { result ≤ 1 → (place : ℕ) × Names (string_bytes what.name) bare place }
{
    task_over(alloc, &Task::Check(what), opener, input, output, faults)
}

/// Where a file is named, a task that is done has a text that means something in the RFCs' language; the basic kinds
/// alone do not serve.
pub fn a_named_file_declares<P: Opener, I: Source, O: Sink, F: Sink>(
    alloc: Global,
    what: ValueTask,
    file: &String,
    opener: &mut P,
    input: &mut I,
    output: &mut O,
    faults: &mut F,
) -> u8
    requires files { what.types.files.items ≡ file.now ∷ [] }
    requires dialect { what.types.dialect ≡ Rfc }
    ensures { result ≤ 1
        → IfSome (P.reported opener.old (string_bytes file.now)) (λ text. (d : Declared) × Means text d) }
{
    task_over(alloc, &Task::Show(what), opener, input, output, faults)
}

/// Two files are one text in their order, with a line feed between them: that means something where a task is done.
pub fn two_files_are_one_text<P: Opener, I: Source, O: Sink, F: Sink>(
    alloc: Global,
    what: ValueTask,
    file: &String,
    other: &String,
    opener: &mut P,
    input: &mut I,
    output: &mut O,
    faults: &mut F,
) -> u8
    requires files { what.types.files.items ≡ file.now ∷ other.now ∷ [] }
    requires dialect { what.types.dialect ≡ Rfc }
    ensures { result ≤ 1 → (first second : List ℕ)
        → P.reported opener.old (string_bytes file.now) ≡ Some first
        → P.reported opener.old (string_bytes other.now) ≡ Some second
        → (d : Declared) × Means (first ++ 10 ∷ second) d }
{
    task_over(alloc, &Task::Show(what), opener, input, output, faults)
}

/// Where rpcgen's dialect is asked for, a task that is done has a text that means something in it, with the names that
/// are defined; the RFCs' language does not serve.
pub fn the_dialect_is_read<P: Opener, I: Source, O: Sink, F: Sink>(
    alloc: Global,
    what: ValueTask,
    file: &String,
    defined: &Vec<String>,
    opener: &mut P,
    input: &mut I,
    output: &mut O,
    faults: &mut F,
) -> u8
    requires files { what.types.files.items ≡ file.now ∷ [] }
    requires dialect { what.types.dialect ≡ Rpcgen defined.now }
    ensures { result ≤ 1 → IfSome (P.reported opener.old (string_bytes file.now))
        (λ text. (d : Declared) × DialectMeans (map string_bytes defined.now.items) text d) }
{
    task_over(alloc, &Task::Check(what), opener, input, output, faults)
}

/// Arguments are counted from 1: the only argument of a procedure has the number 1, and a task that names it is done.
pub fn arguments_count_from_1<P: Opener, I: Source, O: Sink, F: Sink>(
    alloc: Global,
    what: ValueTask,
    file: &String,
    opener: &mut P,
    input: &mut I,
    output: &mut O,
    faults: &mut F,
) -> u8
    requires types { (what.types.files.items ≡ file.now ∷ []) × (what.types.dialect ≡ Rfc) }
    requires limits { AreBounds what.depth what.bytes }
    requires only { (text : List ℕ) × (d : Declared) × (name : PartName) × (p : Procedure) × (place : ℕ)
        × (P.reported opener.old (string_bytes file.now) ≡ Some text) × Means text d
        × IsPartName name × (name.part ≡ Argument 1) × (string_bytes what.name ≡ name_text name)
        × (place_named d.schema.names (string_bytes what.name) ≡ None)
        × (procedure_of_program name.program name.version name.procedure d.programs ≡ Some p)
        × (p.arguments ≡ place ∷ []) × (place < length d.schema.kinds) }
    ensures { result ≢ 2 }
{
    task_over(alloc, &Task::Check(what), opener, input, output, faults)
}

/// Where the declarations, the name or the limits are refused, the input is not read and nothing is printed.
pub fn refused_before_it_is_read<P: Opener, I: Source, O: Sink, F: Sink>(
    alloc: Global,
    task: &Task,
    opener: &mut P,
    input: &mut I,
    output: &mut O,
    faults: &mut F,
) -> u8
    ensures unread { result ≡ 2 → input.new ≡ input.old }
    ensures unprinted { result ≡ 2 → output.new ≡ output.old }
{
    task_over(alloc, task, opener, input, output, faults)
}

/// A task ends with one of five statuses, after at most 1048576 reads.
pub fn statuses_of_tasks<P: Opener, I: Source, O: Sink, F: Sink>(
    alloc: Global,
    task: &Task,
    opener: &mut P,
    input: &mut I,
    output: &mut O,
    faults: &mut F,
) -> u8
    ensures status { result ≤ 4 }
    ensures reads { CountsAtMost 1048576 (I.reads input.old) (I.reads input.new) }
{
    task_over(alloc, task, opener, input, output, faults)
}

/// A text in memory is opened before its first read, and that read fails where it is the one that is to fail.
#[tactic(auto, using(crate::proofs::Opened::own_name))]
pub fn the_first_read_fails(name: &str, text: &[u8], piece: usize) -> bool
    requires { 0 < piece }
    ensures { result ≡ true }
{
    let mut opener = MemoryOpener::new(name, text, piece, Some(1));
    match opener.open(name) {
        Ok(mut source) => source.read(&mut [0u8; 4096]).is_err(),
        Err(_) => false,
    }
}
