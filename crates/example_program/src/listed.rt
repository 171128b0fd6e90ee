//! What texts declare, printed: by no file, by one, and where texts are refused. The names of arguments and results.
ghost use Rattle.std.specs.Prelude.{◌≡◌, ◌⊎◌, ◌∷◌, [], ℕ, List, IfSome, codes, decimal, false, string_bytes};
ghost use Rattle.std.specs.Io.KnownBytes.{Appends};
ghost use Rattle.oncrpc_answers.specs.declared.task.Dialect.TheVariants.{Rfc};
ghost use Rattle.xdr_lang.specs.Declarations.{Declared};
ghost use Rattle.xdr_lang.specs.Means.{Means};
ghost use Rattle.xdr_listing.specs.Listing.{part_path};
ghost use Rattle.oncrpc_names.specs.Names.{name_text};
ghost use Rattle.oncrpc_names.specs.declared.reading.Part.TheVariants.{Argument, Result};

use oncrpc_answers::TypesTask;
use oncrpc_tasks::Opener;
use oncrpc_types::types_over;
use std::alloc::Global;
use xdr_io::Sink;

/// Where no file is named nothing is declared, and there is no line.
pub fn no_file_has_no_line<P: Opener, O: Sink, F: Sink>(
    alloc: Global,
    what: &TypesTask,
    opener: &mut P,
    output: &mut O,
    faults: &mut F,
) -> u8
    requires files { what.now.types.files.items ≡ [] }
    requires lines { what.now.json ≡ false }
    ensures { result ≡ 0 → Appends (O.taken output.old) (O.taken output.new) [] }
{
    types_over(alloc, what, opener, output, faults)
}

/// Where a file is listed, its text means something in the RFCs' language.
pub fn a_listed_file_declares<P: Opener, O: Sink, F: Sink>(
    alloc: Global,
    what: &TypesTask,
    file: &String,
    opener: &mut P,
    output: &mut O,
    faults: &mut F,
) -> u8
    requires files { what.now.types.files.items ≡ file.now ∷ [] }
    requires dialect { what.now.types.dialect ≡ Rfc }
    ensures { result ≡ 0
        → IfSome (P.reported opener.old (string_bytes file.now)) (λ text. (d : Declared) × Means text d) }
{
    types_over(alloc, what, opener, output, faults)
}

/// Where texts are refused, and at an allocation failure, nothing is printed. Status 1 never comes.
pub fn nothing_is_printed_of_a_refusal<P: Opener, O: Sink, F: Sink>(
    alloc: Global,
    what: &TypesTask,
    opener: &mut P,
    output: &mut O,
    faults: &mut F,
) -> u8
    ensures refused { (result ≡ 2) ⊎ (result ≡ 4) → output.new ≡ output.old }
    ensures never { result ≡ 1 → ⊥ }
{
    types_over(alloc, what, opener, output, faults)
}

/// The word of an argument's line, and that of a result's, is the name by which `--name` names it.
pub fn listed_names_name_parts()
    ensures arguments { (p v n k : ℕ) → part_path p v n (decimal k)
        ≡ name_text (record { program = p; version = v; procedure = n; part = Argument k }) }
    ensures results { (p v n : ℕ) → part_path p v n (codes "result")
        ≡ name_text (record { program = p; version = v; procedure = n; part = Result }) }
{}
