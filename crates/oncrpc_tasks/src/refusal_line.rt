//! The line of what is refused.
ghost use Rattle.std.specs.Prelude.{◌≡◌, ◌++◌, codes, decimal, IfOk, OnOk, slice_get, string_bytes};
ghost use Rattle.oncrpc_tasks.specs.Refusals.{fault_text, named_text, file_text, declaration_line, refusal_line};

use super::unusable::Unusable;
use std::alloc::{AllocError, Global};
use xdr_lang::LangFault;

/// The line of declarations, a name or limits that are refused, with its line feed; no text of a failure, which has a
/// line of its own. The error is an allocation failure.
pub fn refusal_line(
    alloc: Global,
    why: Unusable,
    name: &str,
    files: &[String],
) -> Result<String, AllocError>
    ensures { IfOk result (λ text. string_bytes text ≡ refusal_line name.now files.now why) }
{
    match why {
        Unusable::Declaration { file, fault } => declaration_line(alloc, files, file, fault),
        Unusable::Name => format!(in alloc; "no such name: {name}\n"),
        Unusable::Limits => String::from_str(alloc, "limits refused\n"),
        Unusable::Failed(_) => Ok(String::new(alloc)),
    }
}

// Of several files the one at fault is named.
fn declaration_line(
    alloc: Global,
    files: &[String],
    file: usize,
    fault: LangFault,
) -> Result<String, AllocError>
    ensures { IfOk result (λ text. string_bytes text ≡ declaration_line files.now file fault) }
{
    let mut line = fault_text(alloc, fault.number, fault.inner)?;
    push_file(&mut line, files, file)?;
    let place = place_text(alloc, fault.line, fault.column)?;
    line.push_str(place.as_str())?;
    Ok(line)
}

// A fault of the schema has its own number after the fault's.
fn fault_text(alloc: Global, number: u8, inner: u8) -> Result<String, AllocError>
    ensures { IfOk result (λ text. string_bytes text ≡ fault_text number inner) }
{
    if inner == 0 {
        format!(in alloc; "declaration refused: {number} at ")
    } else {
        schema_text(alloc, number, inner)
    }
}

// Both numbers of a fault of the schema.
fn schema_text(alloc: Global, number: u8, inner: u8) -> Result<String, AllocError>
    ensures { IfOk result (λ text. string_bytes text
        ≡ codes "declaration refused: " ++ decimal number ++ codes " (" ++ decimal inner ++ codes ") at ") }
{
    format!(in alloc; "declaration refused: {number} ({inner}) at ")
}

// Of several files the one with this number.
fn push_file(line: &mut String, files: &[String], file: usize) -> Result<(), AllocError>
    ensures { OnOk result (string_bytes line.new ≡ string_bytes line.old ++ file_text files.now file) }
{
    if files.len() > 1 {
        push_name(line, files, file)
    } else {
        Ok(())
    }
}

// The name of the file with this number and a colon, where there is one.
#[tactic(auto, using(std::proofs::lemmas::Option::slice_get_read, std::proofs::lemmas::Option::slice_get_past))]
fn push_name(line: &mut String, files: &[String], file: usize) -> Result<(), AllocError>
    ensures { OnOk result (string_bytes line.new
        ≡ string_bytes line.old ++ named_text (slice_get files.now file)) }
{
    if file >= files.len() {
        return Ok(());
    }
    line.push_str(files[file].as_str())?;
    line.push_str(":")
}

fn place_text(alloc: Global, line: usize, column: usize) -> Result<String, AllocError>
    ensures { IfOk result (λ text.
        string_bytes text ≡ decimal line ++ codes ":" ++ decimal column ++ codes "\n") }
{
    format!(in alloc; "{line}:{column}\n")
}
