//! Prints what texts of declarations declare.
ghost use Rattle.std.specs.Prelude.{◌≡◌, IfOk, IfErr, IsErrOf};
ghost use Rattle.xdr_lang.specs.Views.{declared_of};
ghost use Rattle.xdr_listing.specs.Listing.{IsListing};
ghost use Rattle.oncrpc_tasks.specs.Sources.{FileFails, HasNone};
ghost use Rattle.oncrpc_types.specs.TypesEnd.{TypesEnd, ListsTexts, listing_in};

use oncrpc_answers::{Failure, TypesTask, report};
use oncrpc_tasks::{Opener, Unusable, declared, refuse_texts};
use std::alloc::Global;
use xdr_io::{Sink, write_whole};
use xdr_lang::Declared;
use xdr_listing::{list_declared, list_json};
use xdr_types::NoMemory;

/// Prints what the texts declare, and gives the exit status. The output is the lines of
/// `xdr_listing::list_declared`, or with `json` the text of `list_json`; of no texts it says that nothing is declared.
/// All is made before the first write. 0 is all of it, and 2 texts that are refused. 3 is a text that could not be
/// opened or read, or a write that failed. 4 is that memory was refused. All but 0 write a line to `faults`, where
/// that can be done.
#[tactic(auto, using(crate::proofs::Telling::told_of))]
pub fn types_over<P: Opener, O: Sink, F: Sink>(
    alloc: Global,
    what: &TypesTask,
    opener: &mut P,
    output: &mut O,
    faults: &mut F,
) -> u8
    ensures { TypesEnd (P.reported opener.old) what.now
        (FileFails P.Text.left P.Text.failures (P.reported opener.old) what.now.types.files.items
        (P.failures opener.old) (P.failures opener.new))
        O.taken O.failures (record { taken = F.taken; lost = F.failures })
        output.old output.new faults.old faults.new result }
{
    let text = match listing_of(alloc, what, opener) {
        Ok(text) => text,
        Err(why) => return refuse_texts(alloc, why, &what.types.files, faults),
    };
    match write_whole(output, &text) {
        Ok(()) => 0,
        Err(cut) => report(Failure::from(cut), faults),
    }
}

// What is printed of the texts.
fn listing_of<P: Opener>(
    alloc: Global,
    what: &TypesTask,
    opener: &mut P,
) -> Result<Vec<u8>, Unusable>
    // It is their listing,
    ensures lists { IfOk result (λ text. ListsTexts (P.reported opener.old) what.now text.items) }
    // a refusal says that they have no meaning,
    ensures refused { IfErr result (λ why. HasNone (P.reported opener.old) what.now.types why) }
    // and the failure Read that one could not be read.
    ensures failed { IsErrOf result (Unusable.Failed Failure.Read)
        → FileFails P.Text.left P.Text.failures (P.reported opener.old) what.now.types.files.items
        (P.failures opener.old) (P.failures opener.new) }
{
    let declared = declared(alloc, &what.types, opener)?;
    let text = text_in(alloc, &declared, what.json)?;
    Ok(text)
}

// The listing in one of its two forms.
fn text_in(alloc: Global, declared: &Declared, json: bool) -> Result<Vec<u8>, NoMemory>
    ensures { IfOk result (λ v. IsListing (listing_in json) (declared_of declared.now) v.items) }
{
    if json {
        list_json(alloc, declared)
    } else {
        list_declared(alloc, declared)
    }
}
