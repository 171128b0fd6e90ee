//! The declarations in which a task's name is looked up.
ghost use Rattle.std.specs.Prelude.{◌≡◌, ℕ, List, IfOk, IfErr, IsErrOf};
ghost use Rattle.xdr_lang.specs.Declarations.{Declared as DeclaredSpec};
ghost use Rattle.xdr_lang.specs.Views.{declared_of};
ghost use Rattle.oncrpc_tasks.specs.Private.Gathered.{texts_bytes};
ghost use Rattle.oncrpc_tasks.specs.Private.Meant.{DeclareNone, IsSame};
ghost use Rattle.oncrpc_tasks.specs.Sources.{bare, Declares, FileFails, HasNone, IsDeclared};

use super::meant::read_in;
use super::open::Opener;
use super::texts::{lent, texts_of};
use super::unusable::Unusable;
use oncrpc_answers::{Dialect, Failure, Texts};
use std::alloc::Global;
use xdr_lang::{Declared, LangFault};
use xdr_rpcgen::{join_texts, place_in};
use xdr_types::{NoMemory, Schema};

/// What the files' texts declare as one, or the basic schema alone where no file is named. Each is read until more than
/// 262144 bytes of it are there.
pub fn declared<P: Opener>(
    alloc: Global,
    types: &Texts,
    opener: &mut P,
) -> Result<Declared, Unusable>
    // What is answered is what the texts that are reported declare,
    ensures declares { IfOk result (λ d. Declares (P.reported opener.old) types.now (declared_of d)) }
    // a refusal says that they have no meaning,
    ensures refused { IfErr result (λ why. HasNone (P.reported opener.old) types.now why) }
    // and the failure Read that one could not be read.
    ensures failed { IsErrOf result (Unusable.Failed Failure.Read)
        → FileFails P.Text.left P.Text.failures (P.reported opener.old) types.now.files.items
        (P.failures opener.old) (P.failures opener.new) }
{
    let texts = texts_of(alloc, &types.files, opener)?;
    declared_by(alloc, &types.dialect, &texts)
}

// What texts declare.
fn declared_by(alloc: Global, dialect: &Dialect, texts: &[Vec<u8>]) -> Result<Declared, Unusable>
    ensures found { IfOk result (λ d. IsDeclared dialect.now (texts_bytes texts.now) (declared_of d)) }
    ensures only { (d : DeclaredSpec) → IsDeclared dialect.now (texts_bytes texts.now) d
        → IfOk result (λ v. declared_of v ≡ d) }
    ensures refused { IfErr result (λ why. DeclareNone dialect.now (texts_bytes texts.now) why) }
{
    if texts.is_empty() {
        return Ok(bare(alloc)?);
    }
    let parts = lent(alloc, texts)?;
    let whole = join_texts(alloc, &parts)?;
    match read_in(alloc, dialect, &whole) {
        Ok(declared) => Ok(declared),
        Err(why) => Err(placed(&parts, why)),
    }
}

// A fault of texts as one at its place in the text where it stands.
fn placed(texts: &[&[u8]], why: Unusable) -> Unusable
    ensures { IsSame why result }
{
    match why {
        Unusable::Declaration { fault, .. } => {
            let (file, line) = place_in(texts, fault.line);
            Unusable::Declaration {
                file,
                fault: LangFault { line, ..fault },
            }
        }
        Unusable::Name | Unusable::Limits | Unusable::Failed(_) => why,
    }
}

fn bare(alloc: Global) -> Result<Declared, NoMemory>
    ensures { IfOk result (λ d. declared_of d ≡ bare) }
{
    Ok(Declared {
        schema: Schema::basic(alloc)?,
        constants: Vec::new(alloc),
        programs: Vec::new(alloc),
    })
}
