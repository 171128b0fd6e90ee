//! What a text of declarations means in the language that it is in.
ghost use Rattle.std.specs.Prelude.{◌≡◌, map, IfOk, IfErr, string_bytes};
ghost use Rattle.xdr_dialect.specs.Answers.{texts};
ghost use Rattle.xdr_lang.specs.Declarations.{Declared as DeclaredSpec};
ghost use Rattle.xdr_lang.specs.Views.{declared_of};
ghost use Rattle.oncrpc_tasks.specs.Private.Meant.{MeansNone};
ghost use Rattle.oncrpc_tasks.specs.Sources.{MeansIn};

use super::unusable::Unusable;
use oncrpc_answers::Dialect;
use std::alloc::{AllocError, Global};
use xdr_lang::{Declared, read};
use xdr_rpcgen::read_dialect;

/// What the text means. A fault stands at its place in the text, as if it were in the first file.
pub fn read_in(alloc: Global, dialect: &Dialect, text: &[u8]) -> Result<Declared, Unusable>
    // What is read is what the text means,
    ensures found { IfOk result (λ d. MeansIn dialect.now text.now (declared_of d)) }
    // and nothing else;
    ensures only { (d : DeclaredSpec) → MeansIn dialect.now text.now d → IfOk result (λ v. declared_of v ≡ d) }
    // a text that is refused means nothing, unless memory runs out.
    ensures refused { IfErr result (λ why. MeansNone dialect.now text.now why) }
{
    match dialect {
        Dialect::Rfc => {
            let declared = read(alloc, text)?;
            Ok(declared)
        }
        Dialect::Rpcgen(names) => {
            let parts = lent(alloc, names)?;
            let declared = read_dialect(alloc, text, &parts)?;
            Ok(declared)
        }
    }
}

// The names, lent.
fn lent<'a>(alloc: Global, names: &'a [String]) -> Result<Vec<&'a str>, AllocError>
    ensures { IfOk result (λ parts. texts parts.items ≡ map string_bytes names.now) }
{
    let mut parts = Vec::new(alloc);
    let mut left = names;
    while let [name, others @ ..] = left {
        parts.push(name.as_str())?;
        left = others;
    }
    Ok(parts)
}
