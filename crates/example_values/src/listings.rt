//! What is printed of declarations that are known.
ghost use Rattle.std.specs.Prelude.{◌≡◌, IfOk, codes};
ghost use Rattle.xdr_lang.specs.Views.{declared_of};
ghost use Rattle.example_values.specs.Declarations.{file_declared, file_json};

use std::alloc::Global;
use xdr_lang::Declared;
use xdr_listing::{list_declared, list_json};
use xdr_types::NoMemory;

/// A constant, and the file of RFC 4506 section 7: its kind, and the least and the greatest count of its bytes.
pub fn file(alloc: Global, declared: &Declared) -> Result<Vec<u8>, NoMemory>
    requires { declared_of declared.now ≡ file_declared }
    ensures { IfOk result (λ v. v.items ≡ codes "const LEAST -7\ntype file struct 16..66100\n") }
{
    let text = list_declared(alloc, declared)?;
    Ok(text)
}

/// The same as JSON: numbers below 2^53 are numbers.
pub fn file_as_json(alloc: Global, declared: &Declared) -> Result<Vec<u8>, NoMemory>
    requires { declared_of declared.now ≡ file_declared }
    ensures { IfOk result (λ v. v.items ≡ file_json) }
{
    let text = list_json(alloc, declared)?;
    Ok(text)
}
