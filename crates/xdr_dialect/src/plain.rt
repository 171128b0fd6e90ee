//! A text without its lines of `%` and `#`.
ghost use Rattle.std.specs.Prelude.{◌≡◌, [], reverse};
ghost use Rattle.xdr_dialect.specs.Plain.{ended, plain};
ghost use Rattle.xdr_dialect.specs.Answers.{Answers};
ghost use Rattle.xdr_dialect.specs.Answers.{texts};

use crate::gate::Gate;
use crate::own_names::OwnNames;
use crate::spot::Spot;
use crate::standing::Standing;
use std::alloc::Global;
use xdr_tokens::{Fault, Wrong};

/// At the end of a text no section is open.
#[tactic(auto, using(crate::proofs::Sections::ending))]
fn ended(outer: &[Gate]) -> Result<(), Fault>
    ensures { Answers (λ _. []) result (ended (reverse outer.now)) }
{
    match outer {
        [] => Ok(()),
        [_, ..] => Err(Fault::Refused {
            wrong: Wrong::Unexpected,
            left: 0,
        }),
    }
}

/// The text without its lines of `%` and `#`, byte for byte: what is left out is blank, and every other byte and each
/// line feed stands where it stood. These names are defined for `#ifdef`.
///
/// A line of `#` that has no meaning where it stands is `BadCharacter` at its `#`, a section that is open at the end
/// `Unexpected` there. `NoMemory` comes where a growth was refused.
pub fn plain_text(alloc: Global, text: &[u8], names: &[&str]) -> Result<Vec<u8>, Fault>
    ensures { Answers (λ v. v.items) result (plain (texts names.now) text.now) }
{
    let mut plain = Vec::new(alloc);
    let mut standing = Standing {
        spot: Spot::Fresh,
        gate: Gate::Outside,
        outer: Vec::new(alloc),
        defines: OwnNames::new(alloc),
    };
    let mut rest = text;
    while let [first, others @ ..] = rest {
        let byte = standing.turn(names, *first, others)?;
        plain.push(byte)?;
        rest = others;
    }
    ended(&standing.outer)?;
    Ok(plain)
}
