//! Names of parts of procedures, read from texts.
ghost use Rattle.std.specs.Prelude.{◌≡◌, Some, IfSome};
ghost use Rattle.oncrpc_names.specs.declared.reading.Part.{Part as PlainPart};
ghost use Rattle.oncrpc_names.specs.declared.reading.PartName.{PartName as PlainName};
ghost use Rattle.oncrpc_names.specs.Names.{IsPart, IsPartName, part_text, name_text};

use crate::numbers::first_number;
use xdr_units::decimal_number;

/// A part of a procedure that has a kind.
#[derive(Clone, Copy, PartialEq, Eq)]
pub enum Part {
    /// The argument with this number, from 1.
    Argument(u32),
    /// The result.
    Result,
}

/// The name of an argument or of the result of a procedure.
#[derive(Clone, Copy, PartialEq, Eq)]
pub struct PartName {
    /// The program's number.
    pub program: u32,
    /// The version's number.
    pub version: u32,
    /// The procedure's number.
    pub procedure: u32,
    /// Which part of it.
    pub part: Part,
}

/// The name that this text is: `P.V.N.K` or `P.V.N.result`, of decimal numbers below 2^32 without leading zeros.
/// `None` for every other text. It takes no memory.
pub fn read_part_name(text: &[u8]) -> Option<PartName>
    // What is answered is a name of a part, and the text is that name;
    ensures found { IfSome result (λ name. IsPartName name × (text.now ≡ name_text name)) }
    // a text that is such a name is answered with it.
    ensures only { (name : PlainName) → IsPartName name → text.now ≡ name_text name → result ≡ Some name }
{
    let (program, rest) = first_number(text)?;
    let (version, rest) = first_number(rest)?;
    let (procedure, rest) = first_number(rest)?;
    let part = part_of(rest)?;
    Some(PartName {
        program,
        version,
        procedure,
        part,
    })
}

fn part_of(text: &[u8]) -> Option<Part>
    // The text is the part that is answered,
    ensures found { IfSome result (λ part. IsPart part × (text.now ≡ part_text part)) }
    // and a text that is a part is answered with it.
    ensures only { (part : PlainPart) → IsPart part → text.now ≡ part_text part → result ≡ Some part }
{
    match decimal_number(text) {
        Some(place) => Some(Part::Argument(place)),
        None if text == b"result".as_slice() => Some(Part::Result),
        None => None,
    }
}
