//! What is left of texts without their lines of `%` and `#`.
ghost use Rattle.std.specs.Prelude.{◌≡◌, ◌≢◌, false, IfOk, IfErr, OnOk, codes};

use std::alloc::Global;
use xdr_dialect::{is_identifier, plain_text};
use xdr_tokens::{Fault, Wrong};

/// A line of `%` is nothing, and the next one stands where it stood.
pub fn percent_line(alloc: Global) -> Result<Vec<u8>, Fault>
    ensures found { IfOk result (λ v. v.items ≡ codes "    \nint") }
    ensures taken { IfErr result (λ e. e ≡ Fault.NoMemory) }
{
    plain_text(alloc, b"%x{}\nint", &[])
}

/// So is one with white space before the `%`.
pub fn percent_behind_blanks(alloc: Global) -> Result<Vec<u8>, Fault>
    ensures found { IfOk result (λ v. v.items ≡ codes "   \nint") }
    ensures taken { IfErr result (λ e. e ≡ Fault.NoMemory) }
{
    plain_text(alloc, b" %x\nint", &[])
}

/// Inside a line `%` ends nothing: it is no token of the language.
pub fn percent_inside_a_line(alloc: Global) -> Result<Vec<u8>, Fault>
    ensures found { IfOk result (λ v. v.items ≡ codes "int %x") }
    ensures taken { IfErr result (λ e. e ≡ Fault.NoMemory) }
{
    plain_text(alloc, b"int %x", &[])
}

/// No line begins in a comment.
pub fn percent_in_a_comment(alloc: Global) -> Result<Vec<u8>, Fault>
    ensures found { IfOk result (λ v. v.items ≡ codes "/*\n%*/int") }
    ensures taken { IfErr result (λ e. e ≡ Fault.NoMemory) }
{
    plain_text(alloc, b"/*\n%*/int", &[])
}

/// Such a line goes on over a line feed behind `\`.
pub fn line_that_goes_on(alloc: Global) -> Result<Vec<u8>, Fault>
    ensures found { IfOk result (λ v. v.items ≡ codes "  \n \ny") }
    ensures taken { IfErr result (λ e. e ≡ Fault.NoMemory) }
{
    plain_text(alloc, b"%\\\nx\ny", &[])
}

/// The branch of a name that is defined.
pub fn defined_name(alloc: Global) -> Result<Vec<u8>, Fault>
    ensures found { IfOk result (λ v. v.items ≡ codes "        \nx\n     \n \n      ") }
    ensures taken { IfErr result (λ e. e ≡ Fault.NoMemory) }
{
    plain_text(alloc, b"#ifdef A\nx\n#else\ny\n#endif", &["A"])
}

/// And of one that is not.
pub fn undefined_name(alloc: Global) -> Result<Vec<u8>, Fault>
    ensures found { IfOk result (λ v. v.items ≡ codes "        \n \n     \ny\n      ") }
    ensures taken { IfErr result (λ e. e ≡ Fault.NoMemory) }
{
    plain_text(alloc, b"#ifdef A\nx\n#else\ny\n#endif", &["B"])
}

/// A section in a branch that is not chosen is not shown.
pub fn section_in_a_hidden_branch(alloc: Global) -> Result<Vec<u8>, Fault>
    ensures found { IfOk result (λ v. v.items ≡ codes "     \n     \n \n      \n      \ny") }
    ensures taken { IfErr result (λ e. e ≡ Fault.NoMemory) }
{
    plain_text(alloc, b"#if 0\n#if 1\nx\n#endif\n#endif\ny", &[])
}

/// Of what is quoted two `=` stay.
pub fn quotes(alloc: Global) -> Result<Vec<u8>, Fault>
    ensures found { IfOk result (λ v. v.items ≡ codes "A== =;") }
    ensures taken { IfErr result (λ e. e ≡ Fault.NoMemory) }
{
    plain_text(alloc, b"A=\"b\";", &[])
}

/// The `#` of a definition becomes `=`.
pub fn number_by_define(alloc: Global) -> Result<Vec<u8>, Fault>
    ensures found { IfOk result (λ v. v.items ≡ codes "=define A 5\n") }
    ensures taken { IfErr result (λ e. e ≡ Fault.NoMemory) }
{
    plain_text(alloc, b"#define A 5\n", &[])
}

/// `#else` stands in a section.
pub fn else_without_if(alloc: Global) -> Result<Vec<u8>, Fault>
    ensures refused { OnOk result ⊥ }
    ensures place { IfErr result (λ e. e ≢ Fault.NoMemory → e ≡ Fault.Refused Wrong.BadCharacter 5) }
{
    plain_text(alloc, b"int\n#else", &[])
}

/// A condition is a name, 0 or 1.
pub fn condition_that_is_not_read(alloc: Global) -> Result<Vec<u8>, Fault>
    ensures refused { OnOk result ⊥ }
    ensures place { IfErr result (λ e. e ≢ Fault.NoMemory → e ≡ Fault.Refused Wrong.BadCharacter 16) }
{
    plain_text(alloc, b"#if A > 1\n#endif", &["A"])
}

/// Behind the number more may follow.
pub fn condition_of_a_quotient(alloc: Global) -> Result<Vec<u8>, Fault>
    ensures refused { OnOk result ⊥ }
    ensures place { IfErr result (λ e. e ≢ Fault.NoMemory → e ≡ Fault.Refused Wrong.BadCharacter 14) }
{
    plain_text(alloc, b"#if 1/2\n#endif", &[])
}

/// The first branch whose condition holds.
pub fn otherwise_if(alloc: Global) -> Result<Vec<u8>, Fault>
    ensures found { IfOk result (λ v. v.items ≡ codes "     \n       \ny\n     \n      ") }
    ensures taken { IfErr result (λ e. e ≡ Fault.NoMemory) }
{
    plain_text(alloc, b"#if 0\n#elif 1\ny\n#else\n#endif", &[])
}

/// Behind it no condition is read.
pub fn otherwise_if_behind_a_branch(alloc: Global) -> Result<Vec<u8>, Fault>
    ensures found { IfOk result (λ v. v.items ≡ codes "     \nx\n           \n \n      ") }
    ensures taken { IfErr result (λ e. e ≡ Fault.NoMemory) }
{
    plain_text(alloc, b"#if 1\nx\n#elif A > 1\ny\n#endif", &[])
}

/// Behind a definition its name is defined.
pub fn condition_behind_define(alloc: Global) -> Result<Vec<u8>, Fault>
    ensures found { IfOk result (λ v. v.items ≡ codes "         \n        \nx\n      ") }
    ensures taken { IfErr result (λ e. e ≡ Fault.NoMemory) }
{
    plain_text(alloc, b"#define A\n#ifdef A\nx\n#endif", &[])
}

/// What it is defined as is not known.
pub fn value_behind_define(alloc: Global) -> Result<Vec<u8>, Fault>
    ensures refused { OnOk result ⊥ }
    ensures place { IfErr result (λ e. e ≢ Fault.NoMemory → e ≡ Fault.Refused Wrong.BadCharacter 12) }
{
    plain_text(alloc, b"#define A 0\n#if A\n#endif", &[])
}

/// A definition is of a number or of nothing.
pub fn definition_of_a_name(alloc: Global) -> Result<Vec<u8>, Fault>
    ensures refused { OnOk result ⊥ }
    ensures place { IfErr result (λ e. e ≢ Fault.NoMemory → e ≡ Fault.Refused Wrong.BadCharacter 11) }
{
    plain_text(alloc, b"#define A B", &[])
}

/// `#ifdef 1a` asks for no name, since none begins with a digit.
pub fn digit_begins_no_name() -> bool
    ensures { result ≡ false }
{
    is_identifier(b"1a")
}

/// A section is closed before the text ends.
pub fn section_that_is_open(alloc: Global) -> Result<Vec<u8>, Fault>
    ensures refused { OnOk result ⊥ }
    ensures place { IfErr result (λ e. e ≢ Fault.NoMemory → e ≡ Fault.Refused Wrong.Unexpected 0) }
{
    plain_text(alloc, b"#ifdef A\n", &[])
}

/// A comment in a line of `#` is a blank, and the line goes on behind it.
pub fn comment_in_a_line(alloc: Global) -> Result<Vec<u8>, Fault>
    ensures found { IfOk result (λ v. v.items ≡ codes "            \n       \nx\n      ") }
    ensures taken { IfErr result (λ e. e ≡ Fault.NoMemory) }
{
    plain_text(alloc, b"#if/*a*/1/*b\n#else*/\nx\n#endif", &[])
}

/// Behind it a condition goes on.
pub fn words_behind_a_comment(alloc: Global) -> Result<Vec<u8>, Fault>
    ensures refused { OnOk result ⊥ }
    ensures place { IfErr result (λ e. e ≢ Fault.NoMemory → e ≡ Fault.Refused Wrong.BadCharacter 25) }
{
    plain_text(alloc, b"#if 0 /* a */ || 1\n#endif", &[])
}

/// A line whose comment does not end is no line.
pub fn comment_that_does_not_end(alloc: Global) -> Result<Vec<u8>, Fault>
    ensures refused { OnOk result ⊥ }
    ensures place { IfErr result (λ e. e ≢ Fault.NoMemory → e ≡ Fault.Refused Wrong.BadCharacter 12) }
{
    plain_text(alloc, b"#if 1\n#endif /* a\n", &[])
}
