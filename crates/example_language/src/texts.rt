//! What `read` gives for texts that mean something (RFC 4506 section 6.4, RFC 5531 section 12): the kinds of a text
//! come after the eight basic ones.
ghost use Rattle.std.specs.Prelude.{◌≡◌, Some, None, IfOk, IfErr, [], ◌∷◌, codes, drop, filter, map};
ghost use Rattle.xdr_tokens.specs.Tokens.{Word, Name};
ghost use Rattle.xdr_tokens.specs.Keywords.{keywords, word_among, word_or_name};
ghost use Rattle.xdr_tokens.specs.declared.token.Keyword.TheVariants as word;
ghost use Rattle.xdr_types.specs.Kinds as xdr;
ghost use Rattle.xdr_types.specs.Named.{named};
ghost use Rattle.xdr_lang.specs.Declarations as said;
ghost use Rattle.xdr_lang.specs.Means.{Means};
ghost use Rattle.xdr_lang.specs.Before.{HasNoLong, HasNoStructName, MeantBefore, was_keyword};
ghost use Rattle.xdr_lang.specs.Views.{declared_of};

use std::alloc::Global;
use xdr_lang::{Declared, LangFault, older_texts_keep_their_meanings, one_meaning, read};

/// A fixed array and a variable one.
pub fn arrays(alloc: Global) -> Result<Declared, LangFault>
    ensures found { IfOk result (λ v. drop 8 (declared_of v).schema.kinds ≡ xdr.fixed 0 2 ∷ xdr.up_to 0 2 ∷ []) }
    ensures taken { IfErr result (λ e. e.number ≡ 13) }
{
    read(alloc, b"typedef int a[2]; typedef int b<2>;")
}

/// A size that is left out is the greatest.
pub fn missing_size(alloc: Global) -> Result<Declared, LangFault>
    ensures found { IfOk result (λ v. drop 8 (declared_of v).schema.kinds ≡ xdr.text 4294967295 ∷ []) }
    ensures taken { IfErr result (λ e. e.number ≡ 13) }
{
    read(alloc, b"typedef string a<>;")
}

/// A list: an entry holds the place of the next one, which may name the entry before that is declared.
pub fn linked_list(alloc: Global) -> Result<Declared, LangFault>
    ensures found { IfOk result (λ v. drop 8 (declared_of v).schema.kinds ≡
        xdr.maybe 9 ∷ xdr.structure (named (codes "n") 0 ∷ named (codes "next") 8 ∷ []) ∷ []) }
    ensures taken { IfErr result (λ e. e.number ≡ 13) }
{
    read(alloc, b"struct e{int n;e*next;};")
}

/// `long` is `int`: no kind of its own.
pub fn long_numbers(alloc: Global) -> Result<Declared, LangFault>
    ensures found { IfOk result (λ v. drop 8 (declared_of v).schema.kinds ≡ xdr.fixed 0 2 ∷ xdr.up_to 1 2 ∷ []) }
    ensures taken { IfErr result (λ e. e.number ≡ 13) }
{
    read(alloc, b"typedef long a[2]; typedef unsigned long b<2>;")
}

/// The same list with `struct` before its name, as RFC 1833 spells one.
pub fn list_of_structs(alloc: Global) -> Result<Declared, LangFault>
    ensures found { IfOk result (λ v. drop 8 (declared_of v).schema.kinds ≡
        xdr.maybe 9 ∷ xdr.structure (named (codes "n") 0 ∷ named (codes "next") 8 ∷ []) ∷ []) }
    ensures taken { IfErr result (λ e. e.number ≡ 13) }
{
    read(alloc, b"struct e{long n;struct e*next;};")
}

/// A string as an argument is place 7, the string of any length.
pub fn string_argument(alloc: Global) -> Result<Declared, LangFault>
    ensures found { IfOk result (λ v. map (λ (p : said.Program). p.versions) (declared_of v).programs ≡
        ((record {
          name = codes "V";
          number = 2;
          procedures =
              (record { name = codes "N"; number = 0; arguments = 7 ∷ []; result = None }) ∷ [];
        }) ∷ []) ∷ []) }
    ensures taken { IfErr result (λ e. e.number ≡ 13) }
{
    read(alloc, b"program P{version V{void N(string)=0;}=2;}=1;")
}

/// A text without `long` means all that it meant before `long` and `struct NAME` were words of the language.
pub fn older_text(text: &[u8])
    requires { HasNoLong text.now }
    ensures { (d : said.Declared) → MeantBefore text.now d → Means text.now d }
{
    older_texts_keep_their_meanings()
}

/// A text without `long` in which no type is reported by `struct` and a name means nothing that it did not mean before.
pub fn text_without_the_words(text: &[u8])
    requires long { HasNoLong text.now }
    requires none { HasNoStructName text.now }
    ensures { (d : said.Declared) → Means text.now d → MeantBefore text.now d }
{
    older_texts_keep_their_meanings()
}

/// `long` was a name.
pub fn long_was_a_name(run: &[u8])
    requires { word_or_name run.now ≡ Word word.Long }
    ensures { word_among (filter was_keyword keywords) run.now ≡ Name (codes "long") }
{
    older_texts_keep_their_meanings()
}

/// Two things that one text means are one.
pub fn two_meanings(text: &[u8])
    ensures { (d e : said.Declared) → Means text.now d → Means text.now e → d ≡ e }
{
    one_meaning()
}
