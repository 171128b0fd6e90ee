//! What `read_outline` makes of tokens (RFC 4506 sections 6.3 and 6.4): kinds whose names are not looked up yet.
ghost use Rattle.std.specs.Prelude.{◌≡◌, ◌⊎◌, pos, true, false, Some, None, IfOk, IfErr, IfSome, [], ◌∷◌, codes};
ghost use Rattle.xdr_tokens.specs.Tokens.{lexemes, Word, Name, Number, Sign};
ghost use Rattle.xdr_tokens.specs.declared.token.Keyword.TheVariants as word;
ghost use Rattle.xdr_tokens.specs.declared.token.Mark.TheVariants as mark;
ghost use Rattle.xdr_grammar.specs.View.{outline_of};
ghost use Rattle.xdr_grammar.specs.Outline as out;
ghost use Rattle.xdr_grammar.specs.declared.outline.Basic.TheVariants as basic;
ghost use Rattle.example_language.specs.Spelled.{two_typedefs, enumeration, union_tokens, union_arms, named};
ghost use Rattle.example_language.specs.Spelled.{typedef_of_bodies, typedef_of_a_struct};

use std::alloc::Global;
use xdr_grammar::{Outline, read_outline};
use xdr_tokens::{Fault, Token};

/// `typedef int a; typedef bool b;` declares two types.
pub fn two_definitions<'a>(alloc: Global, tokens: &[Token<'a>]) -> Result<Outline<'a>, Fault>
    requires { lexemes tokens.now ≡ two_typedefs }
    ensures found { IfOk result (λ v. (outline_of v).types ≡
        named (codes "a") (out.IsBasic basic.Int) ∷ named (codes "b") (out.IsBasic basic.Bool) ∷ []) }
    ensures taken { IfErr result (λ e. e ≡ Fault.NoMemory) }
{
    read_outline(alloc, tokens)
}

/// `enum e { A = 1 };` declares a constant, but not as `const` does.
pub fn member_is_no_const<'a>(alloc: Global, tokens: &[Token<'a>]) -> Result<Outline<'a>, Fault>
    requires { lexemes tokens.now ≡ enumeration }
    ensures found { IfOk result (λ v. (outline_of v).constants ≡
        (record { name = codes "A"; value = out.Given (pos 1); by_const = false }) ∷ []) }
    ensures taken { IfErr result (λ e. e ≡ Fault.NoMemory) }
{
    read_outline(alloc, tokens)
}

/// `union u switch (int d) { case 1: case 2: int a; case 3: void; default: bool b; };` has an arm of two
/// cases, a void arm, and a default.
pub fn union_with_a_default<'a>(alloc: Global, tokens: &[Token<'a>]) -> Result<Outline<'a>, Fault>
    requires { lexemes tokens.now ≡ union_tokens }
    ensures found { IfOk result (λ v. (outline_of v).drafts ≡ out.DChoice (out.IsBasic basic.Int) union_arms
        (Some (named (codes "b") (out.IsBasic basic.Bool))) ∷ []) }
    ensures taken { IfErr result (λ e. e ≡ Fault.NoMemory) }
{
    read_outline(alloc, tokens)
}

/// `typedef struct s t;` declares `t` as the struct with the name `s`, which is looked up later.
pub fn struct_by_its_name<'a>(alloc: Global, tokens: &[Token<'a>]) -> Result<Outline<'a>, Fault>
    requires { lexemes tokens.now ≡ typedef_of_a_struct }
    ensures found { IfOk result (λ v. (outline_of v).types ≡ named (codes "t") (out.IsStruct (codes "s")) ∷ []) }
    ensures taken { IfErr result (λ e. e ≡ Fault.NoMemory) }
{
    read_outline(alloc, tokens)
}

/// What the grammar refuses is a token that cannot stand there, 3, a floating-point type, 4, or one body too many, 12.
pub fn number_of_a_misreading(alloc: Global, tokens: &[Token<'_>]) -> Option<u8>
    ensures { IfSome result (λ n. (n ≡ 3) ⊎ ((n ≡ 4) ⊎ (n ≡ 12))) }
{
    match read_outline(alloc, tokens) {
        Err(Fault::Refused { wrong, .. }) => Some(wrong.number()),
        _ => None,
    }
}

/// A 33rd body inside others is one too many.
pub fn one_body_too_many(alloc: Global, tokens: &[Token<'_>]) -> bool
    requires { lexemes tokens.now ≡ typedef_of_bodies 33 }
    ensures { result ≡ false }
{
    read_outline(alloc, tokens).is_ok()
}
