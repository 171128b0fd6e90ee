//! Tokens of the dialect and what stands in place of them.
ghost use Rattle.std.specs.Prelude.{◌≡◌, IfOk, pos, codes, [], ◌∷◌};
ghost use Rattle.xdr_tokens.specs.Tokens.{Word, Name, Number, Sign};
ghost use Rattle.xdr_dialect.specs.Dialect.{all_placed};

use std::alloc::{AllocError, Global};
use xdr_dialect::meant_tokens;
use xdr_tokens::{Keyword, Mark, Token};

/// `unsigned x;`: the `int` that is meant stands where `unsigned` does.
pub fn bare_unsigned(alloc: Global) -> Result<Vec<Token<'static>>, AllocError>
    ensures { IfOk result (λ v. all_placed v.items ≡
        record { token = Word Keyword.Unsigned; left = 11 } ∷ record { token = Word Keyword.Int; left = 11 } ∷
        record { token = Name (codes "x"); left = 2 } ∷ record { token = Sign Mark.Semicolon; left = 1 } ∷ []) }
{
    let tokens = [
        Token::Word(Keyword::Unsigned, 11),
        Token::Name("x", 2),
        Token::Sign(Mark::Semicolon, 1),
    ];
    meant_tokens(alloc, &tokens, 11)
}

/// `unsigned char x;`: the name of the kind goes with `unsigned`.
pub fn unsigned_char(alloc: Global) -> Result<Vec<Token<'static>>, AllocError>
    ensures { IfOk result (λ v. all_placed v.items ≡
        record { token = Word Keyword.Unsigned; left = 16 } ∷ record { token = Word Keyword.Int; left = 16 } ∷
        record { token = Name (codes "x"); left = 2 } ∷ record { token = Sign Mark.Semicolon; left = 1 } ∷ []) }
{
    let tokens = [
        Token::Word(Keyword::Unsigned, 16),
        Token::Name("char", 7),
        Token::Name("x", 2),
        Token::Sign(Mark::Semicolon, 1),
    ];
    meant_tokens(alloc, &tokens, 16)
}

/// `u_int x;`: the name is declared where the text begins.
pub fn name_of_the_library(alloc: Global) -> Result<Vec<Token<'static>>, AllocError>
    ensures { IfOk result (λ v. all_placed v.items ≡
        record { token = Word Keyword.Typedef; left = 8 } ∷ record { token = Word Keyword.Unsigned; left = 8 } ∷
        record { token = Word Keyword.Int; left = 8 } ∷ record { token = Name (codes "u_int"); left = 8 } ∷
        record { token = Sign Mark.Semicolon; left = 8 } ∷ record { token = Name (codes "u_int"); left = 8 } ∷
        record { token = Name (codes "x"); left = 2 } ∷ record { token = Sign Mark.Semicolon; left = 1 } ∷ []) }
{
    let tokens = [
        Token::Name("u_int", 8),
        Token::Name("x", 2),
        Token::Sign(Mark::Semicolon, 1),
    ];
    meant_tokens(alloc, &tokens, 8)
}

/// `enum e{A}`: the first member has the number 0.
pub fn member_without_a_number(alloc: Global) -> Result<Vec<Token<'static>>, AllocError>
    ensures { IfOk result (λ v. all_placed v.items ≡
        record { token = Word Keyword.Enum; left = 9 } ∷ record { token = Name (codes "e"); left = 4 } ∷
        record { token = Sign Mark.OpenBrace; left = 3 } ∷ record { token = Name (codes "A"); left = 2 } ∷
        record { token = Sign Mark.Equal; left = 2 } ∷ record { token = Number (pos 0); left = 2 } ∷
        record { token = Sign Mark.CloseBrace; left = 1 } ∷ []) }
{
    let tokens = [
        Token::Word(Keyword::Enum, 9),
        Token::Name("e", 4),
        Token::Sign(Mark::OpenBrace, 3),
        Token::Name("A", 2),
        Token::Sign(Mark::CloseBrace, 1),
    ];
    meant_tokens(alloc, &tokens, 9)
}

/// `float x;`: four bytes.
pub fn four_bytes(alloc: Global) -> Result<Vec<Token<'static>>, AllocError>
    ensures { IfOk result (λ v. all_placed v.items ≡
        record { token = Word Keyword.Typedef; left = 8 } ∷ record { token = Word Keyword.Opaque; left = 8 } ∷
        record { token = Name (codes "float"); left = 8 } ∷ record { token = Sign Mark.OpenBracket; left = 8 } ∷
        record { token = Number (pos 4); left = 8 } ∷ record { token = Sign Mark.CloseBracket; left = 8 } ∷
        record { token = Sign Mark.Semicolon; left = 8 } ∷ record { token = Name (codes "float"); left = 8 } ∷
        record { token = Name (codes "x"); left = 2 } ∷ record { token = Sign Mark.Semicolon; left = 1 } ∷ []) }
{
    let tokens = [
        Token::Word(Keyword::Float, 8),
        Token::Name("x", 2),
        Token::Sign(Mark::Semicolon, 1),
    ];
    meant_tokens(alloc, &tokens, 8)
}

/// `int enum x;`: no kind stands behind another, and the tokens stay.
pub fn no_kind_behind_another(alloc: Global) -> Result<Vec<Token<'static>>, AllocError>
    ensures { IfOk result (λ v. all_placed v.items ≡
        record { token = Word Keyword.Int; left = 11 } ∷ record { token = Word Keyword.Enum; left = 7 } ∷
        record { token = Name (codes "x"); left = 2 } ∷ record { token = Sign Mark.Semicolon; left = 1 } ∷ []) }
{
    let tokens = [
        Token::Word(Keyword::Int, 11),
        Token::Word(Keyword::Enum, 7),
        Token::Name("x", 2),
        Token::Sign(Mark::Semicolon, 1),
    ];
    meant_tokens(alloc, &tokens, 11)
}
