//! Names that stand for numbers.
ghost use Rattle.std.specs.Prelude.{◌≡◌, IfOk, pos, codes, [], ◌∷◌};
ghost use Rattle.xdr_tokens.specs.Tokens.{lexemes, Word, Name, Number, Sign};

use std::alloc::{AllocError, Global};
use xdr_aliases::resolved_tokens;
use xdr_tokens::{Keyword, Mark, Token};

/// `const A = B; B = 5`: A is 5.
pub fn constant_by_a_name(alloc: Global) -> Result<Vec<Token<'static>>, AllocError>
    ensures { IfOk result (λ v. lexemes v.items ≡
        Word Keyword.Const ∷ Name (codes "A") ∷ Sign Mark.Equal ∷ Number (pos 5) ∷ Sign Mark.Semicolon ∷
        Name (codes "B") ∷ Sign Mark.Equal ∷ Number (pos 5) ∷ []) }
{
    let tokens = [
        Token::Word(Keyword::Const, 18),
        Token::Name("A", 12),
        Token::Sign(Mark::Equal, 10),
        Token::Name("B", 8),
        Token::Sign(Mark::Semicolon, 7),
        Token::Name("B", 5),
        Token::Sign(Mark::Equal, 3),
        Token::Number(5, 1),
    ];
    resolved_tokens(alloc, &tokens)
}

/// `N(void) = 5; const A = N;`: the number of a procedure stands behind its arguments.
pub fn number_of_a_procedure(alloc: Global) -> Result<Vec<Token<'static>>, AllocError>
    ensures { IfOk result (λ v. lexemes v.items ≡
        Name (codes "N") ∷ Sign Mark.OpenRound ∷ Word Keyword.Void ∷ Sign Mark.CloseRound ∷ Sign Mark.Equal ∷
        Number (pos 5) ∷ Sign Mark.Semicolon ∷ Word Keyword.Const ∷ Name (codes "A") ∷ Sign Mark.Equal ∷
        Number (pos 5) ∷ Sign Mark.Semicolon ∷ []) }
{
    let tokens = [
        Token::Name("N", 25),
        Token::Sign(Mark::OpenRound, 24),
        Token::Word(Keyword::Void, 23),
        Token::Sign(Mark::CloseRound, 19),
        Token::Sign(Mark::Equal, 17),
        Token::Number(5, 15),
        Token::Sign(Mark::Semicolon, 14),
        Token::Word(Keyword::Const, 12),
        Token::Name("A", 6),
        Token::Sign(Mark::Equal, 4),
        Token::Name("N", 2),
        Token::Sign(Mark::Semicolon, 1),
    ];
    resolved_tokens(alloc, &tokens)
}

/// `B = 5; t B;`: a name that no `=` stands before stays.
pub fn name_behind_a_type(alloc: Global) -> Result<Vec<Token<'static>>, AllocError>
    ensures { IfOk result (λ v. lexemes v.items ≡
        Name (codes "B") ∷ Sign Mark.Equal ∷ Number (pos 5) ∷ Sign Mark.Semicolon ∷ Name (codes "t") ∷
        Name (codes "B") ∷ Sign Mark.Semicolon ∷ []) }
{
    let tokens = [
        Token::Name("B", 11),
        Token::Sign(Mark::Equal, 9),
        Token::Number(5, 7),
        Token::Sign(Mark::Semicolon, 6),
        Token::Name("t", 4),
        Token::Name("B", 2),
        Token::Sign(Mark::Semicolon, 1),
    ];
    resolved_tokens(alloc, &tokens)
}

/// `B = 5, B = 6; A = B;`: where some name has two numbers, none stands for one.
pub fn name_with_two_numbers(alloc: Global) -> Result<Vec<Token<'static>>, AllocError>
    ensures { IfOk result (λ v. lexemes v.items ≡
        Name (codes "B") ∷ Sign Mark.Equal ∷ Number (pos 5) ∷ Name (codes "B") ∷ Sign Mark.Equal ∷ Number (pos 6) ∷
        Name (codes "A") ∷ Sign Mark.Equal ∷ Name (codes "B") ∷ Sign Mark.Semicolon ∷ []) }
{
    let tokens = [
        Token::Name("B", 20),
        Token::Sign(Mark::Equal, 18),
        Token::Number(5, 16),
        Token::Name("B", 13),
        Token::Sign(Mark::Equal, 11),
        Token::Number(6, 9),
        Token::Name("A", 6),
        Token::Sign(Mark::Equal, 4),
        Token::Name("B", 2),
        Token::Sign(Mark::Semicolon, 1),
    ];
    resolved_tokens(alloc, &tokens)
}

/// `Y = 3; Z = Y; X = Z;`: a name that was given a name is what that is.
pub fn name_of_a_name(alloc: Global) -> Result<Vec<Token<'static>>, AllocError>
    ensures { IfOk result (λ v. lexemes v.items ≡
        Name (codes "Y") ∷ Sign Mark.Equal ∷ Number (pos 3) ∷ Sign Mark.Semicolon ∷
        Name (codes "Z") ∷ Sign Mark.Equal ∷ Number (pos 3) ∷ Sign Mark.Semicolon ∷
        Name (codes "X") ∷ Sign Mark.Equal ∷ Number (pos 3) ∷ Sign Mark.Semicolon ∷ []) }
{
    let tokens = [
        Token::Name("Y", 12),
        Token::Sign(Mark::Equal, 11),
        Token::Number(3, 10),
        Token::Sign(Mark::Semicolon, 9),
        Token::Name("Z", 8),
        Token::Sign(Mark::Equal, 7),
        Token::Name("Y", 6),
        Token::Sign(Mark::Semicolon, 5),
        Token::Name("X", 4),
        Token::Sign(Mark::Equal, 3),
        Token::Name("Z", 2),
        Token::Sign(Mark::Semicolon, 1),
    ];
    resolved_tokens(alloc, &tokens)
}

/// `{ M = Y } Z = M; Y = 3`: so is a member of an enumeration, where the text gives the number behind it.
pub fn name_of_a_member(alloc: Global) -> Result<Vec<Token<'static>>, AllocError>
    ensures { IfOk result (λ v. lexemes v.items ≡
        Sign Mark.OpenBrace ∷ Name (codes "M") ∷ Sign Mark.Equal ∷ Name (codes "Y") ∷ Sign Mark.CloseBrace ∷
        Name (codes "Z") ∷ Sign Mark.Equal ∷ Number (pos 3) ∷ Sign Mark.Semicolon ∷
        Name (codes "Y") ∷ Sign Mark.Equal ∷ Number (pos 3) ∷ []) }
{
    let tokens = [
        Token::Sign(Mark::OpenBrace, 12),
        Token::Name("M", 11),
        Token::Sign(Mark::Equal, 10),
        Token::Name("Y", 9),
        Token::Sign(Mark::CloseBrace, 8),
        Token::Name("Z", 7),
        Token::Sign(Mark::Equal, 6),
        Token::Name("M", 5),
        Token::Sign(Mark::Semicolon, 4),
        Token::Name("Y", 3),
        Token::Sign(Mark::Equal, 2),
        Token::Number(3, 1),
    ];
    resolved_tokens(alloc, &tokens)
}

/// `Z = Z;`: a name that is given itself stays.
pub fn name_of_itself(alloc: Global) -> Result<Vec<Token<'static>>, AllocError>
    ensures { IfOk result (λ v. lexemes v.items ≡
        Name (codes "Z") ∷ Sign Mark.Equal ∷ Name (codes "Z") ∷ Sign Mark.Semicolon ∷ []) }
{
    let tokens = [
        Token::Name("Z", 4),
        Token::Sign(Mark::Equal, 3),
        Token::Name("Z", 2),
        Token::Sign(Mark::Semicolon, 1),
    ];
    resolved_tokens(alloc, &tokens)
}

/// `Y = 3; X = Z; Z = Y;`: so does a name that is given a name behind it.
pub fn name_given_a_name_behind_it(alloc: Global) -> Result<Vec<Token<'static>>, AllocError>
    ensures { IfOk result (λ v. lexemes v.items ≡
        Name (codes "Y") ∷ Sign Mark.Equal ∷ Number (pos 3) ∷ Sign Mark.Semicolon ∷
        Name (codes "X") ∷ Sign Mark.Equal ∷ Name (codes "Z") ∷ Sign Mark.Semicolon ∷
        Name (codes "Z") ∷ Sign Mark.Equal ∷ Number (pos 3) ∷ Sign Mark.Semicolon ∷ []) }
{
    let tokens = [
        Token::Name("Y", 12),
        Token::Sign(Mark::Equal, 11),
        Token::Number(3, 10),
        Token::Sign(Mark::Semicolon, 9),
        Token::Name("X", 8),
        Token::Sign(Mark::Equal, 7),
        Token::Name("Z", 6),
        Token::Sign(Mark::Semicolon, 5),
        Token::Name("Z", 4),
        Token::Sign(Mark::Equal, 3),
        Token::Name("Y", 2),
        Token::Sign(Mark::Semicolon, 1),
    ];
    resolved_tokens(alloc, &tokens)
}

/// `A = 1; B = 2; F = A; F = B; Z = F;`: a name with two numbers by names stands for none.
pub fn name_with_two_names(alloc: Global) -> Result<Vec<Token<'static>>, AllocError>
    ensures { IfOk result (λ v. lexemes v.items ≡
        Name (codes "A") ∷ Sign Mark.Equal ∷ Number (pos 1) ∷ Sign Mark.Semicolon ∷
        Name (codes "B") ∷ Sign Mark.Equal ∷ Number (pos 2) ∷ Sign Mark.Semicolon ∷
        Name (codes "F") ∷ Sign Mark.Equal ∷ Number (pos 1) ∷ Sign Mark.Semicolon ∷
        Name (codes "F") ∷ Sign Mark.Equal ∷ Number (pos 2) ∷ Sign Mark.Semicolon ∷
        Name (codes "Z") ∷ Sign Mark.Equal ∷ Name (codes "F") ∷ Sign Mark.Semicolon ∷ []) }
{
    let tokens = [
        Token::Name("A", 20),
        Token::Sign(Mark::Equal, 19),
        Token::Number(1, 18),
        Token::Sign(Mark::Semicolon, 17),
        Token::Name("B", 16),
        Token::Sign(Mark::Equal, 15),
        Token::Number(2, 14),
        Token::Sign(Mark::Semicolon, 13),
        Token::Name("F", 12),
        Token::Sign(Mark::Equal, 11),
        Token::Name("A", 10),
        Token::Sign(Mark::Semicolon, 9),
        Token::Name("F", 8),
        Token::Sign(Mark::Equal, 7),
        Token::Name("B", 6),
        Token::Sign(Mark::Semicolon, 5),
        Token::Name("Z", 4),
        Token::Sign(Mark::Equal, 3),
        Token::Name("F", 2),
        Token::Sign(Mark::Semicolon, 1),
    ];
    resolved_tokens(alloc, &tokens)
}
