//! The names that rpcgen's library declares for C.
ghost use Rattle.std.specs.Prelude.{◌≡◌, ◌++◌, OnOk, false};
ghost use Rattle.std.specs.List.{list_any};
ghost use Rattle.xdr_tokens.specs.Tokens.{lexeme, lexemes};
ghost use Rattle.xdr_dialect.specs.Tests.{is_named};
ghost use Rattle.xdr_dialect.specs.Library.{definition, ends_name, tags, begins_definition, typedef_after};
ghost use Rattle.xdr_dialect.specs.Library.{declares_from, lacks, lacking_one, lacking, library};
ghost use Rattle.xdr_dialect.specs.Dialect.{all_placed, standing_at};
ghost use Rattle.xdr_dialect.specs.Answers.{texts};

use crate::ahead::{named, rest, sign, word};
use std::alloc::AllocError;
use xdr_tokens::{Keyword, Mark, Token};

/// What a name of the library is.
#[derive(Clone, Copy)]
pub enum Meaning {
    /// `int`.
    Integer,
    /// `unsigned int`.
    Natural,
    /// `hyper`.
    Hyper,
    /// `unsigned hyper`.
    NaturalHyper,
    /// `bool`.
    Flag,
    /// So many bytes.
    Bytes(u32),
    /// At most so many bytes.
    BytesUpTo(u32),
    /// A transport address, a struct.
    Netbuf,
    /// A constant.
    Size(u32),
}

/// A name of a typedef is followed by one of these.
fn ends_name(tokens: &[Token<'_>]) -> bool
    ensures { result ≡ ends_name (lexemes tokens.now) }
{
    sign(tokens, Mark::Semicolon) || sign(tokens, Mark::OpenBracket) || sign(tokens, Mark::Less)
}

/// The token is followed by a name that it may declare.
fn tags(token: Token<'_>) -> bool
    ensures { result ≡ tags (lexeme token.entry) }
{
    matches!(
        token,
        Token::Word(
            Keyword::Struct | Keyword::Union | Keyword::Enum | Keyword::Const,
            _
        )
    )
}

/// A body or `=` is in front.
fn begins_definition(tokens: &[Token<'_>]) -> bool
    ensures { result ≡ begins_definition (lexemes tokens.now) }
{
    sign(tokens, Mark::OpenBrace) || word(tokens, Keyword::Switch) || sign(tokens, Mark::Equal)
}

/// Inside a typedef, behind a token.
fn typedef_after(inside: bool, token: Token<'_>) -> bool
    ensures { result ≡ typedef_after inside (lexeme token.entry) }
{
    match token {
        Token::Word(Keyword::Typedef, _) => true,
        Token::Sign(Mark::Semicolon, _) => false,
        _ => inside,
    }
}

/// The token is this name.
fn is_named(token: Token<'_>, wanted: &str) -> bool
    ensures { result ≡ is_named wanted.now (lexeme token.entry) }
{
    match token {
        Token::Name(found, _) => found == wanted,
        _ => false,
    }
}

/// The tokens declare the name.
#[tactic(auto, unfolding(crate::specs::Library::declares_from))]
fn declares(tokens: &[Token<'_>], wanted: &str) -> bool
    ensures { result ≡ declares_from false wanted.now (lexemes tokens.now) }
{
    let mut inside = false;
    let mut left = tokens;
    while let [first, others @ ..] = left {
        if inside && is_named(*first, wanted) && ends_name(others) {
            return true;
        }
        if tags(*first) && named(others, wanted) && begins_definition(rest(others)) {
            return true;
        }
        inside = typedef_after(inside, *first);
        left = others;
    }
    false
}

/// The tokens name it.
fn mentions(tokens: &[Token<'_>], wanted: &str) -> bool
    ensures { result ≡ list_any (is_named wanted.now) (lexemes tokens.now) }
{
    let mut rest = tokens;
    while let [first, others @ ..] = rest {
        if is_named(*first, wanted) {
            return true;
        }
        rest = others;
    }
    false
}

/// The tokens name it, and do not declare it.
fn lacks(tokens: &[Token<'_>], wanted: &str) -> bool
    ensures { result ≡ lacks (lexemes tokens.now) wanted.now }
{
    mentions(tokens, wanted) && !declares(tokens, wanted)
}

/// Adds the struct of a transport address.
fn define_netbuf<'a>(
    found: &mut Vec<Token<'a>>,
    run: &'a str,
    left: usize,
) -> Result<(), AllocError>
    ensures { OnOk result (all_placed found.new.items
        ≡ all_placed found.old.items ++ standing_at left (definition Meaning.Netbuf run.now)) }
{
    let end = Token::Sign(Mark::Semicolon, left);
    found.extend_from_slice(&[
        Token::Word(Keyword::Struct, left),
        Token::Name(run, left),
        Token::Sign(Mark::OpenBrace, left),
        Token::Word(Keyword::Unsigned, left),
        Token::Word(Keyword::Int, left),
        Token::Name("maxlen", left),
        end,
        Token::Word(Keyword::Opaque, left),
        Token::Name("buf", left),
        Token::Sign(Mark::Less, left),
        Token::Sign(Mark::Greater, left),
        end,
        Token::Sign(Mark::CloseBrace, left),
        end,
    ])?;
    Ok(())
}

/// Adds tokens that all stand at one place.
#[tactic(auto, using(crate::proofs::Places::placing))]
fn define<'a>(
    found: &mut Vec<Token<'a>>,
    meaning: Meaning,
    run: &'a str,
    left: usize,
) -> Result<(), AllocError>
    ensures { OnOk result
        (all_placed found.new.items ≡ all_placed found.old.items ++ standing_at left (definition meaning run.now)) }
{
    let name = Token::Name(run, left);
    let typedef = Token::Word(Keyword::Typedef, left);
    let unsigned = Token::Word(Keyword::Unsigned, left);
    let int = Token::Word(Keyword::Int, left);
    let hyper = Token::Word(Keyword::Hyper, left);
    let end = Token::Sign(Mark::Semicolon, left);
    match meaning {
        Meaning::Integer => found.extend_from_slice(&[typedef, int, name, end]),
        Meaning::Natural => found.extend_from_slice(&[typedef, unsigned, int, name, end]),
        Meaning::Hyper => found.extend_from_slice(&[typedef, hyper, name, end]),
        Meaning::NaturalHyper => found.extend_from_slice(&[typedef, unsigned, hyper, name, end]),
        Meaning::Flag => {
            found.extend_from_slice(&[typedef, Token::Word(Keyword::Bool, left), name, end])
        }
        Meaning::Bytes(size) => found.extend_from_slice(&[
            typedef,
            Token::Word(Keyword::Opaque, left),
            name,
            Token::Sign(Mark::OpenBracket, left),
            Token::Number(size as i128, left),
            Token::Sign(Mark::CloseBracket, left),
            end,
        ]),
        Meaning::BytesUpTo(size) => found.extend_from_slice(&[
            typedef,
            Token::Word(Keyword::Opaque, left),
            name,
            Token::Sign(Mark::Less, left),
            Token::Number(size as i128, left),
            Token::Sign(Mark::Greater, left),
            end,
        ]),
        Meaning::Netbuf => define_netbuf(found, run, left),
        Meaning::Size(size) => found.extend_from_slice(&[
            Token::Word(Keyword::Const, left),
            name,
            Token::Sign(Mark::Equal, left),
            Token::Number(size as i128, left),
            end,
        ]),
    }
}

/// Adds the definition of the name, where the tokens lack it.
fn add_one<'a>(
    found: &mut Vec<Token<'a>>,
    tokens: &[Token<'a>],
    meaning: Meaning,
    name: &'a str,
    left: usize,
) -> Result<(), AllocError>
    ensures { OnOk result (all_placed found.new.items
        ≡ all_placed found.old.items ++ standing_at left (lacking_one (lexemes tokens.now) meaning name.now)) }
{
    if !lacks(tokens, name) {
        return Ok(());
    }
    define(found, meaning, name, left)
}

/// Adds the definitions of those of the names that the tokens lack.
#[tactic(auto, using(crate::proofs::Places::placing), unfolding(crate::specs::Library::lacking))]
fn add_lacking<'a>(
    found: &mut Vec<Token<'a>>,
    tokens: &[Token<'a>],
    meaning: Meaning,
    names: &[&'a str],
    left: usize,
) -> Result<(), AllocError>
    ensures { OnOk result (all_placed found.new.items
        ≡ all_placed found.old.items ++ standing_at left (lacking (lexemes tokens.now) meaning (texts names.now))) }
{
    let mut rest = names;
    while let [name, others @ ..] = rest {
        add_one(found, tokens, meaning, name, left)?;
        rest = others;
    }
    Ok(())
}

/// Adds the definitions of the library's names that the tokens lack.
#[tactic(auto, using(crate::proofs::Places::placing))]
pub(crate) fn add_library<'a>(
    found: &mut Vec<Token<'a>>,
    tokens: &[Token<'a>],
    left: usize,
) -> Result<(), AllocError>
    ensures { OnOk result (all_placed found.new.items
        ≡ all_placed found.old.items ++ standing_at left (library (lexemes tokens.now))) }
{
    let integers = ["char", "short", "int8_t", "int16_t", "int32_t"];
    let naturals = [
        "u_char",
        "u_short",
        "u_int",
        "u_long",
        "uint8_t",
        "uint16_t",
        "uint32_t",
        "u_int8_t",
        "u_int16_t",
        "u_int32_t",
        "rpcprog_t",
        "rpcvers_t",
        "rpcproc_t",
    ];
    let hypers = ["int64_t", "quad_t", "longlong_t"];
    let natural_hypers = ["uint64_t", "u_int64_t", "u_quad_t", "u_longlong_t"];
    add_lacking(found, tokens, Meaning::Integer, &integers, left)?;
    add_lacking(found, tokens, Meaning::Natural, &naturals, left)?;
    add_lacking(found, tokens, Meaning::Hyper, &hypers, left)?;
    add_lacking(found, tokens, Meaning::NaturalHyper, &natural_hypers, left)?;
    add_lacking(found, tokens, Meaning::Flag, &["bool_t"], left)?;
    add_lacking(found, tokens, Meaning::Bytes(4), &["float"], left)?;
    add_lacking(
        found,
        tokens,
        Meaning::Bytes(8),
        &["double", "des_block"],
        left,
    )?;
    add_lacking(found, tokens, Meaning::BytesUpTo(1024), &["netobj"], left)?;
    add_lacking(found, tokens, Meaning::Netbuf, &["netbuf"], left)?;
    add_lacking(found, tokens, Meaning::Size(255), &["MAXNETNAMELEN"], left)
}
