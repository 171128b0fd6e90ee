//! JSON as it is written, token by token, in one of two layouts.
ghost use Rattle.std.specs.Prelude.{◌≡◌, ◌++◌, [], ◌∷◌, OnOk, decimal};
ghost use Rattle.std.specs.Fmt.{signed_decimal};
ghost use Rattle.std.specs.Str.{IsUtf8};
ghost use Rattle.hex.specs.Hex.{encode_lower};
ghost use Rattle.json.specs.Lex.{tokens};
ghost use Rattle.json.specs.Print.{IsPrintable};
ghost use Rattle.json.specs.Reads.{token_of};
ghost use Rattle.json.specs.Token.{string, number};
ghost use Rattle.xdr_json.specs.Written.{text_of};

use hex::encode_to_slice;
use itoa::Buffer;
use json::{Pretty, Token, Writer};
use std::alloc::Global;
use std::marker::Model;
use std::str::from_utf8;
use xdr_types::NoMemory;

/// How JSON is laid out.
#[derive(Clone, Copy, Debug, PartialEq, Eq)]
pub enum Layout {
    /// Without spaces and line feeds.
    Compact,
    /// A line for each item of an array and each member of an object, two spaces further in for each bracket that is
    /// open, and a space after the colon of a member. An array or an object without parts stays on its line.
    Indented,
}

// What writes a layout.
#[derive(Drop)]
enum Form {
    Compact(Writer),
    Indented(Pretty),
}

/// JSON (RFC 8259) as it is written, token by token. It puts commas, colons and lines between them, and leaves the
/// nesting to its caller.
#[derive(Drop)]
pub struct Output {
    alloc: Global,
    form: Form,
}

impl Model for Output {
    ghost use Rattle.xdr_json.specs.Written.{Written, written_code};

    ghost Value = { Written };

    ghost coded = { written_code };

    ghost use Rattle.xdr_json.specs.Private.Forms.{written_by, begins_empty};

    ghost view = { λ o. written_by o.form };

    ghost invariant = { λ o. begins_empty o.form };
}

impl Output {
    /// No token yet.
    pub fn new(alloc: Global, layout: Layout) -> Output
        ensures layout { result.layout ≡ layout }
        ensures tokens { result.tokens ≡ [] }
    {
        let form = match layout {
            Layout::Compact => Form::Compact(Writer::new(Vec::new(alloc))),
            Layout::Indented => Form::Indented(Pretty::new(alloc)),
        };
        Output { alloc, form }
    }

    /// The text of the tokens, in UTF-8.
    pub fn into_text(self) -> Vec<u8>
        ensures text { result.items ≡ text_of self.layout self.tokens }
        ensures reads_back { tokens result.items ≡ self.tokens }
        ensures utf8 { IsUtf8 result.items }
    {
        match self.form {
            Form::Compact(writer) => writer.into_inner(),
            Form::Indented(pretty) => pretty.into_inner(),
        }
    }

    /// A token.
    #[inline(always)]
    pub fn token(&mut self, token: Token) -> Result<(), NoMemory>
        requires { IsPrintable (token_of token) }
        ensures layout { self.new.layout ≡ self.old.layout }
        ensures told { OnOk result (self.new.tokens ≡ self.old.tokens ++ token_of token.entry ∷ []) }
    {
        match &mut self.form {
            Form::Compact(writer) => writer.token(token)?,
            Form::Indented(pretty) => pretty.token(token)?,
        }
        Ok(())
    }

    /// A number that is not negative, in decimal.
    pub fn unsigned(&mut self, n: u64) -> Result<(), NoMemory>
        ensures layout { self.new.layout ≡ self.old.layout }
        ensures told { OnOk result (self.new.tokens ≡ self.old.tokens ++ number (decimal n) ∷ []) }
    {
        let mut buffer = Buffer::new();
        self.token(Token::Number(buffer.format(n)))
    }

    /// A number in decimal.
    pub fn signed(&mut self, n: i64) -> Result<(), NoMemory>
        ensures layout { self.new.layout ≡ self.old.layout }
        ensures told { OnOk result (self.new.tokens ≡ self.old.tokens ++ number (signed_decimal n) ∷ []) }
    {
        let mut buffer = Buffer::new();
        self.token(Token::Number(buffer.format(n)))
    }

    /// A number that is not negative, in decimal, as a string.
    pub fn quoted_unsigned(&mut self, n: u64) -> Result<(), NoMemory>
        ensures layout { self.new.layout ≡ self.old.layout }
        ensures told { OnOk result (self.new.tokens ≡ self.old.tokens ++ string (decimal n) ∷ []) }
    {
        let mut buffer = Buffer::new();
        self.token(Token::String(buffer.format(n)))
    }

    /// A number in decimal, as a string.
    pub fn quoted_signed(&mut self, n: i64) -> Result<(), NoMemory>
        ensures layout { self.new.layout ≡ self.old.layout }
        ensures told { OnOk result (self.new.tokens ≡ self.old.tokens ++ string (signed_decimal n) ∷ []) }
    {
        let mut buffer = Buffer::new();
        self.token(Token::String(buffer.format(n)))
    }

    /// Bytes as a string of hexadecimal, two lower-case digits for each.
    pub fn hexadecimal(&mut self, bytes: &[u8]) -> Result<(), NoMemory>
        ensures layout { self.new.layout ≡ self.old.layout }
        ensures told { OnOk result (self.new.tokens ≡ self.old.tokens ++ string (encode_lower bytes.now) ∷ []) }
    {
        if bytes.len() > 64 {
            let digits = hex::encode(self.alloc, bytes)?;
            return self.token(Token::String(digits.as_str()));
        }
        // A few bytes want no memory of their own.
        let mut room = [0u8; 128];
        let digits = &mut room[..2 * bytes.len()];
        let Ok(()) = encode_to_slice(bytes, digits) else {
            unreachable!();
        };
        let Ok(text) = from_utf8(digits) else {
            unreachable!();
        };
        self.token(Token::String(text))
    }
}
