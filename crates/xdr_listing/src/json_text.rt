//! JSON as it is written, token by token.
ghost use Rattle.std.specs.Prelude.{◌≡◌, ◌++◌, [], ◌∷◌, OnOk};
ghost use Rattle.json.specs.Print.{print, IsPrintable};
ghost use Rattle.json.specs.Reads.{token_of};
ghost use Rattle.json.specs.Tree.{json_tokens};
ghost use Rattle.xdr_listing.specs.JsonListing.{count_json, integer_json};
ghost use Rattle.xdr_listing.specs.Private.Tokens.{named_tokens, numbered_tokens};

use itoa::Buffer;
use json::{Token, Writer};
use std::alloc::Global;
use std::marker::Model;
use xdr_types::NoMemory;

/// JSON (RFC 8259) as it is written. It puts commas and colons between tokens, and leaves the nesting to its caller.
#[derive(Drop)]
pub struct JsonText {
    writer: Writer,
}

impl Model for JsonText {
    ghost use Rattle.std.specs.Prelude.{◌≡◌, List, []};
    ghost use Rattle.json.specs.Token.{Token as SpecToken, tokens_code};

    ghost Value = { List SpecToken };

    ghost coded = { tokens_code };

    ghost view = { λ t. t.writer.tokens };

    ghost invariant = { λ t. t.writer.before ≡ [] };
}

// Numbers from this one on are strings: 2^53.
const LEAST_QUOTED: u64 = 9007199254740992;

impl JsonText {
    /// No token yet.
    pub fn new(alloc: Global) -> JsonText
        ensures { result ≡ [] }
    {
        JsonText {
            writer: Writer::new(Vec::new(alloc)),
        }
    }

    /// The text of the tokens.
    pub fn into_text(self) -> Vec<u8>
        ensures { result.items ≡ print self }
    {
        self.writer.into_inner()
    }

    /// A token.
    pub fn token(&mut self, token: Token<'_>) -> Result<(), NoMemory>
        requires { IsPrintable (token_of token) }
        ensures { OnOk result (self.new ≡ self.old ++ token_of token.entry ∷ []) }
    {
        self.writer.token(token)?;
        Ok(())
    }

    /// The beginning of an object: its name.
    pub fn named(&mut self, name: &str) -> Result<(), NoMemory>
        ensures { OnOk result (self.new ≡ self.old ++ named_tokens name.now) }
    {
        self.token(Token::BeginObject)?;
        self.token(Token::Key("name"))?;
        self.token(Token::String(name))
    }

    /// The same, and its number.
    #[tactic(auto, using(crate::proofs::Numbers::decimal_is_number))]
    pub fn numbered(&mut self, name: &str, number: u32) -> Result<(), NoMemory>
        ensures { OnOk result (self.new ≡ self.old ++ numbered_tokens name.now number) }
    {
        self.named(name)?;
        self.token(Token::Key("number"))?;
        let mut buffer = Buffer::new();
        self.token(Token::Number(buffer.format(number)))?;
        Ok(())
    }

    /// A count: a number below 2^53, else a string of its digits.
    #[tactic(auto, using(crate::proofs::Numbers::decimal_is_number, crate::proofs::Numbers::counted))]
    pub fn count(&mut self, count: u64) -> Result<(), NoMemory>
        ensures { OnOk result (self.new ≡ self.old ++ json_tokens (count_json count)) }
    {
        let mut buffer = Buffer::new();
        let digits = buffer.format(count);
        if count < LEAST_QUOTED {
            self.token(Token::Number(digits))
        } else {
            self.token(Token::String(digits))
        }
    }

    /// A whole number: a number whose size is below 2^53, else a string of its digits.
    #[tactic(auto, using(crate::proofs::Numbers::signed_is_number))]
    pub fn integer(&mut self, number: i128) -> Result<(), NoMemory>
        ensures { OnOk result (self.new ≡ self.old ++ json_tokens (integer_json number)) }
    {
        let mut buffer = Buffer::new();
        let digits = buffer.format(number);
        if number.unsigned_abs() < u128::from(LEAST_QUOTED) {
            self.token(Token::Number(digits))
        } else {
            self.token(Token::String(digits))
        }
    }
}
