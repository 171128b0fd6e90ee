//! The arrays and objects that are open while a text is read.
ghost use Rattle.std.specs.Prelude.{◌≡◌, ◌<◌, ℕ, length, Some, None, OnOk, MatchResult, MatchOption};
ghost use Rattle.json.specs.Json.{value};
ghost use Rattle.xdr_json_reader.specs.Tape.{json_in};
ghost use Rattle.xdr_json_reader.specs.Private.Frames.{frame_of, key_of, put, closed, inner};
ghost use Rattle.xdr_json_reader.specs.Private.Begun.{Begins, Goes};

use crate::tape::{Key, Node};
use json::{Reader, Token};
use std::alloc::Global;
use xdr_types::NoMemory;

/// An array or an object that is open, the key under which it stands, and what was read of it.
#[derive(Drop)]
pub enum Open<'a> {
    Array {
        key: Key<'a>,
        items: Vec<Node<'a>>,
        at: usize,
    },
    Object {
        key: Key<'a>,
        members: Vec<(Key<'a>, Node<'a>)>,
        at: usize,
    },
}

/// What begins in a text: a whole value, or an array or an object.
#[derive(Drop)]
pub enum Begun<'a> {
    Whole(Node<'a>),
    Opened(Open<'a>),
}

/// The text is no JSON: how many bytes of it stand before the token that is refused.
#[derive(Clone, Copy)]
pub struct NoJson {
    pub at: usize,
}

/// The value that begins with the next token, under a key.
pub fn begin<'a>(alloc: Global, reader: &mut Reader<'a>, key: Key<'a>) -> Result<Begun<'a>, NoJson>
    ensures value { MatchResult result (λ b. Begins key.entry.name.now reader.old b reader.new)
        (λ _. (d : ℕ) → value d reader.old ≡ None) }
    ensures shorter { OnOk result (length reader.new < length reader.old) }
{
    let at = reader.offset();
    let Some(token) = reader.next() else {
        return Err(NoJson { at });
    };
    match token {
        Token::Null => Ok(Begun::Whole(Node::Null { at })),
        Token::Bool(flag) => Ok(Begun::Whole(Node::Flag { flag, at })),
        Token::Number(text) => Ok(Begun::Whole(Node::Number { text, at })),
        Token::String(text) => Ok(Begun::Whole(Node::Text { text, at })),
        Token::BeginArray => {
            let items = Vec::new(alloc);
            Ok(Begun::Opened(Open::Array { key, items, at }))
        }
        Token::BeginObject => {
            let members = Vec::new(alloc);
            Ok(Begun::Opened(Open::Object { key, members, at }))
        }
        Token::EndArray | Token::EndObject | Token::Key(_) | Token::Bad => Err(NoJson { at }),
    }
}

/// The next value in what is open, with its key; none where the bracket that closes it was taken.
pub fn child<'a>(
    alloc: Global,
    reader: &mut Reader<'a>,
    frame: &Open<'a>,
) -> Result<Option<(Key<'a>, Begun<'a>)>, NoJson>
    ensures value { MatchResult result
        (λ o. MatchOption o ((d : ℕ) → inner d (frame_of frame.now) reader.old
        ≡ Some (closed (frame_of frame.now), reader.new))
        (λ b. Goes (frame_of frame.now) b.0.name.now reader.old b.1 reader.new))
        (λ _. (d : ℕ) → inner d (frame_of frame.now) reader.old ≡ None) }
    ensures shorter { OnOk result (length reader.new < length reader.old) }
{
    let at = reader.offset();
    match frame {
        Open::Array { .. } => {
            if reader.take_end_array() {
                return Ok(None);
            }
            let key = Key { name: "", at };
            match begin(alloc, reader, key) {
                Ok(begun) => Ok(Some((key, begun))),
                Err(fault) => Err(fault),
            }
        }
        Open::Object { .. } => {
            let Ok(next) = reader.next_key() else {
                return Err(NoJson { at });
            };
            let Some(name) = next else {
                return Ok(None);
            };
            let key = Key { name, at };
            match begin(alloc, reader, key) {
                Ok(begun) => Ok(Some((key, begun))),
                Err(fault) => Err(fault),
            }
        }
    }
}

/// The value that an array or an object is when it ends, and its key.
pub fn close<'a>(frame: Open<'a>) -> (Key<'a>, Node<'a>)
    ensures key { result.0.name.now ≡ key_of (frame_of frame.entry) }
    ensures value { json_in result.1 ≡ closed (frame_of frame.entry) }
{
    match frame {
        Open::Array { key, items, at } => (key, Node::Array { items, at }),
        Open::Object { key, members, at } => (key, Node::Object { members, at }),
    }
}

/// One more value in what is open.
pub fn add<'a>(frame: &mut Open<'a>, key: Key<'a>, node: Node<'a>) -> Result<(), NoMemory>
    ensures { OnOk result (frame_of frame.new ≡ put (frame_of frame.old) key.entry.name.now (json_in node.entry)) }
{
    match frame {
        Open::Array { items, .. } => items.push(node)?,
        Open::Object { members, .. } => members.push((key, node))?,
    }
    Ok(())
}
