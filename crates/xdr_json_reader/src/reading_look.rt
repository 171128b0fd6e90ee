//! What a node of the tree is, its parts not yet looked at.
ghost use Rattle.std.specs.Prelude.{◌≡◌};
ghost use Rattle.xdr_json_reader.specs.Tape.{json_in};
ghost use Rattle.xdr_json_reader.specs.Private.Look.{seen};

use crate::tape::{Key, Node};

/// The form of a JSON value, and what it holds.
#[derive(Clone, Copy)]
pub enum Shape<'v, 'a> {
    Null,
    Flag(bool),
    Number(&'a str),
    Text(&'a str),
    Array(&'v Vec<Node<'a>>),
    Object(&'v Vec<(Key<'a>, Node<'a>)>),
}

/// The form of a node.
pub fn look<'v, 'a>(node: &'v Node<'a>) -> Shape<'v, 'a>
    ensures { seen result ≡ json_in node.now }
{
    match node {
        Node::Null { at: _ } => Shape::Null,
        Node::Flag { flag, at: _ } => Shape::Flag(*flag),
        Node::Number { text, at: _ } => Shape::Number(*text),
        Node::Text { text, at: _ } => Shape::Text(*text),
        Node::Array { items, at: _ } => Shape::Array(items),
        Node::Object { members, at: _ } => Shape::Object(members),
    }
}
