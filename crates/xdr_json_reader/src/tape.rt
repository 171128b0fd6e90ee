//! A JSON text as a tree in memory, with the place of each value in the text.
ghost use Rattle.std.specs.Prelude.{◌≡◌, ◌⊎◌, ◌≤◌, length, Some, None, IfOk, IfErr};
ghost use Rattle.xdr_json_reader.specs.Tape.{json_in};

use std::vec::Vec;

/// A member's name, and how many bytes of the text stand before it.
#[derive(Clone, Copy)]
pub struct Key<'a> {
    pub name: &'a str,
    pub at: usize,
}

/// A JSON value, and how many bytes of the text stand before it. A number stays text.
#[derive(Drop)]
pub enum Node<'a> {
    Null {
        at: usize,
    },
    Flag {
        flag: bool,
        at: usize,
    },
    Number {
        text: &'a str,
        at: usize,
    },
    Text {
        text: &'a str,
        at: usize,
    },
    Array {
        items: Vec<Node<'a>>,
        at: usize,
    },
    Object {
        members: Vec<(Key<'a>, Node<'a>)>,
        at: usize,
    },
}

impl<'a> Node<'a> {
    /// How many bytes of the text stand before the value.
    pub fn at(&self) -> usize {
        match self {
            Node::Null { at } => *at,
            Node::Flag { flag: _, at } => *at,
            Node::Number { text: _, at } => *at,
            Node::Text { text: _, at } => *at,
            Node::Array { items: _, at } => *at,
            Node::Object { members: _, at } => *at,
        }
    }
}
