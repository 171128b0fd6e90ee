//! A node at work of the value that is made.
ghost use Rattle.std.specs.Prelude.{◌≡◌, ◌∷◌, [], OnOk, IfOk, IsOk, MatchOption};
ghost use Rattle.xdr_types.specs.Tree.{Tree, nothing};
ghost use Rattle.xdr_types.specs.View.{tree};
ghost use Rattle.xdr_stream.specs.Nodes.{head_of_node};
ghost use Rattle.xdr_stream.specs.Trace.{level as reported, IsOpen};
ghost use Rattle.xdr_stream.specs.Private.Reported.{added, IsFilled, closed_tree};
ghost use Rattle.xdr_stream.specs.Values.{level_of};
ghost use Rattle.xdr_stream.specs.Private.Alone.{IsRoot};

use crate::builder::Node;
use std::alloc::{AllocError, Global};
use xdr_types::Value;

/// The most fields that a structure has space for when it begins, so that a node takes little memory before its bytes.
const MOST_SPACE: usize = 16;

/// A node at work with its finished parts.
#[derive(Drop)]
pub enum Level {
    /// What stands around the root.
    Root(Option<Value>),
    /// An array of so many items.
    Items { count: u32, items: Vec<Value> },
    /// A structure.
    Fields(Vec<Value>),
    /// A union with this discriminant.
    Choice { tag: i64, part: Option<Box<Value>> },
    /// An optional that is there.
    Maybe(Option<Box<Value>>),
}

/// One more finished part of any node.
pub(crate) fn add_any(alloc: Global, level: &mut Level, value: Value) -> Result<(), AllocError>
    ensures added { OnOk result (level_of level.new ≡ reported (level_of level.old).head
        (added (level_of level.old).head (level_of level.old).done (tree value))) }
    ensures granted { IsRoot level.old → IsOk result }
{
    match level {
        Level::Root(part) => *part = Some(value),
        Level::Items { items, .. } => items.push(value)?,
        Level::Fields(items) => items.push(value)?,
        Level::Choice { part, .. } => *part = Some(Box::new(alloc, value)?),
        Level::Maybe(part) => *part = Some(Box::new(alloc, value)?),
    }
    Ok(())
}

/// The same, where it is mostly an item.
#[inline(always)]
pub(crate) fn add_item(alloc: Global, level: &mut Level, value: Value) -> Result<(), AllocError>
    ensures added { OnOk result (level_of level.new ≡ reported (level_of level.old).head
        (added (level_of level.old).head (level_of level.old).done (tree value))) }
    ensures granted { IsRoot level.old → IsOk result }
{
    if let Level::Items { items, .. } = level {
        items.push(value)?;
        return Ok(());
    }
    add_any(alloc, level, value)
}

/// The same, where it is mostly a field or an item.
#[inline(always)]
pub(crate) fn add(alloc: Global, level: &mut Level, value: Value) -> Result<(), AllocError>
    ensures added { OnOk result (level_of level.new ≡ reported (level_of level.old).head
        (added (level_of level.old).head (level_of level.old).done (tree value))) }
    ensures granted { IsRoot level.old → IsOk result }
{
    if let Level::Fields(items) = level {
        items.push(value)?;
        return Ok(());
    }
    add_item(alloc, level, value)
}

/// The value of a finished node.
#[inline(always)]
pub(crate) fn closed(level: Level) -> Value
    ensures { IsOpen (level_of level).head → IsFilled (level_of level).head (level_of level).done
        → tree result ≡ closed_tree (level_of level) }
{
    match level {
        Level::Root(Some(value)) => value,
        Level::Root(None) => Value::Nothing,
        Level::Items { items, .. } => Value::List(items),
        Level::Fields(items) => Value::Group(items),
        Level::Choice {
            tag,
            part: Some(part),
        } => Value::Choice { tag, part },
        Level::Choice { part: None, .. } => Value::Nothing,
        Level::Maybe(part) => Value::Maybe(part),
    }
}

/// The value of the root, where it has one.
pub fn root_of(work: Level) -> Option<Value>
    ensures { MatchOption result ((v : Tree) → level_of work ≡ reported nothing (v ∷ []) → ⊥)
        (λ x. level_of work ≡ reported nothing (tree x ∷ [])) }
{
    match work {
        Level::Root(part) => part,
        Level::Items { .. } => None,
        Level::Fields(_) => None,
        Level::Choice { .. } => None,
        Level::Maybe(_) => None,
    }
}

/// A node that has begun. A structure has space for its fields, or the first of many; an array has none for the items
/// that bytes declare.
#[inline(always)]
pub(crate) fn begun(alloc: Global, node: Node) -> Result<Level, AllocError>
    ensures { IfOk result (λ l. level_of l ≡ reported (head_of_node node) []) }
{
    match node {
        Node::Items(count) => Ok(Level::Items {
            count,
            items: Vec::new(alloc),
        }),
        Node::Fields(count) => {
            let space = count.min(MOST_SPACE);
            Ok(Level::Fields(Vec::with_capacity(alloc, space)?))
        }
        Node::Tag(tag) => Ok(Level::Choice { tag, part: None }),
        Node::Present => Ok(Level::Maybe(None)),
    }
}
