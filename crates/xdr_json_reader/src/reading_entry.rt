//! The nodes that are still to be read, each for a kind; the next one last.
ghost use Rattle.std.specs.Prelude.{◌≡◌, ◌++◌, ◌∷◌, length, replicate, map, OnOk};
ghost use Rattle.xdr_types.specs.Fits.{item_part};
ghost use Rattle.xdr_json_reader.specs.Tape.{json_in};
ghost use Rattle.xdr_json_reader.specs.Nodes.{each};
ghost use Rattle.xdr_json_reader.specs.Private.Entries.{dues};

use crate::reading_names::Names;
use crate::tape::Node;
use xdr_types::{KindId, NoMemory};

/// A node that stands for a value of a kind.
#[derive(Clone, Copy)]
pub struct Entry<'v, 'a> {
    pub kind: KindId,
    pub node: &'v Node<'a>,
}

/// The node that is read next, the names that it may tell, where there is a table of them, and an object without
/// members, which stands for what is void.
#[derive(Clone, Copy)]
pub struct Turn<'v, 'a, 'n, 's> {
    pub next: Entry<'v, 'a>,
    pub names: Option<&'n Names<'s>>,
    pub empty: &'v Node<'a>,
}

/// One more node, which is read next.
pub fn push_node<'v, 'a>(
    due: &mut Vec<Entry<'v, 'a>>,
    kind: KindId,
    node: &'v Node<'a>,
) -> Result<(), NoMemory>
    ensures { OnOk result (dues due.new.items ≡ (kind.place, json_in node.now) ∷ dues due.old.items) }
{
    due.push(Entry { kind, node })?;
    Ok(())
}

/// Items of a kind, the first of which is read next.
pub fn push_items<'v, 'a>(
    due: &mut Vec<Entry<'v, 'a>>,
    kind: KindId,
    items: &'v Vec<Node<'a>>,
) -> Result<(), NoMemory>
    ensures { OnOk result (dues due.new.items
        ≡ each (replicate (length items.now.items) (item_part kind.place)) (map json_in items.now.items)
        ++ dues due.old.items) }
{
    let mut left = items.len();
    while left > 0 {
        left -= 1;
        push_node(due, kind, &items[left])?;
    }
    Ok(())
}
