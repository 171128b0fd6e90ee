//! What is known of what is due, and which numbers of one unit are due one after another.
ghost use Rattle.std.specs.Prelude.{◌≡◌, ◌<◌, length, MatchOption, ⊤};
ghost use Rattle.xdr_types.specs.Kinds.{kind_at};
ghost use Rattle.xdr_due.specs.declared.due.Due.TheVariants.{Unit};
ghost use Rattle.xdr_writer.specs.Items as item;
ghost use Rattle.xdr_writer.specs.Items.{item_view};
ghost use Rattle.xdr_writer.specs.Represents.{word_kind};
ghost use Rattle.xdr_writer.specs.Private.Runs.{IsRun};

use crate::item::Item;
use xdr_codec::Due;
use xdr_types::{Kind, KindId, Schema};

/// So many numbers of one unit, signed or not, are due one after another; of none nothing is known.
#[derive(Clone, Copy)]
pub(crate) struct Run {
    pub(crate) left: usize,
    pub(crate) signed: bool,
}

/// What is known of what is due.
#[derive(Clone, Copy)]
pub(crate) struct Known {
    /// Whether a unit is known to be needed.
    pub(crate) waits: bool,
    pub(crate) run: Run,
}

/// No number is known to be due.
pub(crate) fn no_run() -> Run
    ensures { result.left ≡ 0 }
{
    Run {
        left: 0,
        signed: false,
    }
}

// Whether a kind is that of signed integers of one unit, or of unsigned ones; nothing of another.
fn word_of(schema: &Schema, id: KindId) -> Option<bool>
    ensures { MatchOption result ⊤ (λ signed. kind_at schema.now.kinds id.place ≡ word_kind signed) }
{
    if !schema.has(id) {
        return None;
    }
    match schema.kind(id) {
        Kind::Int => Some(true),
        Kind::Unsigned => Some(false),
        _ => None,
    }
}

// The numbers that follow a count where an array is due.
fn counted_run(schema: &Schema, id: KindId, count: u32) -> Run
    ensures { IsRun schema.now.kinds (Unit id) (item.count count) result.left result.signed }
{
    if !schema.has(id) {
        return no_run();
    }
    match schema.kind(id) {
        Kind::UpTo { item, .. } => match word_of(schema, *item) {
            Some(signed) => Run {
                left: count as usize,
                signed,
            },
            None => no_run(),
        },
        _ => no_run(),
    }
}

/// The numbers that follow an item where this is due.
pub(crate) fn run_of(schema: &Schema, due: Due, item: Item<'_>) -> Run
    ensures { IsRun schema.now.kinds due (item_view item.entry) result.left result.signed }
{
    match due {
        Due::Unit(id) => match item {
            Item::Count(count) => counted_run(schema, id, count),
            _ => no_run(),
        },
        _ => no_run(),
    }
}
