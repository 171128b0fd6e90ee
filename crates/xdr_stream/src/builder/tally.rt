//! What is counted of values that are made at once.
ghost use Rattle.std.specs.Prelude.{◌≡◌};
ghost use Rattle.xdr_stream.specs.Private.Made.{Adds};

/// How many nodes there are, how many bytes of content, and how many bytes of the input they took.
#[derive(Clone, Copy)]
pub struct Tally {
    pub nodes: usize,
    pub content: usize,
    pub at: usize,
}

/// One node more.
pub(crate) fn count_node(tally: &mut Tally)
    ensures adds { Adds tally.old tally.new 1 0 }
    ensures at { tally.new.at ≡ tally.old.at }
{
    tally.nodes = tally.nodes.saturating_add(1);
}
