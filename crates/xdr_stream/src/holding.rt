//! What a reader holds.
ghost use Rattle.std.specs.Prelude.{◌≡◌, ◌+◌, ◌%◌, ◌^◌, ◌<◌, ◌≤◌, ℕ, List, length};
ghost use Rattle.xdr_stream.specs.Finish.{Represents, Checks};
ghost use Rattle.xdr_stream.specs.Represents.{IsWaiting};
ghost use Rattle.xdr_stream.specs.Held.{Counts, IsCount, IsDue, IsWithin, IsWhole, GoesOn, frames_at, nodes_at};
ghost use Rattle.xdr_stream.specs.Held.{pending_at};
ghost use Rattle.xdr_stream.specs.declared.reader.State.TheVariants.{Finished};

use crate::builder::Build;
use crate::builder::nothing::Nothing;
use crate::builder::values::Values;
use crate::reader::{Reader, State};

/// How much a reader holds.
#[derive(Clone, Copy, Debug, PartialEq, Eq)]
pub struct Held {
    /// The nodes that stand open: the one at work and its parents, what stands around the root among them.
    pub frames: usize,
    /// The nodes of the value so far. One that is due, or whose content is read, is among them.
    pub nodes: usize,
    /// Bytes of content (RFC 4506 sections 4.9 to 4.11).
    pub bytes: usize,
    /// Bytes of an unfinished unit (RFC 4506 section 3).
    pub pending: usize,
}

// How many frames stand open.
fn frames_of<B: Drop>(reader: &Reader<'_, B>) -> usize
    ensures { (GoesOn reader.now.state → length reader.now.parents.items ≤ 4096)
        → result ≡ frames_at reader.now.state reader.now.parents.items }
{
    match reader.state {
        State::Fresh => reader.parents.len().saturating_add(1),
        State::Reading(_) => reader.parents.len().saturating_add(1),
        State::Finished => 0,
        State::Failed(_) => 0,
    }
}

// How many bytes of an unfinished unit are there.
fn pending_of<B: Drop>(reader: &Reader<'_, B>) -> usize
    ensures count { result ≡ pending_at reader.now.state reader.now.pending }
    ensures space { length reader.now.unit ≡ 4 }
{
    match reader.state {
        State::Fresh => reader.pending,
        State::Reading(_) => reader.pending,
        State::Finished => 0,
        State::Failed(_) => 0,
    }
}

// How many nodes there are, the one that is due among them.
fn nodes_of(reader: &Reader<'_, Values>) -> usize
    ensures { reader.now.built.nodes + 1 < 2 ^ 64
        → result ≡ nodes_at reader.now.state (reader.now.built.nodes + 1) }
{
    match reader.state {
        State::Fresh => reader.built.nodes.saturating_add(1),
        State::Reading(_) => reader.built.nodes.saturating_add(1),
        State::Finished => reader.built.nodes,
        State::Failed(_) => reader.built.nodes,
    }
}

/// How much a decoder holds: after `Done` the value's nodes and content, after a refusal nothing. It takes no memory.
pub fn held_by_decoder(reader: &Reader<'_, Values>) -> Held
    // These are the counts of frames, nodes, bytes and pending bytes.
    ensures counts { (b : List ℕ) → Represents reader.now b → Counts reader.now result }
    // They keep to the limits and to what was given.
    ensures bounds { (b : List ℕ) → Represents reader.now b
        → IsWithin reader.now.schema.now.kinds reader.now.limits b result }
    // While bytes are taken, those of a unit that is not whole are pending.
    ensures pending { (b : List ℕ) → Represents reader.now b
        → GoesOn reader.now.state → result.pending ≡ length b % 4 }
    // Where a unit is needed the nodes and the content are those that the whole units bring.
    ensures due { (b : List ℕ) → IsWaiting reader.now.state → Represents reader.now b
        → IsDue reader.now.schema.now.kinds reader.now.kind.place b result }
    // After the last byte they are the value's nodes and content.
    ensures whole { (b : List ℕ) → reader.now.state ≡ Finished → Represents reader.now b
        → IsWhole reader.now.schema.now.kinds reader.now.kind.place reader.now.limits b result }
{
    let _known = reader.schema.len();
    let _in_range = reader.limits.depth();
    Held {
        frames: frames_of(reader),
        nodes: nodes_of(reader),
        bytes: reader.built.retained,
        pending: pending_of(reader),
    }
}

/// How much a checker holds: no node and no content. It takes no memory.
pub fn held_by_checker(reader: &Reader<'_, Nothing>) -> Held
    // No node and no content is held.
    ensures counts { (b : List ℕ) → Checks reader.now b → IsCount reader.now 0 0 result }
    // The frames keep to the limits and to what was given.
    ensures bounds { (b : List ℕ) → Checks reader.now b
        → IsWithin reader.now.schema.now.kinds reader.now.limits b result }
    // While bytes are taken, those of a unit that is not whole are pending.
    ensures pending { (b : List ℕ) → Checks reader.now b
        → GoesOn reader.now.state → result.pending ≡ length b % 4 }
{
    let _known = reader.schema.len();
    let _in_range = reader.limits.depth();
    Held {
        frames: frames_of(reader),
        nodes: 0,
        bytes: 0,
        pending: pending_of(reader),
    }
}
