//! Blocks of items, one upon the other.
ghost use Rattle.std.specs.Prelude.{◌≡◌, ◌-◌, ◌^◌, ◌<◌, [], ◌++◌, length, min, IfSome, MatchOption};
ghost use Rattle.xdr_stack.specs.Chains.{chain_items, AreFilled};

use std::mem;

/// Items in an allocation of their own, and the blocks below.
#[cycle(chain)]
#[derive(Drop)]
pub(crate) struct Block<T> {
    pub(crate) items: Vec<T>,
    pub(crate) below: Chain<T>,
}

/// The blocks from one down to the lowest.
#[cycle(chain)]
pub(crate) enum Chain<T> {
    End,
    More(Box<Block<T>>),
}

// A loop, so that many blocks need no more of the machine's stack than one.
impl<T: Drop> Drop for Chain<T> {
    fn drop(mut self) {
        loop {
            match self {
                Chain::End => return,
                Chain::More(block) => {
                    let Block { items: _, below } = Box::into_inner(block);
                    self = below;
                }
            }
        }
    }
}

impl<T> Chain<T> {
    /// How many items there are, or the most that a `usize` counts.
    #[cold]
    pub(crate) fn count(&self) -> usize
        ensures { result ≡ min (length (chain_items self.now)) (2 ^ 64 - 1) }
    {
        match self {
            Chain::End => 0,
            Chain::More(block) => block.below.count().saturating_add(block.items.len()),
        }
    }
}

impl<T: Drop> Chain<T> {
    // The highest block.
    fn highest(self) -> Option<Box<Block<T>>>
        ensures items { MatchOption result (chain_items self ≡ [])
            (λ b. chain_items self ≡ chain_items b.value.below ++ b.value.items.items) }
        ensures filled { IfSome result
            (λ b. AreFilled self → (0 < length b.value.items.items) × AreFilled b.value.below) }
    {
        match self {
            Chain::End => None,
            Chain::More(block) => Some(block),
        }
    }

    /// Takes the highest block off.
    pub(crate) fn pop(&mut self) -> Option<Box<Block<T>>>
        ensures items { MatchOption result ((chain_items self.old ≡ []) × (chain_items self.new ≡ []))
            (λ b. chain_items self.old ≡ chain_items self.new ++ b.value.items.items) }
        ensures filled { AreFilled self.old → AreFilled self.new }
        ensures has { IfSome result (λ b. AreFilled self.old → 0 < length b.value.items.items) }
    {
        let mut block = mem::replace(self, Chain::End).highest()?;
        mem::swap(self, &mut block.below);
        Some(block)
    }

    /// Puts a block onto the others. What was below it is dropped.
    pub(crate) fn push(&mut self, mut block: Box<Block<T>>)
        ensures items { chain_items self.new ≡ chain_items self.old ++ block.value.items.items }
        ensures filled { AreFilled self.old → 0 < length block.value.items.items → AreFilled self.new }
    {
        mem::swap(self, &mut block.below);
        *self = Chain::More(block);
    }
}
