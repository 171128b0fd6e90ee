//! Items in blocks.
ghost use Rattle.std.specs.Prelude.{◌≡◌, ◌+◌, ◌-◌, ◌^◌, ◌<◌, [], ◌∷◌, ◌++◌, length, min};
ghost use Rattle.std.specs.Prelude.{OnOk, OnErr, IfOk, MatchOption, vec_len, vec_capacity};
ghost use Rattle.std.specs.Option.{option_to_list};
ghost use Rattle.xdr_stack.specs.Chains.{chain_items, AreFilled};
ghost use Rattle.xdr_stack.specs.Private.Filled.{one_filled};

use crate::chain::{Block, Chain};
use std::alloc::{AllocError, Global};
use std::marker::Model;
use std::mem;

/// Items, one upon the other, in blocks of `MOST` at most. The blocks that they filled once are kept for those to come.
///
/// `MOST` is to be such that a block is below a kibibyte: asked for as much, the C library joins all small blocks that
/// it keeps, and has to cut each later one anew.
#[derive(Drop)]
pub struct Blocks<T, const MOST: usize> {
    alloc: Global,
    /// The items above the full blocks.
    top: Vec<T>,
    full: Chain<T>,
    spare: Chain<T>,
    ghost filled: { AreFilled full } by { one_filled full },
}

impl<T, const MOST: usize> Model for Blocks<T, MOST> {
    ghost use Rattle.std.specs.Prelude.{◌++◌};
    ghost use Rattle.xdr_stack.specs.Stacks.{Items};
    ghost use Rattle.xdr_stack.specs.Chains.{chain_items, AreFilled};

    ghost Value = { Items T };

    ghost view = { λ b. record { items = chain_items b.full ++ b.top.items } };
}

// A spare block, or a new one, without items.
fn empty_block<T: Drop>(alloc: Global, spare: &mut Chain<T>) -> Result<Box<Block<T>>, AllocError>
    ensures { IfOk result (λ b. b.value.items.items ≡ []) }
{
    if let Some(mut block) = spare.pop() {
        block.items.clear();
        return Ok(block);
    }
    let items = Vec::new(alloc);
    let below = Chain::End;
    Ok(Box::new(alloc, Block { items, below })?)
}

// How many items more the top is to have space for: the lowest block grows, each other one is made whole.
fn space_for<T>(most: usize, top: usize, full: &Chain<T>) -> usize
    requires { top < most }
    ensures { 0 < result }
{
    match full {
        Chain::End => top.max(4).min(most - top),
        Chain::More(_) => most - top,
    }
}

// Makes space for an item at the top: in a larger block, or in an empty one over the full ones.
#[cold]
#[inline(never)]
fn make_space<T: Drop>(
    alloc: Global,
    most: usize,
    top: &mut Vec<T>,
    full: &mut Chain<T>,
    spare: &mut Chain<T>,
) -> Result<(), AllocError>
    ensures items { chain_items full.new ++ top.new.items ≡ chain_items full.old ++ top.old.items }
    ensures filled { AreFilled full.old → AreFilled full.new }
    ensures space { OnOk result (vec_len top.new < vec_capacity top.new) }
{
    let most = most.max(1);
    if top.len() >= most {
        let mut block = empty_block(alloc, spare)?;
        mem::swap(top, &mut block.items);
        full.push(block);
    }
    top.reserve_exact(space_for(most, top.len(), full))
}

// Makes the highest full block the top, which has no items.
#[cold]
#[inline(never)]
fn lower<T: Drop>(top: &mut Vec<T>, full: &mut Chain<T>, spare: &mut Chain<T>)
    requires { top.old.items ≡ [] }
    ensures items { chain_items full.new ++ top.new.items ≡ chain_items full.old }
    ensures filled { AreFilled full.old → AreFilled full.new }
    ensures some { AreFilled full.old → 0 < length (chain_items full.old) → 0 < vec_len top.new }
{
    if let Some(mut block) = full.pop() {
        mem::swap(top, &mut block.items);
        spare.push(block);
    }
}

impl<T: Drop, const MOST: usize> Blocks<T, MOST> {
    /// No items. It takes no memory.
    pub fn new(alloc: Global) -> Blocks<T, MOST>
        ensures { result.items ≡ [] }
    {
        Blocks {
            alloc,
            top: Vec::new(alloc),
            full: Chain::End,
            spare: Chain::End,
        }
    }

    // How many items there are, or the most that a `usize` counts.
    #[cold]
    pub(crate) fn count(&self) -> usize
        ensures { result ≡ min (length self.now.items) (2 ^ 64 - 1) }
    {
        self.full.count().saturating_add(self.top.len())
    }

    /// Puts an item onto the others. Where memory is refused, nothing changes.
    #[inline(always)]
    pub fn push(&mut self, item: T) -> Result<(), AllocError>
        ensures items { OnOk result (self.new.items ≡ self.old.items ++ item ∷ []) }
        ensures stays { OnErr result (self.new.items ≡ self.old.items) }
    {
        if self.top.len() == self.top.capacity() {
            make_space(
                self.alloc,
                MOST,
                &mut self.top,
                &mut self.full,
                &mut self.spare,
            )?;
        }
        self.top.push_reserved(item);
        Ok(())
    }

    /// Takes the item that was put last.
    #[inline(always)]
    pub fn pop(&mut self) -> Option<T>
        ensures items { self.old.items ≡ self.new.items ++ option_to_list result }
        ensures cases { MatchOption result ((length self.old.items ≡ 0) × (length self.new.items ≡ 0))
            (λ _. length self.new.items + 1 ≡ length self.old.items) }
    {
        if let Some(item) = self.top.pop() {
            return Some(item);
        }
        lower(&mut self.top, &mut self.full, &mut self.spare);
        self.top.pop()
    }

    /// Gives back the memory of blocks that have no items.
    pub fn trim(&mut self)
        ensures { self.new.items ≡ self.old.items }
    {
        self.spare = Chain::End;
        if self.top.is_empty() {
            self.top = Vec::new(self.alloc);
        }
    }

    /// Drops all items, and gives back their memory.
    pub fn clear(&mut self)
        ensures { self.new.items ≡ [] }
    {
        *self = Blocks::new(self.alloc);
    }
}
