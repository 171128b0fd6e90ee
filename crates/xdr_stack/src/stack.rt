//! A stack whose lowest items lie in it, and the others in blocks of forty.
ghost use Rattle.std.specs.Prelude.{◌≡◌, ◌+◌, ◌-◌, ◌^◌, ◌<◌, ◌≤◌, [], ◌∷◌, ◌++◌, length, min, OnOk, OnErr, MatchOption};
ghost use Rattle.std.specs.Option.{option_to_list};

use crate::blocks::Blocks;
use arrayvec::ArrayVec;
use std::alloc::{AllocError, Global};
use std::default::MadeWith;
use std::marker::Model;

/// How many items lie in the stack itself.
const NEAR: usize = 4;

/// How many lie in a block, so that a block of items of 24 bytes is below a kibibyte.
const FAR: usize = 40;

/// A stack. Its lowest four items take no memory of their own, and the others lie in blocks of forty.
#[derive(Drop)]
pub struct Stack<T: MadeWith<Global> + Drop> {
    near: ArrayVec<T, NEAR, Global>,
    /// The items above those. There are none unless those are four.
    far: Blocks<T, FAR>,
    /// How many items there are, or the most that a `usize` counts.
    count: usize,
}

impl<T: MadeWith<Global> + Drop> Model for Stack<T> {
    ghost use Rattle.std.specs.Prelude.{◌≡◌, ◌-◌, ◌^◌, ◌<◌, ◌≤◌, [], ◌++◌, length, min};
    ghost use Rattle.xdr_stack.specs.Stacks.{Items};

    ghost Value = { Items T };

    ghost view = { λ s. record { items = s.near.items ++ s.far.items } };

    ghost invariant = { λ s. record {
      few : length s.near.items ≤ 4;
      low : length s.near.items < 4 → s.far.items ≡ [];
      counts : s.count ≡ min (length (s.near.items ++ s.far.items)) (2 ^ 64 - 1);
    } };
}

// The count after one item fewer, of which so many are near: where it was the most that a `usize` counts, there may be
// more, and they are counted.
#[inline(always)]
fn less<T: Drop>(count: usize, near: usize, far: &Blocks<T, FAR>) -> usize
    ensures { count ≡ min (near + (length far.now.items + 1)) (2 ^ 64 - 1)
        → result ≡ min (near + length far.now.items) (2 ^ 64 - 1) }
{
    if count == usize::MAX {
        far.count().saturating_add(near)
    } else {
        count.saturating_sub(1)
    }
}

impl<T: MadeWith<Global> + Drop> Stack<T> {
    /// An empty stack. It takes no memory.
    pub fn new(alloc: Global) -> Stack<T>
        ensures { result.items ≡ [] }
    {
        Stack {
            near: ArrayVec::new_in(alloc),
            far: Blocks::new(alloc),
            count: 0,
        }
    }

    /// How many items there are, or the most that a `usize` counts.
    #[inline(always)]
    pub fn len(&self) -> usize
        ensures most { result ≤ length self.now.items }
        ensures exact { result < 2 ^ 64 - 1 → result ≡ length self.now.items }
    {
        self.count
    }

    /// Puts an item onto the others. Where memory is refused, nothing changes.
    #[inline(always)]
    pub fn push(&mut self, item: T) -> Result<(), AllocError>
        ensures items { OnOk result (self.new.items ≡ self.old.items ++ item ∷ []) }
        ensures stays { OnErr result (self.new.items ≡ self.old.items) }
    {
        let count = self.count.saturating_add(1);
        if self.near.len() < NEAR {
            self.near.push(item);
        } else {
            self.far.push(item)?;
        }
        self.count = count;
        Ok(())
    }

    /// Takes the item that was put last.
    #[inline(always)]
    pub fn pop(&mut self) -> Option<T>
        ensures items { self.old.items ≡ self.new.items ++ option_to_list result }
        ensures cases { MatchOption result ((length self.old.items ≡ 0) × (length self.new.items ≡ 0))
            (λ _. length self.new.items + 1 ≡ length self.old.items) }
    {
        if self.count > NEAR {
            return Some(self.pop_far());
        }
        let item = self.near.pop();
        self.count = self.near.len();
        item
    }

    // The same, where there is an item above the lowest four.
    #[inline(always)]
    fn pop_far(&mut self) -> T
        requires { 4 < length self.old.items }
        ensures items { self.old.items ≡ self.new.items ++ result ∷ [] }
    {
        let Some(item) = self.far.pop() else {
            unreachable!();
        };
        self.count = less(self.count, self.near.len(), &self.far);
        item
    }

    /// Gives back the memory of blocks that have no items.
    pub fn trim(&mut self)
        ensures { self.new.items ≡ self.old.items }
    {
        self.far.trim();
    }

    /// Drops all items, and gives back their memory.
    pub fn clear(&mut self)
        ensures { self.new.items ≡ [] }
    {
        self.near.clear();
        self.far.clear();
        self.count = 0;
    }
}
