//! What a walk takes of the parts: a list of them, or how many they are.
ghost use Rattle.std.specs.Prelude.{◌≡◌, ◌+◌, ◌<◌, ◌^◌, [], OnOk};
ghost use Rattle.xdr_parts.specs.Private.Taking.{HasTaken, TookOne};

use crate::part::Lent;
use std::alloc::{AllocError, Global};

/// What a walk has taken of the parts so far.
#[derive(Drop)]
pub struct Taken<'a> {
    /// Whether it lists them.
    pub lists: bool,
    /// The parts, where it lists them.
    pub list: Vec<Lent<'a>>,
    /// How many parts.
    pub parts: usize,
    /// How many bytes their names have, `usize::MAX` where they have more.
    pub names: usize,
}

impl<'a> Taken<'a> {
    /// Before any part. It takes no memory.
    pub fn none(alloc: Global, lists: bool) -> Taken<'a>
        ensures taken { HasTaken result [] }
        ensures lists { result.lists ≡ lists }
    {
        Taken {
            lists,
            list: Vec::new(alloc),
            parts: 0,
            names: 0,
        }
    }

    /// Forgets the parts so far, and keeps the memory of their list.
    pub fn clear(&mut self)
        ensures taken { HasTaken self.new [] }
        ensures lists { self.new.lists ≡ self.old.lists }
    {
        self.list.clear();
        self.parts = 0;
        self.names = 0;
    }

    /// Takes one part more. It takes memory only where it lists.
    pub fn take(&mut self, part: Lent<'a>) -> Result<(), AllocError>
        requires few { self.old.parts + 1 < 2 ^ 64 }
        ensures { OnOk result (TookOne self.old part.entry self.new) }
    {
        if self.lists {
            self.list.push(part)?;
        }
        self.parts += 1;
        self.names = self.names.saturating_add(part.name.len());
        Ok(())
    }
}
