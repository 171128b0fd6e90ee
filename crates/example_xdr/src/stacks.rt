//! The stack on which a decoder keeps the nodes at work.
ghost use Rattle.std.specs.Prelude.{◌≡◌, Some, None, IfOk};

use std::alloc::{AllocError, Global};
use xdr_stack::Stack;

/// What was put last is taken first, and then no item is left.
pub fn takes_the_last_first(
    alloc: Global,
) -> Result<(Option<u32>, Option<u32>, Option<u32>), AllocError>
    ensures { IfOk result (λ taken. taken ≡ (Some 2, Some 1, None)) }
{
    let mut stack = Stack::new(alloc);
    stack.push(1)?;
    stack.push(2)?;
    Ok((stack.pop(), stack.pop(), stack.pop()))
}

/// A stack that was cleared has no items.
pub fn clears_all(alloc: Global) -> Result<Option<u32>, AllocError>
    ensures { IfOk result (λ taken. taken ≡ None) }
{
    let mut stack = Stack::new(alloc);
    stack.push(1)?;
    stack.clear();
    Ok(stack.pop())
}
