//! Worked facts of calls that wait.
ghost use Rattle.std.specs.Prelude.{◌≡◌, None, Some, IfOk, true};

use oncrpc_messages::Asked;
use oncrpc_watch::CallTable;
use std::alloc::{AllocError, Global};

/// A reply is read by the call of its xid.
pub fn its_own_call(alloc: Global, call: Asked) -> Result<Option<Asked>, AllocError>
    ensures { IfOk result (λ found. found ≡ Some call) }
{
    let mut table = CallTable::new(alloc);
    table.note(3, 7, call)?;
    Ok(table.take(3, 7))
}

/// A call of another xid is not its call.
pub fn no_other_xid(alloc: Global, call: Asked) -> Result<Option<Asked>, AllocError>
    ensures { IfOk result (λ found. found ≡ None) }
{
    let mut table = CallTable::new(alloc);
    table.note(3, 7, call)?;
    Ok(table.take(3, 8))
}

/// Nor is one that went another way, whose number and xid come to the same sum.
pub fn no_other_way(alloc: Global, call: Asked) -> Result<Option<Asked>, AllocError>
    ensures { IfOk result (λ found. found ≡ None) }
{
    let mut table = CallTable::new(alloc);
    table.note(3, 7, call)?;
    Ok(table.take(4, 6))
}

/// A call is answered once.
pub fn once(alloc: Global, call: Asked) -> Result<Option<Asked>, AllocError>
    ensures { IfOk result (λ found. found ≡ None) }
{
    let mut table = CallTable::new(alloc);
    table.note(3, 7, call)?;
    let _first = table.take(3, 7);
    Ok(table.take(3, 7))
}

/// One of which memory is refused leaves the one that waits.
pub fn refused(alloc: Global, call: Asked, later: Asked) -> Result<Option<Asked>, AllocError>
    ensures { IfOk result (λ found. found ≡ Some call) }
{
    let mut table = CallTable::new(alloc);
    table.note(3, 7, call)?;
    match table.note(3, 7, later) {
        Ok(()) => Err(AllocError),
        Err(AllocError) => Ok(table.take(3, 7)),
    }
}

/// At first none waits.
pub fn none_at_first(alloc: Global) -> bool
    ensures { result ≡ true }
{
    let table = CallTable::new(alloc);
    table.is_empty()
}
