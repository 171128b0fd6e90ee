//! The calls that wait for a reply.
ghost use Rattle.std.specs.Prelude.{◌≤◌};
ghost use Rattle.std.specs.BTreeMap.{btree_map_len};
ghost use Rattle.oncrpc_watch.specs.Apart.{AreApart};
ghost use Rattle.oncrpc_watch.specs.declared.table.TheConstants.{MOST_CALLS};

use crate::key::key;
use oncrpc_messages::Asked;
use std::alloc::{AllocError, Global};
use std::collections::BTreeMap;
use std::mem;

/// How many of the newest calls are kept, and how many older ones at most beside them.
pub const MOST_CALLS: usize = 65536;

/// Calls that wait for a reply, each by the way that it went and by its xid. The newest 65536 are kept, and as many
/// older ones at most.
#[derive(Drop)]
pub struct CallTable {
    alloc: Global,
    /// The calls that came last.
    newer: BTreeMap<u64, Asked>,
    /// Those that came before them.
    older: BTreeMap<u64, Asked>,
    ghost few_newer: { btree_map_len newer ≤ MOST_CALLS },
    ghost few_older: { btree_map_len older ≤ MOST_CALLS },
    ghost apart: { AreApart newer older },
}

impl CallTable {
    ghost use Rattle.std.specs.Prelude.{◌≡◌, ◌==◌, ℕ, ◌*◌, ◌≤◌, None, Some, OnErr, OnOk};
    ghost use Rattle.oncrpc_watch.specs.Waiting.{Answered, HasCalls, IsSame, Notes, spare_of, waiting};

    /// No call waits.
    pub fn new(alloc: Global) -> CallTable
        ensures empty { (way xid : ℕ) → waiting result way xid ≡ None }
        ensures spare { spare_of result ≡ MOST_CALLS }
    {
        CallTable {
            alloc,
            newer: BTreeMap::new(alloc),
            older: BTreeMap::new(alloc),
        }
    }

    /// How many more calls can be noted before one is forgotten for want of a place.
    pub fn spare(&self) -> usize
        ensures { result ≡ spare_of self.now }
    {
        MOST_CALLS - self.newer.len()
    }

    /// The call that waits on this way for a reply with this xid, if one does.
    pub fn find(&self, way: u32, xid: u32) -> Option<Asked>
        ensures { result ≡ waiting self.now way xid }
    {
        let at = key(way, xid);
        match self.newer.get(&at) {
            Some(call) => Some(*call),
            None => self.older.get(&at).copied(),
        }
    }

    /// How many calls wait: 131072 at most.
    pub fn len(&self) -> usize
        ensures calls { HasCalls self.now result }
        ensures most { result ≤ 2 * MOST_CALLS }
    {
        self.newer.len() + self.older.len()
    }

    /// Whether no call waits.
    pub fn is_empty(&self) -> bool
        ensures { (count : ℕ) × HasCalls self.now count × (result ≡ (count == 0)) }
    {
        self.len() == 0
    }

    /// Notes a call that went this way with this xid. An earlier one of the same way and xid waits no more. Where 65536
    /// have been noted since, the calls before these are forgotten. An error is an allocation failure: then nothing is
    /// noted, and none is forgotten.
    pub fn note(&mut self, way: u32, xid: u32, call: Asked) -> Result<(), AllocError>
        ensures notes { OnOk result (Notes self.old self.new way xid call) }
        ensures unchanged { OnErr result (IsSame self.old self.new) }
    {
        if self.newer.len() == MOST_CALLS {
            return self.note_first(way, xid, call);
        }
        let at = key(way, xid);
        match self.newer.insert(at, call) {
            Ok(_) => {
                let _earlier = self.older.remove(&at);
                Ok(())
            }
            Err(_) => Err(AllocError),
        }
    }

    // The same where 65536 calls came last: they are the older ones then.
    fn note_first(&mut self, way: u32, xid: u32, call: Asked) -> Result<(), AllocError>
        requires full { btree_map_len self.old.newer ≡ MOST_CALLS }
        ensures notes { OnOk result (Notes self.old self.new way xid call) }
        ensures unchanged { OnErr result (IsSame self.old self.new) }
    {
        let at = key(way, xid);
        let mut first = BTreeMap::new(self.alloc);
        match first.insert(at, call) {
            Ok(_) => {
                self.older = mem::replace(&mut self.newer, first);
                let _earlier = self.older.remove(&at);
                Ok(())
            }
            Err(_) => Err(AllocError),
        }
    }

    /// Takes the call to which a reply with this xid answers that came back on this way. None: no such call waits. It
    /// waits no more then.
    pub fn take(&mut self, way: u32, xid: u32) -> Option<Asked>
        // It is the call that was noted last with this way and this xid.
        ensures found { result ≡ waiting self.old way xid }
        ensures answered { Answered self.old self.new way xid }
    {
        let at = key(way, xid);
        let newer = self.newer.remove(&at);
        let older = self.older.remove(&at);
        newer.or(older)
    }
}
