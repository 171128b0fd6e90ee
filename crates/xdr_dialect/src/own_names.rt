//! The names that a text has defined so far.
ghost use Rattle.std.specs.Prelude.{◌≡◌, ℕ, OnOk, OnErr, List, [], ◌∷◌, ◌++◌};
ghost use Rattle.xdr_dialect.specs.Answers.{texts};
ghost use Rattle.xdr_dialect.specs.Directives.{is_among};
ghost use Rattle.xdr_dialect.specs.Private.Owned.{HasAll};

use std::alloc::{AllocError, Global};
use std::collections::BTreeSet;

/// The names that a text has defined so far: as a list, and as the set in which one is looked up.
#[derive(Drop)]
pub(crate) struct OwnNames<'a> {
    /// In text order, each as often as it was defined.
    pub(crate) list: Vec<&'a [u8]>,
    set: BTreeSet<&'a [u8]>,
    ghost has_all: { HasAll set (texts list.items) },
}

/// One more name in a set.
#[tactic(auto, using(crate::proofs::Owned::one_more))]
fn add_to<'a>(set: &mut BTreeSet<&'a [u8]>, name: &'a [u8]) -> Result<(), AllocError>
    ensures added { (ns : List (List ℕ)) → HasAll set.old ns → OnOk result (HasAll set.new (ns ++ name.now ∷ [])) }
    ensures stays { (ns : List (List ℕ)) → HasAll set.old ns → OnErr result (HasAll set.new ns) }
{
    set.insert(name)?;
    Ok(())
}

impl<'a> OwnNames<'a> {
    /// None.
    pub(crate) fn new(alloc: Global) -> OwnNames<'a>
        ensures { texts result.list.items ≡ [] }
    {
        OwnNames {
            list: Vec::new(alloc),
            set: BTreeSet::new(alloc),
        }
    }

    /// One more. Its place in the list is reserved before the set gets it, so that both stay where memory is refused at
    /// either.
    pub(crate) fn push(&mut self, name: &'a [u8]) -> Result<(), AllocError>
        ensures added { OnOk result (texts self.new.list.items ≡ texts self.old.list.items ++ name.now ∷ []) }
        ensures stays { OnErr result (texts self.new.list.items ≡ texts self.old.list.items) }
    {
        self.list.reserve(1)?;
        add_to(&mut self.set, name)?;
        self.list.push_reserved(name);
        Ok(())
    }

    /// The name is one of them.
    pub(crate) fn has(&self, name: &[u8]) -> bool
        ensures { result ≡ is_among (texts self.now.list.items) name.now }
    {
        self.set.contains(name)
    }
}
