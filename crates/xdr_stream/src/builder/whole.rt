//! Parts that are there whole, added to the value that is made.
ghost use Rattle.std.specs.Prelude.{◌≡◌, ◌<◌, ◌≤◌, length, take, IfOk};
ghost use Rattle.xdr_types.specs.Fits.{Fits};
ghost use Rattle.xdr_types.specs.Tree.{Tree, depth};
ghost use Rattle.xdr_stream.specs.Trace.{Trace};
ghost use Rattle.xdr_stream.specs.Private.Ahead.{IsAhead};
ghost use Rattle.xdr_stream.specs.Private.Reported.{HasSpace, part_in};
ghost use Rattle.xdr_stream.specs.Values.{Reports};

use crate::builder::level::add;
use crate::builder::made::value_in;
use crate::builder::taken::whole_in;
use crate::builder::tally::Tally;
use crate::builder::values::Values;
use crate::runs::content::whole_ahead;
use std::alloc::AllocError;
use xdr_types::{KindId, Schema};

impl Values {
    /// A part that is content behind its length, as `field` takes it.
    #[inline(always)]
    pub(crate) fn content_of(
        &mut self,
        schema: &Schema,
        kind: KindId,
        levels: u32,
        bytes: &[u8],
    ) -> Result<usize, AllocError>
        requires known { kind.place < length schema.now.kinds }
        requires some { 0 < levels }
        ensures within { IfOk result (λ n. n ≤ length bytes.now) }
        ensures taken { IfOk result (λ n. 0 < n → (o : IsAhead schema.now.kinds kind.place levels (take n bytes.now))
            × ((t : Trace) → Reports self.old t → HasSpace t → Reports self.new (part_in o.value t))) }
        ensures stays { IfOk result (λ n. n ≡ 0 → (t : Trace) → Reports self.old t → Reports self.new t) }
    {
        let Some(whole) = whole_ahead(schema, kind, bytes) else {
            return Ok(0);
        };
        let mut tally = Tally {
            nodes: self.nodes,
            content: self.retained,
            at: 0,
        };
        let content = whole_in(self.alloc, whole, bytes, &mut tally)?;
        add(self.alloc, &mut self.work, content)?;
        self.nodes = tally.nodes;
        self.retained = tally.content;
        Ok(whole.all)
    }

    /// A part of at most so many levels, as `part` and `field` take it.
    pub(crate) fn made(
        &mut self,
        schema: &Schema,
        kind: KindId,
        levels: u32,
        bytes: &[u8],
    ) -> Result<usize, AllocError>
        requires known { kind.place < length schema.now.kinds }
        requires shallow { (v : Tree) → Fits schema.now.kinds kind.place v → depth v ≤ levels }
        ensures within { IfOk result (λ n. n ≤ length bytes.now) }
        ensures taken { IfOk result (λ n. 0 < n → (o : IsAhead schema.now.kinds kind.place levels (take n bytes.now))
            × ((t : Trace) → Reports self.old t → HasSpace t → Reports self.new (part_in o.value t))) }
        ensures stays { IfOk result (λ n. n ≡ 0 → (t : Trace) → Reports self.old t → Reports self.new t) }
    {
        let mut tally = Tally {
            nodes: self.nodes,
            content: self.retained,
            at: 0,
        };
        let alloc = self.alloc;
        let Some(value) = value_in(alloc, schema, kind, bytes, &mut tally)? else {
            return Ok(0);
        };
        if tally.at == 0 {
            return Ok(0);
        }
        add(self.alloc, &mut self.work, value)?;
        self.nodes = tally.nodes;
        self.retained = tally.content;
        Ok(tally.at)
    }
}
