//! Items of an array.
ghost use Rattle.std.specs.Prelude.{◌≡◌, ◌<◌, replicate, slice_get, IfOk};
ghost use Rattle.xdr_types.specs.Tree.{Values};
ghost use Rattle.xdr_types.specs.Fits.{item_part};
ghost use Rattle.xdr_paths.specs.Nodes.{nodes};
ghost use Rattle.xdr_paths.specs.Private.Standing.{Spells, Finds, HasItems, ItemBegins};

use crate::look::Look;
use crate::spot::Spot;
use xdr_types::{KindId, NoMemory};

impl<'a> Look<'a> {
    /// The item with this index, of so many that begin at a place; none, where there are not more.
    pub fn counted(
        &self,
        item: KindId,
        count: u32,
        at: usize,
        depth: u32,
        index: u32,
    ) -> Result<Option<Spot<'a>>, NoMemory>
        requires { HasItems self.now.schema.now.kinds self.now.limits self.now.bytes.now item.place count at }
        ensures { IfOk result (λ found. (vs : Values)
            → Spells self.now.schema.now.kinds self.now.limits self.now.bytes.now at depth
            (replicate count (item_part item.place)) vs
            → Finds self.now.schema.now.kinds self.now.limits self.now.bytes.now found
            (slice_get (nodes self.now.schema.now.kinds at depth (replicate count (item_part item.place)) vs) index)) }
    {
        if index >= count {
            return Ok(None);
        }
        let at = self.before_item(item, count, at, index)?;
        Ok(Some(Spot {
            at,
            depth,
            kind: item,
            name: "",
        }))
    }

    // Where the item with this index begins.
    fn before_item(
        &self,
        item: KindId,
        count: u32,
        at: usize,
        index: u32,
    ) -> Result<usize, NoMemory>
        requires some { HasItems self.now.schema.now.kinds self.now.limits self.now.bytes.now item.place count at }
        requires more { index < count }
        ensures { IfOk result (ItemBegins self.now.schema.now.kinds self.now.limits self.now.bytes.now item.place count
            at index) }
    {
        if let Some(extent) = self.schema.extent(item) {
            return Ok(at + index as usize * extent.bytes as usize);
        }
        let mut place = at;
        let mut left = index;
        while left > 0 {
            place = self.end_of(item, place)?;
            left -= 1;
        }
        Ok(place)
    }
}
