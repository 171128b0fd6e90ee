//! The part that a path leads to.
ghost use Rattle.std.specs.Prelude.{IfOk};
ghost use Rattle.xdr_paths.specs.Nodes.{Node};
ghost use Rattle.xdr_paths.specs.Private.Standing.{StandsAt, HasPart, TextLeadsTo, PathLeadsTo};

use crate::look::Look;
use crate::spot::Spot;
use crate::steps::{first_step, next_step};
use xdr_parts::Lent;
use xdr_types::NoMemory;

impl<'a> Look<'a> {
    /// The part that the path with this text leads to from a node; none where it leads nowhere.
    pub fn at_path(&self, spot: Spot<'a>, path: &[u8]) -> Result<Option<Lent<'a>>, NoMemory>
        requires { (n : Node) × StandsAt self.now.schema.now.kinds self.now.limits self.now.bytes.now spot n }
        ensures { IfOk result (λ found. (n : Node)
            → StandsAt self.now.schema.now.kinds self.now.limits self.now.bytes.now spot.entry n
            → HasPart self.now.bytes.now found (PathLeadsTo self.now.schema.now.kinds n path.now)) }
    {
        if path.is_empty() {
            return Ok(Some(self.part(&spot)));
        }
        let Some((step, rest)) = first_step(path) else {
            return Ok(None);
        };
        let Some(inner) = self.inside(&spot, step)? else {
            return Ok(None);
        };
        self.along(self.settled(inner), rest)
    }

    // The part that the steps with this text lead to.
    fn along(&self, spot: Spot<'a>, text: &[u8]) -> Result<Option<Lent<'a>>, NoMemory>
        requires { (n : Node) × StandsAt self.now.schema.now.kinds self.now.limits self.now.bytes.now spot n }
        ensures { IfOk result (λ found. (n : Node)
            → StandsAt self.now.schema.now.kinds self.now.limits self.now.bytes.now spot.entry n
            → HasPart self.now.bytes.now found (TextLeadsTo self.now.schema.now.kinds n text.now)) }
    {
        let mut place = spot;
        let mut left = text;
        while !left.is_empty() {
            let Some((step, rest)) = next_step(left) else {
                return Ok(None);
            };
            let Some(inner) = self.inside(&place, step)? else {
                return Ok(None);
            };
            place = self.settled(inner);
            left = rest;
        }
        Ok(Some(self.part(&place)))
    }
}
