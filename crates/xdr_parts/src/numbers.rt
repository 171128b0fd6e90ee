//! Numbers that are fields or items, taken one after another.
ghost use Rattle.std.specs.Prelude.{◌≡◌, ◌<◌, ◌≤◌, true, ◌∷◌, IfOk, OnOk};
ghost use Rattle.xdr_stream.specs.Frames.{left_of};
ghost use Rattle.xdr_parts.specs.Private.Walking.{part_of, Aim, HasWalked};

use crate::next::{Next, first_field, first_item};
use crate::part::{Role, number_size};
use crate::walk::Walk;
use std::alloc::AllocError;
use xdr_stream::machine::frame::Frame;

impl<'a> Walk<'a> {
    /// Takes the fields of the node at work that come next, as long as they are numbers and fewer parts are taken.
    pub(crate) fn take_fields(&mut self, most: usize) -> Result<(), AllocError>
        requires { (all : Aim) × HasWalked self.old all }
        ensures walked { OnOk result ((all : Aim) → HasWalked self.old all → HasWalked self.new all) }
        ensures more { OnOk result (self.old.taken.parts ≤ self.new.taken.parts) }
        ensures bytes { OnOk result (self.new.bytes.now ≡ self.old.bytes.now) }
    {
        while self.taken.parts < most {
            let Some((next, rest)) = first_field(self.work) else {
                return Ok(());
            };
            if !self.take_number(next, rest)? {
                return Ok(());
            }
        }
        Ok(())
    }

    /// The same of the items of an array.
    pub(crate) fn take_items(&mut self, most: usize) -> Result<(), AllocError>
        requires { (all : Aim) × HasWalked self.old all }
        ensures walked { OnOk result ((all : Aim) → HasWalked self.old all → HasWalked self.new all) }
        ensures more { OnOk result (self.old.taken.parts ≤ self.new.taken.parts) }
        ensures bytes { OnOk result (self.new.bytes.now ≡ self.old.bytes.now) }
    {
        while self.taken.parts < most {
            let Some((next, rest)) = first_item(self.work) else {
                return Ok(());
            };
            if !self.take_number(next, rest)? {
                return Ok(());
            }
        }
        Ok(())
    }

    // Takes the part that comes next, if it is a number; tells whether it is. That the number is one of its kind is
    // known, and is not asked again.
    #[inline(always)]
    fn take_number(&mut self, next: Next<'a>, rest: Frame<'a>) -> Result<bool, AllocError>
        requires walked { (all : Aim) × HasWalked self.old all }
        requires due { left_of self.old.work ≡ part_of next ∷ left_of rest }
        ensures walked { OnOk result ((all : Aim) → HasWalked self.old all → HasWalked self.new all) }
        ensures more { IfOk result (λ taken. taken ≡ true → self.old.taken.parts < self.new.taken.parts) }
        ensures kept { OnOk result (self.old.taken.parts ≤ self.new.taken.parts) }
        ensures bytes { OnOk result (self.new.bytes.now ≡ self.old.bytes.now) }
    {
        let kind = self.schema.kind(next.kind);
        let Some(size) = number_size(kind) else {
            return Ok(false);
        };
        self.take_free(next, kind, Role::Number, size, rest)?;
        Ok(true)
    }
}
