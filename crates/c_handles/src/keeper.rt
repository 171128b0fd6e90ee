//! What a handle holds, taken out and kept.
ghost use Rattle.std.specs.Prelude.{◌≡◌, Option, Some, None, option_map};

use crate::loose::Loose;
use std::alloc::Global;
use std::mem::replace;
use std::ptr::null_mut;

/// A handle of C, which holds a box or none.
pub trait Keeper<T: Drop>: Sized {
    /// What it holds.
    ghost held: { Self → Option T };

    /// A handle of none.
    fn none(at: *mut u8) -> Self
        ensures { held result ≡ None };

    /// A handle of this.
    fn of(loose: Loose<T, Global>) -> Self
        ensures { held result ≡ Some loose.value };

    /// What it holds, where there is any.
    fn opened(self, alloc: Global) -> Option<Loose<T, Global>>
        ensures { option_map (λ b. b.value) result ≡ held self };
}

fn nowhere() -> *mut u8 {
    null_mut()
}

fn opened<T: Drop, K: Keeper<T>>(alloc: Global, handle: K) -> Option<Box<T>>
    ensures { option_map (λ b. b.value) result ≡ K.held handle }
{
    match handle.opened(alloc) {
        Some(loose) => Some(loose.into_box()),
        None => None,
    }
}

/// Takes out what the handle holds, and leaves none.
pub fn taken<T: Drop, K: Keeper<T>>(alloc: Global, handle: &mut K) -> Option<Box<T>>
    ensures taken { option_map (λ b. b.value) result ≡ K.held handle.old }
    ensures left { K.held handle.new ≡ None }
{
    let at = nowhere();
    opened(alloc, replace(handle, K::none(at)))
}

/// Keeps this; what was held before is freed.
pub fn keep<T: Drop, K: Keeper<T>>(alloc: Global, handle: &mut K, state: Box<T>)
    ensures { K.held handle.new ≡ Some state.value }
{
    let _before = opened(alloc, replace(handle, K::of(Loose::of(state))));
}
