//! The items of an array, by their places in the text.
ghost use Rattle.std.specs.Prelude.{◌≡◌, ◌∷◌, [], codes, IfOk, MatchOption, ⊤};

use oncrpc_encode::{Item, an_array_has_one_reading, items_of};
use std::alloc::{AllocError, Global};

/// What stands in a string, or in brackets of an item's own, divides nothing: there are three items, and these are
/// their places.
pub fn three_items(alloc: Global, text: &[u8]) -> Result<Option<Vec<Item>>, AllocError>
    requires { text.now ≡ codes "[1, \"a,]\", {\"b\":[2]}]" }
    ensures { IfOk result (λ o. MatchOption o ⊥ (λ v. v.items ≡ record { begin = 1; end = 2 }
        ∷ record { begin = 4; end = 9 } ∷ record { begin = 11; end = 20 } ∷ [])) }
{
    an_array_has_one_reading();
    items_of(alloc, text, 3)
}

/// So it is no array of two items.
pub fn no_two_items(alloc: Global, text: &[u8]) -> Result<Option<Vec<Item>>, AllocError>
    requires { text.now ≡ codes "[1, \"a,]\", {\"b\":[2]}]" }
    ensures { IfOk result (λ o. MatchOption o ⊤ (λ v. ⊥)) }
{
    an_array_has_one_reading();
    items_of(alloc, text, 2)
}
