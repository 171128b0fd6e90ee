//! The items of an array in JSON, by their places in the text (RFC 8259 section 5).
ghost use Rattle.std.specs.Prelude.{◌≡◌, ◌+◌, ◌-◌, ◌<◌, ◌≤◌, drop, length, option_map, IfOk, IfSome, IfNone, List};
ghost use Rattle.oncrpc_encode.specs.Arrays.{AreItems};
ghost use Rattle.oncrpc_encode.specs.declared.item.Item.{Item};
ghost use Rattle.oncrpc_encode.specs.Private.Scanned.{is_blank, item_at, items_from, items_in, last_at, opened};
ghost use Rattle.oncrpc_encode.specs.Private.Scanned.{past_spaces};

use super::item::Item;
use super::mark::is_space;
use super::scan::end_of;
use std::alloc::{AllocError, Global};

/// The places of the items of an array of so many, at least one; none where the text is no such array. Whether an item
/// is a JSON value is not looked at. It goes over the text once. The error is an allocation failure.
pub fn items_of(alloc: Global, text: &[u8], count: usize) -> Result<Option<Vec<Item>>, AllocError>
    // The text is an array of so many items, which are at the places that are answered,
    ensures found { IfOk result (λ o. IfSome o (λ v. AreItems text.now count v.items)) }
    // and where none are, it is no such array.
    ensures none { IfOk result (λ o. IfNone o ((items : List Item) → AreItems text.now count items → ⊥)) }
{
    if count == 0 {
        return Ok(None);
    }
    match opened(text) {
        Some(begin) => items_from(alloc, text, begin, count - 1),
        None => Ok(None),
    }
}

// The items that begin here, so many and one more, up to the end of the array.
fn items_from(
    alloc: Global,
    text: &[u8],
    begin: usize,
    more: usize,
) -> Result<Option<Vec<Item>>, AllocError>
    requires { begin ≤ length text.now }
    ensures { IfOk result (λ o. option_map (λ v. v.items) o ≡ items_from more text.now begin) }
{
    let mut items = Vec::new(alloc);
    let mut at = begin;
    for number in 0..more {
        match item_at(text, at, b',') {
            Some(item) => {
                items.push(item)?;
                at = item.end + 1;
            }
            None => return Ok(None),
        }
    }
    match last_at(text, at) {
        Some(last) => {
            items.push(last)?;
            Ok(Some(items))
        }
        None => Ok(None),
    }
}

// The item that begins here and is the last of an array.
fn last_at(text: &[u8], at: usize) -> Option<Item>
    requires { at ≤ length text.now }
    ensures { result ≡ last_at text.now at }
{
    let item = item_at(text, at, b']')?;
    if is_blank(text, item.end + 1) {
        Some(item)
    } else {
        None
    }
}

// The item that begins here or behind white space, where it ends before this byte.
fn item_at(text: &[u8], at: usize, closing: u8) -> Option<Item>
    requires { at ≤ length text.now }
    ensures found { result ≡ item_at text.now at closing }
    ensures inside { IfSome result (λ i. i.end < length text.now) }
{
    let begin = past_spaces(text, at);
    let end = end_of(text, begin)?;
    if text[end] == closing {
        Some(Item { begin, end })
    } else {
        None
    }
}

// The place behind the bracket with which an array begins.
fn opened(text: &[u8]) -> Option<usize>
    ensures found { result ≡ opened text.now }
    ensures inside { IfSome result (λ at. at ≤ length text.now) }
{
    let begin = past_spaces(text, 0);
    if begin < text.len() && text[begin] == b'[' {
        Some(begin + 1)
    } else {
        None
    }
}

// Whether nothing but white space is left.
fn is_blank(text: &[u8], at: usize) -> bool
    requires { at ≤ length text.now }
    ensures { result ≡ is_blank text.now at }
{
    past_spaces(text, at) == text.len()
}

// The place behind the white space that begins here.
#[tactic(auto, unfolding(crate::specs::Private::Scanned::past_spaces))]
fn past_spaces(text: &[u8], begin: usize) -> usize
    requires { begin ≤ length text.now }
    ensures found { result ≡ past_spaces begin (drop begin text.now) }
    ensures inside { result ≤ length text.now }
{
    for place in begin..text.len() {
        if !is_space(text[place]) {
            return place;
        }
    }
    text.len()
}
