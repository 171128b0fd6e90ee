//! Members of an object, by their keys.
ghost use Rattle.std.specs.Prelude.{◌≡◌, true, false, MatchOption};
ghost use Rattle.xdr_json.specs.Spelled.{has_key, at_key};
ghost use Rattle.xdr_json_reader.specs.Tape.{json_in, members_of};
ghost use Rattle.xdr_json_reader.specs.Private.Look.{pairs};
ghost use Rattle.xdr_json_reader.specs.Reasons.{IsOfMembers};

use crate::fault::{JsonFault, JsonReason};
use crate::tape::{Key, Node};

/// The value of the first member with the key, looked for one by one.
pub fn member_at<'v, 'a>(members: &'v Vec<(Key<'a>, Node<'a>)>, key: &str) -> Option<&'v Node<'a>>
    ensures { MatchOption result (has_key (members_of (pairs members.now.items)) key.now ≡ false)
        (λ n. (has_key (members_of (pairs members.now.items)) key.now ≡ true)
        × (at_key (members_of (pairs members.now.items)) key.now ≡ json_in n.now)) }
{
    for member in members {
        if member.0.name == key {
            return Some(&member.1);
        }
    }
    None
}

/// An object at a place has other members than its kind. Which of them is refused, the walk in the order of the text
/// finds.
pub fn other_members(at: usize) -> JsonFault
    ensures { IsOfMembers result.why }
{
    JsonFault {
        why: JsonReason::MissingMember,
        at,
    }
}
