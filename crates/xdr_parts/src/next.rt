//! The part of a node that comes next.
ghost use Rattle.std.specs.Prelude.{◌≡◌, [], ◌∷◌, MatchOption, IfSome};
ghost use Rattle.xdr_stream.specs.Frames.{left_of, rest_of};
ghost use Rattle.xdr_parts.specs.Private.Walking.{part_of};

use xdr_stream::machine::frame::Frame;
use xdr_types::KindId;

/// A named part: the name of a field or an arm, empty for items and the root.
#[derive(Clone, Copy)]
pub struct Next<'a> {
    pub kind: KindId,
    pub name: &'a str,
}

/// The part of a node at work that comes next; none, where all have begun.
pub fn first<'a>(frame: Frame<'a>) -> Option<Next<'a>>
    ensures { MatchOption result (left_of frame.entry ≡ [])
        (λ n. left_of frame.entry ≡ part_of n ∷ rest_of (left_of frame.entry)) }
{
    match frame {
        Frame::Fields { fields } => match fields {
            [field, ..] => Some(Next {
                kind: field.kind,
                name: field.name.as_str(),
            }),
            [] => None,
        },
        Frame::Items { item, left } => {
            if left == 0 {
                None
            } else {
                Some(Next {
                    kind: item,
                    name: "",
                })
            }
        }
        Frame::Arm { member } => Some(Next {
            kind: member.kind,
            name: member.name.as_str(),
        }),
    }
}

/// The field of a node at work that comes next, and the node after it; none of an array.
#[inline(always)]
pub fn first_field<'a>(frame: Frame<'a>) -> Option<(Next<'a>, Frame<'a>)>
    ensures { IfSome result (λ r. left_of frame.entry ≡ part_of r.0 ∷ left_of r.1) }
{
    match frame {
        Frame::Fields { fields } => match fields {
            [field, others @ ..] => {
                let next = Next {
                    kind: field.kind,
                    name: field.name.as_str(),
                };
                Some((next, Frame::Fields { fields: others }))
            }
            [] => None,
        },
        _ => None,
    }
}

/// The item of a node at work that comes next, and the node after it; none of a structure.
#[inline(always)]
pub fn first_item<'a>(frame: Frame<'a>) -> Option<(Next<'a>, Frame<'a>)>
    ensures { IfSome result (λ r. left_of frame.entry ≡ part_of r.0 ∷ left_of r.1) }
{
    match frame {
        Frame::Items { item, left } => {
            if left == 0 {
                return None;
            }
            let next = Next {
                kind: item,
                name: "",
            };
            let left = left - 1;
            Some((next, Frame::Items { item, left }))
        }
        _ => None,
    }
}
