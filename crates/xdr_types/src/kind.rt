//! The kinds of XDR.
ghost use Rattle.std.specs.Cmp.{on_equiv, on_per, partial_equiv_from_equiv};
ghost use Rattle.std.specs.Ordering.{on};
ghost use Rattle.xdr_types.specs.KindViews.{part_of_member, branch_of, kind_view};
ghost use Rattle.xdr_types.specs.Alike.{same_part, same_branch, same_kind};
ghost use Rattle.xdr_types.specs.Private.Alike.{part_equivalence, branch_equivalence, kind_equivalence};

use std::string::String;

/// Names a kind of a schema by its place, which counts from 0.
#[derive(Clone, Copy, Debug, PartialEq, Eq)]
pub struct KindId {
    pub place: u32,
}

/// A field of a structure, or the part of a union's arm (RFC 4506 sections 4.14, 4.15). The name may be empty.
#[derive(Debug, Drop)]
pub struct Member {
    pub name: String,
    pub kind: KindId,
}

/// An arm of a union: the values of the discriminant that it stands under, and its part (RFC 4506 section 4.15).
#[derive(Debug, Drop)]
pub struct Arm {
    pub cases: Vec<i64>,
    pub member: Member,
}

/// A kind of XDR (RFC 4506 sections 4.1 to 4.19). Sizes and bounds count bytes of an opaque or a string, and items of
/// an array.
#[derive(Debug, Drop)]
pub enum Kind {
    Int,
    Unsigned,
    Hyper,
    UnsignedHyper,
    Bool,
    Numbered {
        members: Vec<(String, i32)>,
    },
    Opaque {
        size: u32,
    },
    OpaqueUpTo {
        max: u32,
    },
    Text {
        max: u32,
    },
    Fixed {
        item: KindId,
        size: u32,
    },
    UpTo {
        item: KindId,
        max: u32,
    },
    Structure {
        fields: Vec<Member>,
    },
    Choice {
        tag: KindId,
        arms: Vec<Arm>,
        other: Option<Member>,
    },
    Maybe {
        item: KindId,
    },
    Nothing,
}

impl PartialEq for Member {
    ghost eq = { on part_of_member same_part };

    ghost laws = { on_per part_of_member (partial_equiv_from_equiv part_equivalence) };

    fn eq(&self, other: &Member) -> bool {
        self.name == other.name && self.kind == other.kind
    }
}

impl Eq for Member {
    ghost laws = { on_equiv part_of_member part_equivalence };
}

impl PartialEq for Arm {
    ghost eq = { on branch_of same_branch };

    ghost laws = { on_per branch_of (partial_equiv_from_equiv branch_equivalence) };

    fn eq(&self, other: &Arm) -> bool {
        self.cases == other.cases && self.member == other.member
    }
}

impl Eq for Arm {
    ghost laws = { on_equiv branch_of branch_equivalence };
}

impl PartialEq for Kind {
    ghost eq = { on kind_view same_kind };

    ghost laws = { on_per kind_view (partial_equiv_from_equiv kind_equivalence) };

    fn eq(&self, other: &Kind) -> bool {
        match (self, other) {
            (Kind::Int, Kind::Int) => true,
            (Kind::Unsigned, Kind::Unsigned) => true,
            (Kind::Hyper, Kind::Hyper) => true,
            (Kind::UnsignedHyper, Kind::UnsignedHyper) => true,
            (Kind::Bool, Kind::Bool) => true,
            (Kind::Numbered { members: m }, Kind::Numbered { members: n }) => m == n,
            (Kind::Opaque { size: m }, Kind::Opaque { size: n }) => m == n,
            (Kind::OpaqueUpTo { max: m }, Kind::OpaqueUpTo { max: n }) => m == n,
            (Kind::Text { max: m }, Kind::Text { max: n }) => m == n,
            (Kind::Fixed { item: i, size: m }, Kind::Fixed { item: j, size: n }) => i == j
                && m == n,
            (Kind::UpTo { item: i, max: m }, Kind::UpTo { item: j, max: n }) => i == j && m == n,
            (Kind::Structure { fields: m }, Kind::Structure { fields: n }) => m == n,
            (
                Kind::Choice {
                    tag: s,
                    arms: m,
                    other: o,
                },
                Kind::Choice {
                    tag: t,
                    arms: n,
                    other: p,
                },
            ) => { (s == t && m == n) && o == p }
            (Kind::Maybe { item: i }, Kind::Maybe { item: j }) => i == j,
            (Kind::Nothing, Kind::Nothing) => true,
            _ => false,
        }
    }
}

impl Eq for Kind {
    ghost laws = { on_equiv kind_view kind_equivalence };
}
