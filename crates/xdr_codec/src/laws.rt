//! The laws on which decoding stands (RFC 4506). Each kind of a schema has a value, and no encoding of a kind begins
//! another. Values that share the first bytes of their encodings share the parts there. A unit is refused exactly where
//! no value goes on with it. Few nodes begin at one place. Bytes have one outcome, and one that is not pending stays.

pub use xdr_laws::{
    few_at_one_place, goes_on, held, one_outcome, outcomes_stay, parts_join, refused_for_good,
    same_parts, some_outcome, whole_exactly,
};
pub use xdr_types::{each_kind_has_a_value, each_spelling_is_one_value};
