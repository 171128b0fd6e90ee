//! The kind that a name names in what a text declares. It is a name of the schema, or the name of a procedure's
//! argument or result, `P.V.N.K` and `P.V.N.result` (RFC 5531, section 12.3).
#![tactic(auto)]

mod named;

pub use named::kind_named;
