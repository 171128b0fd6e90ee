//! The kinds and the values of XDR (RFC 4506): which lists of kinds make a schema, and which values are of a kind and
//! within limits. How many bytes values have, and when they are the same.
//!
//! The definitions that all crates stand on are in `specs/`: numbers and padding as bytes, schemas, values as trees,
//! which of them fit, their encodings, and the outcome of decoding.
//!
//! - `kind`, `schema`: kinds, and lists of them that name one another. `basic`: those without declarations. `value`:
//!   values, and their copies. `limits`: on depth and bytes.
//! - `fit`: whether a value is one of a kind and within limits. `sizes`: how many bytes it has. `choice`: tags and
//!   parts of a union. `picked`: the member or the part that a number picks, found in few steps. `equal`: `==` of
//!   values.
//! - `faults`, `names`: the first flaw of a kind and of a name. `places`, `tags`, `empty`, `twice`: one flaw each.
//!   `rising`: cases of which none is there twice. `fault`: flaws, and their places.
//! - `heights`: which kinds have a finite value. `reach`: which defaults can be reached. `sets`: numbers and cases as
//!   sets.
//! - `extent`: what all values of a kind share, where their size does not vary. `decided`: the one unit that decides
//!   whether so many bytes are a value's. `levels`: how deep they are at most. `lookups`: numbers in order. `notes`:
//!   all four, noted of each kind when a schema is built.
//! - `laws`: theorems about the definitions.
#![tactic(auto)]

mod basic;
mod choice;
mod decided;
mod empty;
mod equal;
mod extent;
mod fault;
mod faults;
mod fit;
mod heights;
mod kind;
mod laws;
mod levels;
mod limits;
mod lookups;
mod names;
mod notes;
mod picked;
mod places;
mod reach;
mod rising;
mod schema;
mod sets;
mod sizes;
mod tags;
mod twice;
mod value;

pub use basic::{basic_kinds, basic_names};
pub use choice::{is_legal_tag, is_number_of, part_under};
pub use decided::Decided;
pub use equal::is_equal;
pub use extent::Extent;
pub use fault::{Flaw, SchemaFault};
pub use fit::fits;
pub use kind::{Arm, Kind, KindId, Member};
pub use laws::{each_kind_has_a_value, each_spelling_is_one_value, no_schema_has_a_fault};
pub use limits::Limits;
pub use picked::{member_in, part_in};
pub use schema::{Schema, is_same_schema};
pub use sizes::size;
pub use value::Value;
pub use xdr_units::NoMemory;
