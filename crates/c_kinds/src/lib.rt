//! Kinds that were declared, as C asks for them: which types a text declares, which kind a name names, what a kind is
//! made of, and its members. What each such call does, and how C sees its answer.
//!
//! - `asking`: the kind of a name, and what a kind is. `kind`: what C sees of one.
//! - `members`: a member by its place, or by a number. `types`: a type of the text by its place. `member`: what C sees
//!   of one.
//! - `answer`: the answers, and their statuses. `examples`: what the contracts make certain for chosen inputs.
#![tactic(auto)]

mod answer;
mod asking;
mod examples;
mod kind;
mod member;
mod members;
mod types;

pub use asking::{kind_by_name, kind_by_place};
pub use kind::KindParts;
pub use member::MemberParts;
pub use members::{member_by_number, member_by_place};
pub use types::type_by_index;
