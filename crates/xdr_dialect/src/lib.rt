//! The dialect of rpcgen (own, after rpcgen and the preprocessor that it runs): its texts as texts of the RFCs'
//! language, every place kept.
//!
//! - `plain`: a text without its lines of `%` and `#`, byte for byte
//! - `standing`: where a byte stands: its `spot` on the line, the `gate` of its section
//! - `directive`: what a line of `#` says, `blanks`: what stands between its words; `part`: where in it a byte stands
//! - `own_names`: the names that the text has defined so far; `identifier`: which names it can ask for
//! - `rewriting`: its tokens as tokens of the RFCs' language
//! - `turn`: what stands in place of a token, by those `ahead` of it and the `scope` in which it stands
//! - `library`: the names that rpcgen's library declares for C; `laws`: what a text of the language is here
#![tactic(auto)]

mod ahead;
mod blanks;
mod directive;
mod gate;
mod identifier;
mod laws;
mod library;
mod own_names;
mod part;
mod plain;
mod rewriting;
mod scope;
mod spot;
mod standing;
mod turn;

pub use identifier::is_identifier;
pub use laws::{constructs_are, lines_are, texts_stay, tokens_stay};
pub use plain::plain_text;
pub use rewriting::meant_tokens;
