//! The XDR language: what a text declares (RFC 4506 section 6, RFC 5531 section 12).
//!
//! - `text`: the public call, `read`; `of_tokens`: the same of tokens; `declarations`: what they give; `laws`: what
//!   follows from a text's meaning
//! - `meaning`: what an outline means, by `distinct` (no name or number twice, of `names`), `kinds`, `lists` and
//!   `programs`
//! - `places`, `type_table`: the kinds that the names of types stand for; `apart`: names that these tables know apart
//! - `lang_fault`: why a text is refused, with its line and column
//! - `first_fault`, `noted`, `type_names`: which fault of names and numbers stands first; `schema_fault`: a schema's
#![tactic(auto)]

mod apart;
mod declarations;
mod distinct;
mod first_fault;
mod kinds;
mod lang_fault;
mod laws;
mod lists;
mod meaning;
mod names;
mod noted;
mod of_tokens;
mod places;
mod programs;
mod schema_fault;
mod text;
mod type_names;
mod type_table;

pub use declarations::{Declared, Procedure, Program, Version};
pub use lang_fault::LangFault;
pub use laws::{older_texts_keep_their_meanings, one_meaning};
pub use of_tokens::{located, read_tokens};
pub use text::{MAX_TEXT, read};
