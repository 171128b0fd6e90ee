//! What a text in rpcgen's dialect declares (own, after rpcgen): `read_dialect`, beside `xdr_lang::read`.
//!
//! - `reading`: the public call; `laws`: what a text of the RFCs' language means here
//! - `files`: several texts as one, and the text of a line
#![tactic(auto)]

mod files;
mod laws;
mod reading;

pub use files::{join_texts, place_in};
pub use laws::texts_keep_their_meanings;
pub use reading::read_dialect;
