//! The encoding of XDR values, and their decoding.
//!
//! - `encoding`: a value as bytes. `writing`: the same into a sink.
//! - `pushing`: the bytes of a value, node by node. `put`: where they go. `gather`: bytes gathered on their way to a
//!   sink.
//! - `decoding`: bytes as a value. `decoder`: bytes in pieces as a value. `checker`: bytes in pieces without a value.
//! - `laws`: the laws on which decoding stands.
#![tactic(auto)]

mod checker;
mod decoder;
mod decoding;
mod encoding;
mod gather;
pub mod laws;
mod pushing;
mod put;
mod writing;

pub use checker::Checker;
pub use decoder::Decoder;
pub use decoding::decode;
pub use encoding::encode;
pub use writing::{WriteFault, encode_to};
pub use xdr_due::Due;
pub use xdr_parts::{Lent, PartCounts, Role, SizedParts, count_parts, parts, sized_parts};
pub use xdr_stream::{DecodeFault, Held, Progress, Reason};
