//! The bytes of a value that were judged before.
use std::alloc::Global;
use xdr_types::{Limits, Schema};

/// The bytes of a value that were judged before.
#[derive(Clone, Copy)]
pub struct Look<'a> {
    /// Where frames get their memory.
    pub alloc: Global,
    /// The schema of its kind.
    pub schema: &'a Schema,
    /// The limits that it is within.
    pub limits: Limits,
    /// Its bytes, all of them.
    pub bytes: &'a [u8],
}
