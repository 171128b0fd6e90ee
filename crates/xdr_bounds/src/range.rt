//! Both counts of one kind.
use crate::greatest::Greatest;

/// How many bytes the values of a kind have at least and at most.
#[derive(Clone, Copy, Debug)]
pub struct Range {
    /// No value has fewer bytes, and one has so many. None where each value has 2^64 or more.
    pub least: Option<u64>,
    /// The count of bytes that no value passes and one has, or that there is none.
    pub greatest: Greatest,
}
