//! Why a text names no program.
use thiserror::Error;

/// Why a text names no program of what is declared, or no version of it: the first of these that holds.
#[derive(Clone, Copy, Debug, PartialEq, Eq, Error)]
pub enum UnnamedProgram {
    /// The text is neither one part nor two with a dot between them.
    #[error("not PROGRAM or PROGRAM.VERSION")]
    NotTwoParts,
    /// The first of the parts that begin with a digit and are no number, from 1: numbers are decimal, below 2^32 and
    /// without leading zeros.
    #[error("part {part} is no number")]
    NotANumber { part: u8 },
    /// No program has the name.
    #[error("no such program")]
    NoProgram,
    /// No version of the programs with the number has the name.
    #[error("no such version")]
    NoVersion,
}
