//! Why a text names no procedure.
use thiserror::Error;

/// Why a text names no procedure of what is declared: the first of these that holds.
#[derive(Clone, Copy, Debug, PartialEq, Eq, Error)]
pub enum Unnamed {
    /// The text is not three parts with a dot between two of them.
    #[error("not PROGRAM.VERSION.PROCEDURE")]
    NotThreeParts,
    /// The first of the parts that begin with a digit and are no number, from 1: numbers are decimal, below 2^32 and
    /// without leading zeros.
    #[error("part {part} is no number")]
    NotANumber { part: u8 },
    /// No program has the name or the number.
    #[error("no such program")]
    NoProgram,
    /// The program has no version with the name or the number.
    #[error("no such version")]
    NoVersion,
    /// The version has no procedure with the name or the number.
    #[error("no such procedure")]
    NoProcedure,
}
