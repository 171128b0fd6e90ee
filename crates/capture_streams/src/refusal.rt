//! Why a segment is refused.
ghost use Rattle.std.specs.Prelude.{◌≡◌};
ghost use Rattle.capture_streams.specs.Taking.{taken_of};

use thiserror::Error;

/// Why the bytes of a segment were refused, from one on. The first `taken` count as taken, as though the segment had
/// come with these alone, and the others as though they had not come.
#[derive(Clone, Copy, Debug, PartialEq, Eq, Error)]
pub enum Refusal {
    /// They stand behind a hole. Holding the next of them, up to a place that has a byte or to the last, would pass the
    /// limit.
    #[error("too many bytes are held behind a hole")]
    Full { taken: usize },
    /// Memory was refused, and the limit would not be passed.
    #[error("out of memory")]
    NoMemory { taken: usize },
    /// The direction has more than 2^62 places.
    #[error("the direction has too many bytes")]
    PlacesEnd,
}

impl Refusal {
    /// How many of the segment's bytes count as taken.
    pub fn taken(&self) -> usize
        ensures { result ≡ taken_of self.now }
    {
        match *self {
            Refusal::Full { taken } | Refusal::NoMemory { taken } => taken,
            Refusal::PlacesEnd => 0,
        }
    }
}

/// What was wanting to hold a piece.
#[derive(Clone, Copy)]
pub(crate) enum Want {
    Space,
    Memory,
}
