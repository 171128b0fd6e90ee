//! Where in a record a reader is.
ghost use Rattle.std.specs.Prelude.{◌<◌};

use super::fault::RecordFault;

/// The bytes of a header that have come.
#[derive(Clone, Copy)]
pub enum Begun {
    Nothing,
    One(u8),
    Two(u8, u8),
    Three(u8, u8, u8),
}

/// The fragment at work.
#[derive(Clone, Copy)]
pub struct Fragment {
    /// How many bytes are to come.
    pub left: u32,
    /// Whether it is its record's last.
    pub last: bool,
    ghost some: { 0 < left },
}

#[derive(Clone, Copy)]
pub enum Place {
    /// Between two records.
    Between,
    /// Inside a record, in a header that begins at this place in the stream.
    Header { at: u64, begun: Begun },
    /// In a fragment.
    Content(Fragment),
    /// A whole record waits.
    Whole,
    /// This fault was answered.
    Broken(RecordFault),
}
