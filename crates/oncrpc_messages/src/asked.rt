//! What a call asked for.

/// What a call asked for, by which its reply is read (RFC 5531 section 9).
#[derive(Clone, Copy, Debug, PartialEq, Eq, Drop)]
pub struct Asked {
    /// The number of the program.
    pub program: u32,
    /// The number of its version.
    pub version: u32,
    /// The number of the procedure.
    pub procedure: u32,
    /// The flavor of the credential.
    pub flavor: u32,
    /// When it came, in whatever unit the caller counts.
    pub time: u64,
}
