//! The numbers of the registry's own program.

/// The registry's program (RFC 1833 sections 2 and 3).
pub const PROGRAM: u32 = 100000;

/// Its lowest version, which names transports by number (RFC 1833 section 3).
pub const LOWEST_VERSION: u32 = 2;

/// Its highest version (RFC 1833 section 2).
pub const HIGHEST_VERSION: u32 = 4;
