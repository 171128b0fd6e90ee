//! What a session's handle holds.
use registry_sessions::Session;

/// The session of one connection.
#[derive(Drop)]
pub struct Connected {
    pub session: Session,
}
