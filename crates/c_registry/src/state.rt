//! What a registry holds.
use super::hasher::Seeded;
use registry_answer::Answered;
use rpc_directory::Directory;

/// The rows, and the last reply where it still waits for a buffer.
#[derive(Drop)]
pub struct State {
    pub directory: Directory<Seeded>,
    /// `Silent` where no reply waits.
    pub waiting: Answered,
}
