//! Theorems about the definitions.

ghost use Rattle.capture_files.specs.Runs.{OneReading, NothingIsRefused, NothingIsCut};
ghost use Rattle.capture_files.specs.Spelled.{SpelledFilesAreRead, SpelledFilesHaveNoOthers};

/// A file has one list of packets.
pub fn a_file_has_one_reading()
    ensures { OneReading }
{}

/// A file, and each beginning of one, is refused for nothing that its bytes say. Nor is it cut where it ends.
pub fn a_file_is_not_refused()
    ensures refused { NothingIsRefused }
    ensures cut { NothingIsCut }
{}

/// A file of the classic format that is spelled from its packets, in either order of bytes and with either unit of
/// times, has these packets, and no others (draft-ietf-opsawg-pcap sections 4 and 5).
pub fn spelled_files_are_read()
    ensures read { SpelledFilesAreRead }
    ensures only { SpelledFilesHaveNoOthers }
{}
