//! Files of captured packets, and the packets that they have.

ghost use Rattle.std.specs.Prelude.{◌≡◌, List, [], ◌∷◌, IfErr};
ghost use Rattle.capture_files.specs.Runs.{PacketView, IsCapture};
ghost use Rattle.example_watch.specs.Files.{classic_file, classic_packet, block_file, block_packet};

use capture_files::{CaptureFault, CaptureReader, a_file_has_one_reading, spelled_files_are_read};

/// A file of the classic format with one record has that packet, and no other list (draft-ietf-opsawg-pcap sections 4
/// and 5).
pub fn classic_file_has_its_packet()
    ensures is { IsCapture classic_file (classic_packet ∷ []) }
    ensures only { (ps : List PacketView) → IsCapture classic_file ps → ps ≡ classic_packet ∷ [] }
{
    a_file_has_one_reading();
    spelled_files_are_read();
}

/// A file of pcapng with a section, an interface and an enhanced packet has that packet, and no other list
/// (draft-ietf-opsawg-pcapng section 4).
pub fn block_file_has_its_packet()
    ensures is { IsCapture block_file (block_packet ∷ []) }
    ensures only { (ps : List PacketView) → IsCapture block_file ps → ps ≡ block_packet ∷ [] }
{
    a_file_has_one_reading();
}

/// A file that was refused at its end stays refused: a piece is answered by the same fault.
pub fn stays_refused(
    reader: &mut CaptureReader,
    piece: &[u8],
) -> Result<(), (CaptureFault, CaptureFault)>
    ensures { IfErr result (λ faults. faults.1 ≡ faults.0) }
{
    match reader.end() {
        Ok(()) => Ok(()),
        Err(fault) => match reader.feed(piece) {
            Ok(_) => unreachable!(),
            Err(again) => Err((fault, again)),
        },
    }
}
