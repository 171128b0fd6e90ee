//! The file, packet by packet.
ghost use Rattle.std.specs.Prelude.{◌≡◌};
ghost use Rattle.oncrpc_capture.specs.Files.{reason_name};

use super::Desk;
use crate::clock::time_of;
use crate::told::is_unread;
use capture_files::{CaptureFault, CaptureReader, CaptureReason, CaptureStep, Captured};
use capture_packets::{Packet, Reason, read_packet};
use oncrpc_answers::Failure;
use xdr_io::{Sink, Source};

impl<'a> Desk<'a> {
    ghost use Rattle.std.specs.Prelude.{◌≡◌, ◌∷◌, [], IfOk, OnOk};
    ghost use Rattle.capture_files.specs.declared.captured.Found.{Found};
    ghost use Rattle.capture_files.specs.declared.progress.Progress.TheVariants.{Waiting};
    ghost use Rattle.capture_packets.specs.Packets.{packet_of};
    ghost use Rattle.oncrpc_capture.specs.Brought.{BringsOther};
    ghost use Rattle.oncrpc_capture.specs.Entries.{FileRefused};
    ghost use Rattle.oncrpc_capture.specs.Files.{reason_name};
    ghost use Rattle.oncrpc_capture.specs.Notes.{is_unread};
    ghost use Rattle.oncrpc_capture.specs.Private.Follows.{Begun};
    ghost use Rattle.oncrpc_capture.specs.Private.Steps.{EndsFile, Feeds, GoesFrom, HasRead, Prints, PrintsNext};
    ghost use Rattle.oncrpc_capture.specs.Private.Steps.{PrintsOf};

    /// Reads a file to its end, and prints what it has.
    pub(super) fn read<I: Source + Drop, O: Sink>(
        &mut self,
        mut source: I,
        output: &mut O,
    ) -> Result<(), Failure>
        requires first { self.old.frame ≡ 0 }
        requires begun { Begun self.old.flows }
        ensures { OnOk result (HasRead self.old.printing self.new.printing self.old.ports.now (I.left source)
            (O.taken output.old) (O.taken output.new)) }
    {
        let mut reader = CaptureReader::start(self.alloc);
        let mut array = [0u8; 4096];
        'reads: for _read in 0..u64::MAX {
            let size = match source.read(&mut array) {
                Ok(size) => size,
                Err(_) => return Err(Failure::Read),
            };
            if size == 0 {
                return self.end_file(&mut reader, output);
            }
            let more = self.feed(&mut reader, &array[..size], output)?;
            if !more {
                return self.end(output);
            }
        }
        Err(Failure::Read)
    }

    // The file ends: well, or inside a record or a block, which is printed. All connections end with it.
    fn end_file<O: Sink>(
        &mut self,
        reader: &mut CaptureReader,
        output: &mut O,
    ) -> Result<(), Failure>
        ensures { OnOk result (EndsFile self.old.printing self.new.printing self.old.ports.now self.old.frame
            self.old.flows reader.old (O.taken output.old) (O.taken output.new)) }
    {
        match reader.end() {
            Ok(()) => self.end(output),
            Err(fault) => {
                self.refuse_file(fault, output)?;
                self.end(output)
            }
        }
    }

    // Takes a piece of the file. False: it is refused, and that is printed.
    fn feed<O: Sink>(
        &mut self,
        reader: &mut CaptureReader,
        piece: &[u8],
        output: &mut O,
    ) -> Result<bool, Failure>
        ensures feeds { IfOk result (λ more. Feeds more self.old.printing self.new.printing self.old.ports.now
            self.old.frame self.new.frame self.old.flows self.new.flows reader.old reader.new piece.now
            (O.taken output.old) (O.taken output.new)) }
        ensures ports { self.new.ports ≡ self.old.ports }
    {
        let mut rest = piece;
        'packets: for _packet in 0..u64::MAX {
            match reader.feed(rest) {
                Ok(CaptureStep::More) => return Ok(true),
                Ok(CaptureStep::Packet { used }) => {
                    self.next_packet(reader, output)?;
                    rest = &rest[used..];
                }
                Err(fault) => {
                    self.refuse_file(fault, output)?;
                    return Ok(false);
                }
            }
        }
        Err(Failure::Read)
    }

    // The packet that waits, which is the next of the file.
    fn next_packet<O: Sink>(
        &mut self,
        reader: &CaptureReader,
        output: &mut O,
    ) -> Result<(), Failure>
        requires { (found : Found) × (reader.now.progress ≡ Waiting found) }
        ensures prints { OnOk result (PrintsNext reader.now self.old.ports.now self.old.frame self.new.frame
            self.old.flows self.new.flows self.old.printing self.new.printing (O.taken output.old)
            (O.taken output.new)) }
        ensures ports { self.new.ports ≡ self.old.ports }
    {
        match reader.packet() {
            Some(packet) => {
                self.frame = self.frame.saturating_add(1);
                self.packet(packet, output)
            }
            None => Err(Failure::Read),
        }
    }

    // Says why the file is refused. Where memory was, that is the failure.
    fn refuse_file<O: Sink>(&mut self, fault: CaptureFault, output: &mut O) -> Result<(), Failure>
        ensures told { OnOk result (Prints self.old.printing self.new.printing
            (FileRefused (reason_name fault.reason) fault.at ∷ []) (O.taken output.old) (O.taken output.new)) }
        ensures reason { OnOk result (fault.reason ≡ CaptureReason.NoMemory → ⊥) }
        ensures same { (self.new.ports ≡ self.old.ports) × (self.new.frame ≡ self.old.frame) }
        ensures flows { self.new.flows ≡ self.old.flows }
    {
        match fault.reason {
            CaptureReason::NoMemory => Err(Failure::NoMemory),
            reason => self
                .printing
                .refuse_file(reason_name(reason), fault.at, output),
        }
    }

    // A packet of the file, whose number is that of the packet at work.
    fn packet<O: Sink>(&mut self, packet: Captured<'_>, output: &mut O) -> Result<(), Failure>
        ensures goes { OnOk result (GoesFrom self.old.ports.now self.old.frame
            (packet_of packet.entry.link packet.entry.bytes.now) self.old.flows self.new.flows self.old.printing
            self.new.printing (O.taken output.old) (O.taken output.new)) }
        ensures same { (self.new.ports ≡ self.old.ports) × (self.new.frame ≡ self.old.frame) }
    {
        let time = time_of(packet);
        match read_packet(packet.link, packet.bytes) {
            Packet::Datagram(datagram) => self.datagram(time, datagram, output),
            Packet::Segment(segment) => self.segment(time, segment, output),
            Packet::Other(reason) => self.other(time, reason, output),
        }
    }

    // A packet that carries neither.
    fn other<O: Sink>(&mut self, time: u64, reason: Reason, output: &mut O) -> Result<(), Failure>
        ensures brings { OnOk result (PrintsOf (λ es. BringsOther (is_unread reason) self.old.frame reason es)
            self.old.printing self.new.printing (O.taken output.old) (O.taken output.new)) }
        ensures same { (self.new.ports ≡ self.old.ports) × (self.new.frame ≡ self.old.frame) }
        ensures flows { self.new.flows ≡ self.old.flows }
    {
        if is_unread(reason) {
            self.printing.unread(self.frame, time, reason, output)
        } else {
            Ok(())
        }
    }
}

// The word of a reason why a file is refused.
fn reason_name(reason: CaptureReason) -> &'static str
    ensures { result.now ≡ reason_name reason }
{
    match reason {
        CaptureReason::NotACapture => "NotACapture",
        CaptureReason::UnknownVersion => "UnknownVersion",
        CaptureReason::Truncated => "Truncated",
        CaptureReason::BadLength => "BadLength",
        CaptureReason::PacketTooLong => "PacketTooLong",
        CaptureReason::UnknownInterface => "UnknownInterface",
        CaptureReason::TooManyInterfaces => "TooManyInterfaces",
        CaptureReason::NoMemory => "NoMemory",
    }
}
