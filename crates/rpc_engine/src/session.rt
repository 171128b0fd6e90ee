//! What a server writes for each record, and what it counts.
ghost use Rattle.std.specs.Prelude.{◌≡◌, ◌+◌, ◌-◌, ◌<◌, ◌≤◌, ◌^◌, ◌++◌, ◌∷◌, [], ℕ, List, length, take, drop, true};
ghost use Rattle.std.specs.Prelude.{vec_len, IfErr, OnOk, OnErr};
ghost use Rattle.std.specs.Io.KnownBytes.{Appends};
ghost use Rattle.xdr_io.specs.Reported.{Counts};
ghost use Rattle.rpc_engine.specs.Private.Fronts.{front_len, IsSent};
ghost use Rattle.rpc_message.specs.Heads.{accepted};
ghost use Rattle.rpc_message.specs.Message.{SystemErr};
ghost use Rattle.rpc_message.specs.Spelling.{reply};
ghost use Rattle.rpc_record.specs.Marked.{header, fragment};
ghost use Rattle.registry_answer.specs.Views.{netid_of};

use crate::fault::{ServeFault, Served};
use registry_answer::{Appended, Transport, append_answer};
use rpc_directory::Directory;
use rpc_record::{last_header, normal_forms_join, write_marked};
use std::alloc::Global;
use std::hash::BuildHasher;
use xdr_io::{Cut, Sink, write_whole};

/// What was counted, and the buffer in which a reply is made: it is kept from one record to the next, so that it grows
/// seldom.
#[derive(Drop)]
pub struct Session {
    /// How many records were answered, and how many replies went out.
    pub served: Served,
    /// How many bytes went out.
    written: u64,
    buffer: Vec<u8>,
}

impl Session {
    ghost use Rattle.rpc_engine.specs.Private.Serving.{HasCounted, Does, LosesBy};
    ghost use Rattle.rpc_engine.specs.Private.Sending.{Counted, HasBegun};

    /// A session before its first record.
    pub fn new(alloc: Global) -> Self
        ensures { HasCounted result [] [] }
    {
        Session {
            served: Served {
                records: 0,
                replies: 0,
            },
            written: 0,
            buffer: Vec::new(alloc),
        }
    }

    /// Answers a record. The reply goes out as one last fragment, in one piece where there was memory for that.
    pub fn answer_record<W: Sink, S: BuildHasher>(
        &mut self,
        alloc: Global,
        directory: &mut Directory<S>,
        transport: Transport,
        message: &[u8],
        writer: &mut W,
    ) -> Result<(), ServeFault>
        // The reply went out, and rows and counts are those after the record.
        ensures ok { OnOk result (Does (netid_of transport) directory.old directory.new self.old self.new
            (message.now ∷ []) (W.taken writer.old) (W.taken writer.new)) }
        // A write failed inside the reply; the rows are those after the record.
        ensures cut { IfErr result (λ f. LosesBy (netid_of transport) directory.old directory.new self.old
            (message.now ∷ []) (W.taken writer.old) (W.taken writer.new) f) }
        // No write failed where the answer is Ok, and else one.
        ensures none_failed { OnOk result (Counts 0 (W.failures writer.old) (W.failures writer.new)) }
        ensures one_failed { OnErr result (Counts 1 (W.failures writer.old) (W.failures writer.new)) }
    {
        self.begin();
        let buffer = &mut self.buffer;
        buffer.clear();
        // Space for the header, so that header and reply go out in one piece.
        let has_front = buffer.extend_from_slice(&[0; 4]).is_ok();
        match append_answer(alloc, directory, transport, message, buffer) {
            Appended::Nothing => Ok(()),
            Appended::Reply => {
                let sent = send(buffer, has_front, writer);
                self.count(sent)
            }
            Appended::OutOfMemory { xid } => {
                let sent = send_whole(writer, &system_error(xid));
                self.count(sent)
            }
        }
    }

    /// Counts a record.
    fn begin(&mut self)
        ensures { HasBegun self.old self.new }
    {
        self.served.records = self.served.records.saturating_add(1);
    }

    /// Counts a reply of so many bytes with its header, or what of it went out.
    fn count(&mut self, sent: Result<usize, Cut>) -> Result<(), ServeFault>
        ensures { Counted self.old self.new sent result }
    {
        match sent {
            Ok(size) => {
                self.written = self.written.saturating_add(size as u64);
                self.served.replies = self.served.replies.saturating_add(1);
                Ok(())
            }
            Err(cut) => Err(ServeFault::Write {
                written: self.written.saturating_add(cut.written as u64),
            }),
        }
    }
}

/// Writes bytes, and counts them.
fn send_whole<W: Sink>(writer: &mut W, bytes: &[u8]) -> Result<usize, Cut>
    ensures sent { IsSent bytes.now (W.taken writer.old) (W.taken writer.new) result }
    ensures none_failed { OnOk result (Counts 0 (W.failures writer.old) (W.failures writer.new)) }
    ensures one_failed { OnErr result (Counts 1 (W.failures writer.old) (W.failures writer.new)) }
{
    match write_whole(writer, bytes) {
        Ok(()) => Ok(bytes.len()),
        Err(cut) => Err(cut),
    }
}

/// Writes a reply as one last fragment: in one piece where four bytes before it were left for the header.
fn send<W: Sink>(buffer: &mut Vec<u8>, has_front: bool, writer: &mut W) -> Result<usize, Cut>
    requires few { vec_len buffer.old < 2 ^ 31 }
    requires front { front_len has_front ≤ vec_len buffer.old }
    ensures sent { (front reply : List ℕ) → length front ≡ front_len has_front → buffer.old.items ≡ front ++ reply
        → IsSent (fragment true reply) (W.taken writer.old) (W.taken writer.new) result }
    ensures none_failed { OnOk result (Counts 0 (W.failures writer.old) (W.failures writer.new)) }
    ensures one_failed { OnErr result (Counts 1 (W.failures writer.old) (W.failures writer.new)) }
{
    if has_front {
        mark_front(buffer);
        send_whole(writer, buffer)
    } else {
        // The law, for the proof: a fragment has four bytes more than its content.
        normal_forms_join();
        match write_marked(writer, buffer) {
            Ok(()) => Ok(buffer.len() + 4),
            Err(cut) => Err(cut),
        }
    }
}

/// Makes the first four bytes the header of a last fragment with what follows them.
fn mark_front(buffer: &mut Vec<u8>)
    requires front { 4 ≤ vec_len buffer.old }
    requires few { vec_len buffer.old < 2 ^ 31 }
    ensures { (front reply : List ℕ) → length front ≡ 4 → buffer.old.items ≡ front ++ reply
        → buffer.new.items ≡ fragment true reply }
{
    let [a, b, c, d] = last_header((buffer.len() - 4) as u32);
    buffer[0] = a;
    buffer[1] = b;
    buffer[2] = c;
    buffer[3] = d;
}

/// The reply SYSTEM_ERR as one last fragment (RFC 5531 sections 9 and 11).
fn system_error(xid: u32) -> [u8; 28]
    ensures { result ≡ fragment true (reply (accepted xid SystemErr)) }
{
    let mut bytes = [0; 28];
    bytes[..4].copy_from_slice(&last_header(24));
    bytes[4..].copy_from_slice(&rpc_message::system_error(xid));
    bytes
}
