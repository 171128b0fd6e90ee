//! A record as one last fragment.
ghost use Rattle.std.specs.Prelude.{◌≡◌, ◌<◌, ◌≤◌, true, length, take, IfOk, IfErr, OnOk, OnErr};
ghost use Rattle.std.specs.Io.KnownBytes.{Appends};
ghost use Rattle.xdr_io.specs.Reported.{Counts};
ghost use Rattle.rpc_record.specs.Marked.{fragment};

use super::header::last_header;
use std::alloc::Global;
use xdr_io::{Cut, Sink, write_whole};
use xdr_units::NoMemory;

/// The record as one last fragment: a header of four bytes, and the content (RFC 5531, section 11).
pub fn mark(alloc: Global, content: &[u8]) -> Result<Vec<u8>, NoMemory>
    requires { length content.now ≤ 2147483647 }
    ensures { IfOk result (λ v. v.items ≡ fragment true content.now) }
{
    let mut bytes = Vec::new(alloc);
    bytes.extend_from_slice(&last_header(content.len() as u32))?;
    bytes.extend_from_slice(content)?;
    Ok(bytes)
}

/// Writes the record as one last fragment. A fault comes only where a write failed, after `written` of its bytes.
pub fn write_marked<W: Sink>(writer: &mut W, content: &[u8]) -> Result<(), Cut>
    requires { length content.now ≤ 2147483647 }
    // All went out, or the first `written` bytes did.
    ensures ok { OnOk result (Appends (W.taken writer.old) (W.taken writer.new) (fragment true content.now)) }
    ensures cut { IfErr result (λ e. (e.written < length (fragment true content.now))
        × Appends (W.taken writer.old) (W.taken writer.new) (take e.written (fragment true content.now))) }
    // No write failed where the answer is Ok, and else one.
    ensures none_failed { OnOk result (Counts 0 (W.failures writer.old) (W.failures writer.new)) }
    ensures one_failed { OnErr result (Counts 1 (W.failures writer.old) (W.failures writer.new)) }
{
    let header = last_header(content.len() as u32);
    write_whole(writer, &header)?;
    match write_whole(writer, content) {
        Ok(()) => Ok(()),
        Err(cut) => Err(Cut {
            written: 4 + cut.written,
        }),
    }
}
