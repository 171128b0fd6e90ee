//! Writes a stream of records in its normal form.
ghost use Rattle.std.specs.Prelude.{◌≡◌, ◌≢◌, ◌⊎◌, ◌↔◌, ◌≤◌, ◌^◌, [], true, false, Option, List, ℕ, Some, IfOk, IfErr};
ghost use Rattle.std.specs.Prelude.{IsErrOf, string_bytes};
ghost use Rattle.xdr_io.specs.Reported.{CountsAtMost, MovesAtMost};
ghost use Rattle.xdr_io.specs.declared.input.TheConstants.{MOST_READS};
ghost use Rattle.oncrpc_tasks.specs.RecordsEnd.{RecordsEnd, IsFormInPart};
ghost use Rattle.oncrpc_tasks.specs.Input.{most_read};
ghost use Rattle.oncrpc_tasks.specs.Records.{Marks, MarksAsText, StopsFor, refusal_line};
ghost use Rattle.oncrpc_tasks.specs.Private.Reading.{EndsByDevice};

use super::given::{Given, given_over};
use oncrpc_answers::{Failure, report};
use rpc_record::{RecordFault, normalise};
use std::alloc::{AllocError, Global};
use xdr_io::{Gathered, MemorySource, Sink, Source, write_whole};

/// The greatest limit on the bytes of a record.
pub const MOST_LIMIT: u32 = 2147483647;

/// What an input holds, read as a stream of records.
#[derive(Clone, Copy, PartialEq, Eq)]
pub enum Marking {
    /// Records within the limit, to its end.
    Whole,
    /// A record above the limit, by the header at this place.
    TooLong { at: u64 },
    /// A record that the end of the input cuts.
    Truncated { at: u64 },
    /// A text that is no hexadecimal.
    BadHex,
    /// A text of hexadecimal with more than 1048576 bytes.
    HexTooLong,
}

/// Writes each record of the input as one fragment, and gives the exit status. With `hex` the input is a text of
/// hexadecimal, and the output one line of it. 0 at the input's end; 1 where it is refused, after the whole records
/// before; 2 for a limit above 2147483647. It is 3 where a device failed or too many reads are needed, and 4 for an
/// allocation failure. All but 0 write a line to `faults`.
pub fn records_over<I: Source, O: Sink, F: Sink>(
    alloc: Global,
    input: &mut I,
    output: &mut O,
    faults: &mut F,
    limit: u32,
    hex: bool,
) -> u8
    // The status says what was read and written,
    ensures ends { RecordsEnd limit hex
        (record { left = I.left; reads = I.reads; failures = I.failures; taken = O.taken; lost = O.failures })
        input.old input.new output.old output.new faults.old faults.new result }
    // and is 2 exactly where the limit is above 2^31 - 1.
    ensures limits { (result ≡ 2) ↔ (2 ^ 31 ≤ limit) }
{
    if limit > MOST_LIMIT {
        let _ = write_whole(faults, b"limits refused\n");
        return 2;
    }
    if hex {
        text_over(alloc, input, output, faults, limit)
    } else {
        bytes_over(alloc, input, output, faults, limit)
    }
}

// The records of an input that is read as it is.
#[tactic(auto, using(crate::proofs::Failed::failed_by))]
fn bytes_over<I: Source, O: Sink, F: Sink>(
    alloc: Global,
    input: &mut I,
    output: &mut O,
    faults: &mut F,
    limit: u32,
) -> u8
    requires { limit ≤ 2147483647 }
    ensures ends { RecordsEnd limit false
        (record { left = I.left; reads = I.reads; failures = I.failures; taken = O.taken; lost = O.failures })
        input.old input.new output.old output.new faults.old faults.new result }
    ensures limits { result ≢ 2 }
{
    match mark_bytes(alloc, input, output, limit) {
        Ok(Marking::Whole) => 0,
        Ok(refused) => report_refusal(alloc, refused, faults),
        Err(failure) => report(failure, faults),
    }
}

// The records of an input that is a text of hexadecimal.
fn text_over<I: Source, O: Sink, F: Sink>(
    alloc: Global,
    input: &mut I,
    output: &mut O,
    faults: &mut F,
    limit: u32,
) -> u8
    requires { limit ≤ 2147483647 }
    ensures ends { RecordsEnd limit true
        (record { left = I.left; reads = I.reads; failures = I.failures; taken = O.taken; lost = O.failures })
        input.old input.new output.old output.new faults.old faults.new result }
    ensures limits { result ≢ 2 }
{
    match mark_text(alloc, input, output, limit) {
        Ok(Marking::Whole) => 0,
        Ok(refused) => report_refusal(alloc, refused, faults),
        Err(failure) => report(failure, faults),
    }
}

fn mark_bytes<I: Source, O: Sink>(
    alloc: Global,
    input: &mut I,
    output: &mut O,
    limit: u32,
) -> Result<Marking, Failure>
    requires { limit ≤ 2147483647 }
    ensures marks { IfOk result (λ m.
        Marks limit (I.left input.old) (I.left input.new) (O.taken output.old) (O.taken output.new) m) }
    ensures stopped { IfErr result (λ f.
        StopsFor f limit (I.left input.old) (I.left input.new) (O.taken output.old) (O.taken output.new)) }
    ensures ends { EndsByDevice
        (record { left = I.left; reads = I.reads; failures = I.failures; taken = O.taken; lost = O.failures })
        input.old input.new output.old output.new result }
    ensures reads { CountsAtMost MOST_READS (I.reads input.old) (I.reads input.new) }
{
    match normalise(alloc, input, output, limit) {
        Ok(_) => Ok(Marking::Whole),
        Err(RecordFault::TooLong { at }) => Ok(Marking::TooLong { at }),
        Err(RecordFault::Truncated { at }) => Ok(Marking::Truncated { at }),
        Err(RecordFault::Read) => Err(Failure::Read),
        Err(RecordFault::Write { .. }) => Err(Failure::Write),
        Err(RecordFault::TooManyReads) => Err(Failure::TooManyReads),
        Err(RecordFault::NoMemory) => Err(Failure::NoMemory),
    }
}

/// The normal form of bytes in memory. A source in memory never fails and its reads are few, so that each failure
/// is an allocation failure.
fn mark_gathered(alloc: Global, bytes: &[u8], limit: u32) -> Result<(Marking, Vec<u8>), Failure>
    requires { limit ≤ 2147483647 }
    ensures marks { IfOk result (λ r. (rest : Option (List ℕ))
        × Marks limit (Some bytes.now) rest (Some []) (Some r.1.items) r.0) }
    ensures memory { IfErr result (λ f. f ≡ Failure.NoMemory) }
{
    let mut source = MemorySource::new(bytes, 4096, None);
    let mut gathered = Gathered::new(alloc);
    match mark_bytes(alloc, &mut source, &mut gathered, limit) {
        Ok(marking) => Ok((marking, gathered.into_bytes())),
        Err(_) => Err(Failure::NoMemory),
    }
}

fn mark_text<I: Source, O: Sink>(
    alloc: Global,
    input: &mut I,
    output: &mut O,
    limit: u32,
) -> Result<Marking, Failure>
    requires { limit ≤ 2147483647 }
    ensures marks { IfOk result (λ m.
        MarksAsText limit (I.left input.old) (O.taken output.old) (O.taken output.new) m) }
    ensures in_part { IsErrOf result Failure.Write
        → IsFormInPart limit (I.left input.old) (O.taken output.old) (O.taken output.new) }
    ensures nothing { IfErr result (λ f. f ≢ Failure.Write → output.new ≡ output.old) }
    ensures ends { EndsByDevice
        (record { left = I.left; reads = I.reads; failures = I.failures; taken = O.taken; lost = O.failures })
        input.old input.new output.old output.new result }
    ensures reads { CountsAtMost MOST_READS (I.reads input.old) (I.reads input.new) }
    ensures moved { MovesAtMost (most_read true 0) (I.left input.old) (I.left input.new) }
{
    let bytes = match given_over(alloc, input)? {
        Given::Bytes(bytes) => bytes,
        Given::BadHex => return Ok(Marking::BadHex),
        Given::HexTooLong => return Ok(Marking::HexTooLong),
    };
    let (marking, written) = mark_gathered(alloc, &bytes, limit)?;
    let mut text = hex::encode(alloc, written.as_slice())?;
    text.push_str("\n")?;
    write_whole(output, text.as_bytes())?;
    Ok(marking)
}

fn report_refusal<F: Sink>(alloc: Global, marking: Marking, faults: &mut F) -> u8
    ensures { (result ≡ 1) ⊎ (result ≡ 4) }
{
    match refusal_of(alloc, marking) {
        Ok(line) => {
            let _ = write_whole(faults, line.as_bytes());
            1
        }
        Err(_) => report(Failure::NoMemory, faults),
    }
}

fn refusal_of(alloc: Global, marking: Marking) -> Result<String, AllocError>
    ensures { IfOk result (λ text. string_bytes text ≡ refusal_line marking) }
{
    match marking {
        Marking::Whole => Ok(String::new(alloc)),
        Marking::TooLong { at } => format!(in alloc; "refused TooLong at {at}\n"),
        Marking::Truncated { at } => format!(in alloc; "refused Truncated at {at}\n"),
        Marking::BadHex => String::from_str(alloc, "refused bad hex\n"),
        Marking::HexTooLong => String::from_str(alloc, "refused hex too long\n"),
    }
}
