//! The lines that say why there are no rows.
ghost use Rattle.std.specs.Prelude.{◌≡◌, ◌⊎◌, None, Some, IfOk, IfErr, string_bytes};
ghost use Rattle.rpc_message.specs.View.{status_view, why_view};
ghost use Rattle.oncrpc_service.specs.Infos.{IsLine, denied_line, failure_of_fault, failure_of_record, fault_line};
ghost use Rattle.oncrpc_service.specs.Infos.{record_line, reply_fault_name, status_line};

use oncrpc_answers::Failure;
use rpc_engine::ClientFault;
use rpc_message::{ReplyFault, Status, Why};
use rpc_record::RecordFault;
use std::alloc::{AllocError, Global};

/// The line of a status without results (RFC 5531 section 9). The error is an allocation failure.
pub fn status_line(alloc: Global, status: &Status) -> Result<String, AllocError>
    ensures { IfOk result (λ text. string_bytes text ≡ status_line (status_view status.now)) }
{
    match status {
        Status::Success(_) => String::from_str(alloc, "refused SUCCESS\n"),
        Status::ProgUnavail => String::from_str(alloc, "refused PROG_UNAVAIL\n"),
        Status::ProgMismatch { low, high } => format!(in alloc;
            "refused PROG_MISMATCH {low} {high}\n"
        ),
        Status::ProcUnavail => String::from_str(alloc, "refused PROC_UNAVAIL\n"),
        Status::GarbageArgs => String::from_str(alloc, "refused GARBAGE_ARGS\n"),
        Status::SystemErr => String::from_str(alloc, "refused SYSTEM_ERR\n"),
    }
}

/// The line of a call that was denied (RFC 5531 section 9). The error is an allocation failure.
pub fn denied_line(alloc: Global, why: Why) -> Result<String, AllocError>
    ensures { IfOk result (λ text. string_bytes text ≡ denied_line (why_view why)) }
{
    match why {
        Why::RpcMismatch { low, high } => format!(in alloc; "refused RPC_MISMATCH {low} {high}\n"),
        Why::AuthError(stat) => format!(in alloc; "refused AUTH_ERROR {stat}\n"),
    }
}

/// The line of bytes that are no reply to the call. A device that failed, too many reads and an allocation failure have
/// none.
pub fn fault_line(alloc: Global, fault: ClientFault) -> Result<String, Failure>
    ensures line { IfOk result (λ text. IsLine (fault_line fault) (string_bytes text)) }
    ensures failed { IfErr result (λ f. ((f ≡ Failure.NoMemory) × (failure_of_fault fault ≡ None))
        ⊎ (failure_of_fault fault ≡ Some f)) }
{
    match fault {
        ClientFault::Record(fault) => record_line(alloc, fault),
        ClientFault::Reply(fault) => Ok(format!(in alloc;
            "refused {}\n",
            reply_fault_name(fault)
        )?),
        ClientFault::WrongXid { got } => Ok(format!(in alloc; "refused WrongXid {got}\n")?),
        ClientFault::Read => Err(Failure::Read),
        ClientFault::Write { written: _ } => Err(Failure::Write),
        ClientFault::TooManyReads => Err(Failure::TooManyReads),
        ClientFault::NoMemory => Err(Failure::NoMemory),
    }
}

// The line of an input without a first record.
fn record_line(alloc: Global, fault: RecordFault) -> Result<String, Failure>
    ensures line { IfOk result (λ text. IsLine (record_line fault) (string_bytes text)) }
    ensures failed { IfErr result (λ f. ((f ≡ Failure.NoMemory) × (failure_of_record fault ≡ None))
        ⊎ (failure_of_record fault ≡ Some f)) }
{
    match fault {
        RecordFault::TooLong { at } => Ok(format!(in alloc; "refused TooLong at {at}\n")?),
        RecordFault::Truncated { at } => Ok(format!(in alloc; "refused Truncated at {at}\n")?),
        RecordFault::Read => Err(Failure::Read),
        RecordFault::Write { written: _ } => Err(Failure::Write),
        RecordFault::TooManyReads => Err(Failure::TooManyReads),
        RecordFault::NoMemory => Err(Failure::NoMemory),
    }
}

fn reply_fault_name(fault: ReplyFault) -> &'static str
    ensures { result.now ≡ reply_fault_name fault }
{
    match fault {
        ReplyFault::Truncated => "Truncated",
        ReplyFault::NotAReply => "NotAReply",
        ReplyFault::BadStatus => "BadStatus",
        ReplyFault::BadAuth => "BadAuth",
        ReplyFault::Rest => "Rest",
        ReplyFault::NoMemory => "NoMemory",
    }
}
