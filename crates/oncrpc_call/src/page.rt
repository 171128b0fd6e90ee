//! What is printed of a server's reply.
ghost use Rattle.std.specs.Prelude.{◌≡◌, ◌⊎◌, ◌<◌, None, Some, IfErr, IfOk, length};
ghost use Rattle.rpc_message.specs.View.{reply_view, status_view};
ghost use Rattle.oncrpc_service.specs.Infos.{failure_of};
ghost use Rattle.oncrpc_call.specs.Asked.{wanted_of};
ghost use Rattle.oncrpc_call.specs.Private.Told.{Tells, TellsReply, TellsStatus};

use crate::asked::Asked;
use crate::refusal::denied_line;
use crate::results::results_page;
use oncrpc_answers::Failure;
use oncrpc_service::{fault_line, status_line};
use rpc_engine::ClientFault;
use rpc_message::{Reply, Status};
use std::alloc::Global;

/// What is printed, and where.
#[derive(Drop)]
pub enum Page {
    /// The result, to the output.
    Value(Vec<u8>),
    /// The line that says why there is none, to the stream of faults.
    Refusal(Vec<u8>),
}

/// What is printed of an answer to the call.
pub fn page_of(
    alloc: Global,
    asked: &Asked,
    answer: Result<Reply, ClientFault>,
) -> Result<Page, Failure>
    requires { asked.now.result.place < length asked.now.schema.kinds }
    ensures told { IfOk result (λ p. Tells (wanted_of asked.now) answer p) }
    ensures failed { IfErr result (λ f. ((f ≡ Failure.NoMemory) × (failure_of answer ≡ None))
        ⊎ (failure_of answer ≡ Some f)) }
{
    match answer {
        Ok(reply) => reply_page(alloc, asked, &reply),
        Err(fault) => {
            let line = fault_line(alloc, fault)?;
            Ok(Page::Refusal(line.into_bytes()))
        }
    }
}

fn reply_page(alloc: Global, asked: &Asked, reply: &Reply) -> Result<Page, Failure>
    requires { asked.now.result.place < length asked.now.schema.kinds }
    ensures told { IfOk result (λ p. TellsReply (wanted_of asked.now) (reply_view reply.now) p) }
    ensures memory { IfErr result (λ f. f ≡ Failure.NoMemory) }
{
    match reply {
        Reply::Accepted {
            xid: _,
            verf: _,
            status,
        } => status_page(alloc, asked, status),
        Reply::Denied { xid: _, why } => {
            let line = denied_line(alloc, *why)?;
            Ok(Page::Refusal(line.into_bytes()))
        }
    }
}

fn status_page(alloc: Global, asked: &Asked, status: &Status) -> Result<Page, Failure>
    requires { asked.now.result.place < length asked.now.schema.kinds }
    ensures told { IfOk result (λ p. TellsStatus (wanted_of asked.now) (status_view status.now) p) }
    ensures memory { IfErr result (λ f. f ≡ Failure.NoMemory) }
{
    match status {
        Status::Success(results) => results_page(alloc, asked, results),
        _ => {
            let line = status_line(alloc, status)?;
            Ok(Page::Refusal(line.into_bytes()))
        }
    }
}
