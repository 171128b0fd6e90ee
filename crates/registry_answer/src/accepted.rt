//! The order of the checks of a call that is accepted.
ghost use Rattle.std.specs.Prelude.{◌≡◌, ◌++◌, ◌&&◌, nat_le, OnOk, OnErr};
ghost use Rattle.std.specs.Io.{StartsWith};
ghost use Rattle.rpc_message.specs.Heads.{accepted};
ghost use Rattle.rpc_message.specs.Message.{ProgMismatch};
ghost use Rattle.rpc_message.specs.Spelling.{reply};
ghost use Rattle.rpc_message.specs.View.{lent_call_view};
ghost use Rattle.registry_rows.specs.Program.{lowest_version, highest_version};
ghost use Rattle.registry_answer.specs.Answer.{IsCallOf};
ghost use Rattle.registry_answer.specs.Private.Pushes.{Accepts};
ghost use Rattle.registry_answer.specs.Private.Table.{procedure_of, of_mapping, of_rpcb};

use crate::arguments::{mapping_at, rpcb_at};
use crate::callers::Owner;
use crate::dumps::{push_mappings, push_rows};
use crate::procedures::{
    push_address, push_port, push_set, push_set_port, push_unset, push_unset_port,
    push_version_address,
};
use crate::table::{OnMapping, OnRpcb, Procedure, procedure_at};
use crate::transport::Transport;
use registry_rows::{HIGHEST_VERSION, LOWEST_VERSION, PROGRAM};
use rpc_directory::Directory;
use rpc_message::{
    GARBAGE_ARGS, LentCall, PROC_UNAVAIL, PROG_MISMATCH, PROG_UNAVAIL, SUCCESS, append_head,
};
use std::alloc::Global;
use std::hash::BuildHasher;
use xdr_laws::whole_exactly;
use xdr_units::{NoMemory, push_word};

/// A call of a caller who is believed.
#[derive(Clone, Copy)]
pub struct Asked<'a> {
    /// The transport over which it came.
    pub transport: Transport,
    /// The owner that the caller is.
    pub owner: Owner,
    /// The call.
    pub call: LentCall<'a>,
}

/// Writes the reply to a call of a caller who is believed: program, version, procedure and arguments are looked at in
/// this order (RFC 5531 section 9). Where memory is refused the rows are as they were.
#[tactic(auto, using(crate::proofs::Chains::begins_then, crate::proofs::Chains::begins_added))]
pub fn push_accepted<S: BuildHasher>(
    alloc: Global,
    directory: &mut Directory<S>,
    asked: &Asked<'_>,
    out: &mut Vec<u8>,
) -> Result<(), NoMemory>
    // The reply stands behind what stood there, and the rows are those after the call.
    ensures ok { OnOk result (Accepts asked.now directory.old out.old.items directory.new out.new.items) }
    // Where memory is refused the rows stay,
    ensures err { OnErr result (directory.new ≡ directory.old) }
    // and in either case what stood there stays.
    ensures begins { StartsWith out.new.items out.old.items }
{
    if asked.call.prog != PROGRAM {
        return append_head(out, asked.call.xid, PROG_UNAVAIL);
    }
    if !is_version(asked.call.vers) {
        return push_prog_mismatch(out, asked.call.xid);
    }
    match procedure_at(asked.call.vers, asked.call.proc) {
        Some(procedure) => push_procedure(alloc, directory, asked, procedure, out),
        None => append_head(out, asked.call.xid, PROC_UNAVAIL),
    }
}

/// Whether this is a version of the registry's program.
fn is_version(vers: u32) -> bool
    ensures { result ≡ (nat_le lowest_version vers && nat_le vers highest_version) }
{
    LOWEST_VERSION <= vers && vers <= HIGHEST_VERSION
}

/// Writes the reply to a call of a version that is not here, with the lowest and the highest that are.
#[tactic(auto, using(crate::proofs::Chains::begins_then, crate::proofs::Chains::begins_added))]
fn push_prog_mismatch(out: &mut Vec<u8>, xid: u32) -> Result<(), NoMemory>
    ensures ok { let status = ProgMismatch lowest_version highest_version in
        OnOk result (out.new.items ≡ out.old.items ++ reply (accepted xid status)) }
    ensures begins { StartsWith out.new.items out.old.items }
{
    append_head(out, xid, PROG_MISMATCH)?;
    push_word(out, LOWEST_VERSION)?;
    push_word(out, HIGHEST_VERSION)?;
    Ok(())
}

/// Writes the reply to a call of a procedure.
#[tactic(auto, using(crate::proofs::Chains::begins_then, crate::proofs::Chains::begins_added))]
fn push_procedure<S: BuildHasher>(
    alloc: Global,
    directory: &mut Directory<S>,
    asked: &Asked<'_>,
    procedure: Procedure,
    out: &mut Vec<u8>,
) -> Result<(), NoMemory>
    requires { IsCallOf (lent_call_view asked.now.call) (procedure_of procedure) }
    ensures ok { OnOk result (Accepts asked.now directory.old out.old.items directory.new out.new.items) }
    ensures err { OnErr result (directory.new ≡ directory.old) }
    ensures begins { StartsWith out.new.items out.old.items }
{
    // For the proof: the law says that any bytes begin with no arguments.
    whole_exactly();
    match procedure {
        Procedure::Null => append_head(out, asked.call.xid, SUCCESS),
        Procedure::DumpPorts => {
            append_head(out, asked.call.xid, SUCCESS)?;
            push_mappings(directory, out)
        }
        Procedure::Dump => {
            append_head(out, asked.call.xid, SUCCESS)?;
            push_rows(directory, out)
        }
        Procedure::OnMapping(step) => push_on_mapping(alloc, directory, asked, step, out),
        Procedure::OnRpcb(step) => push_on_rpcb(alloc, directory, asked, step, out),
    }
}

/// Writes the reply to SET, UNSET or GETPORT of version 2 (RFC 1833 section 3.2).
#[tactic(auto, using(crate::proofs::Chains::begins_then, crate::proofs::Chains::begins_added))]
fn push_on_mapping<S: BuildHasher>(
    alloc: Global,
    directory: &mut Directory<S>,
    asked: &Asked<'_>,
    step: OnMapping,
    out: &mut Vec<u8>,
) -> Result<(), NoMemory>
    requires { IsCallOf (lent_call_view asked.now.call) (of_mapping step) }
    ensures ok { OnOk result (Accepts asked.now directory.old out.old.items directory.new out.new.items) }
    ensures err { OnErr result (directory.new ≡ directory.old) }
    ensures begins { StartsWith out.new.items out.old.items }
{
    let xid = asked.call.xid;
    let owner = asked.owner;
    let m = match mapping_at(asked.call.args) {
        Some(m) => m,
        None => return append_head(out, xid, GARBAGE_ARGS),
    };
    match step {
        OnMapping::Set => push_set_port(alloc, directory, owner, xid, m, out),
        OnMapping::Unset => push_unset_port(directory, owner, xid, m, out),
        OnMapping::GetPort => push_port(directory, xid, m, out),
    }
}

/// Writes the reply to SET, UNSET, GETADDR or GETVERSADDR of version 3 or 4 (RFC 1833 section 2.2.1).
#[tactic(auto, using(crate::proofs::Chains::begins_then, crate::proofs::Chains::begins_added))]
fn push_on_rpcb<S: BuildHasher>(
    alloc: Global,
    directory: &mut Directory<S>,
    asked: &Asked<'_>,
    step: OnRpcb,
    out: &mut Vec<u8>,
) -> Result<(), NoMemory>
    requires { IsCallOf (lent_call_view asked.now.call) (of_rpcb step) }
    ensures ok { OnOk result (Accepts asked.now directory.old out.old.items directory.new out.new.items) }
    ensures err { OnErr result (directory.new ≡ directory.old) }
    ensures begins { StartsWith out.new.items out.old.items }
{
    let xid = asked.call.xid;
    let owner = asked.owner;
    let r = match rpcb_at(asked.call.args) {
        Some(r) => r,
        None => return append_head(out, xid, GARBAGE_ARGS),
    };
    match step {
        OnRpcb::Set => push_set(alloc, directory, owner, xid, r, out),
        OnRpcb::Unset => push_unset(directory, owner, xid, r, out),
        OnRpcb::GetAddr => push_address(directory, asked.transport, xid, r, out),
        OnRpcb::GetVersAddr => push_version_address(directory, asked.transport, xid, r, out),
    }
}
