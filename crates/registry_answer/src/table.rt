//! The table of procedures (RFC 1833 sections 2.2.1 and 3.2).
ghost use Rattle.std.specs.Prelude.{◌≡◌, option_map, slice_get};
ghost use Rattle.registry_answer.specs.Procedures.{procedure_at, procedures_2, procedures_3};
ghost use Rattle.registry_answer.specs.Private.Table.{procedure_of};

// The procedures by their numbers. The first five are there in each version: number 3 is GETPORT in version 2, and
// GETADDR in versions 3 and 4.
const NULL: u32 = 0;

const SET: u32 = 1;

const UNSET: u32 = 2;

const GET: u32 = 3;

const DUMP: u32 = 4;

/// The procedure that version 4 alone has (RFC 1833 section 2.2.1, RPCBPROC_GETVERSADDR).
const GETVERSADDR: u32 = 9;

/// A procedure.
#[derive(Clone, Copy)]
pub enum Procedure {
    /// Nothing is done.
    Null,
    /// The list of the ports, of version 2.
    DumpPorts,
    /// The list of the rows, of versions 3 and 4.
    Dump,
    /// One of version 2 that takes a `mapping`.
    OnMapping(OnMapping),
    /// One of versions 3 and 4 that takes an `rpcb`.
    OnRpcb(OnRpcb),
}

/// What is done with a `mapping`.
#[derive(Clone, Copy)]
pub enum OnMapping {
    Set,
    Unset,
    GetPort,
}

/// What is done with an `rpcb`.
#[derive(Clone, Copy)]
pub enum OnRpcb {
    Set,
    Unset,
    GetAddr,
    GetVersAddr,
}

/// The procedure with a number in version 2, 3 or 4.
pub fn procedure_at(vers: u32, proc: u32) -> Option<Procedure>
    ensures { option_map procedure_of result ≡ procedure_at vers proc }
{
    if vers == 4 && proc == GETVERSADDR {
        return Some(Procedure::OnRpcb(OnRpcb::GetVersAddr));
    }
    if vers == 2 {
        in_version_2(proc)
    } else {
        in_version_3(proc)
    }
}

/// The procedure with a number in version 2.
fn in_version_2(proc: u32) -> Option<Procedure>
    ensures { option_map procedure_of result ≡ slice_get procedures_2 proc }
{
    match proc {
        NULL => Some(Procedure::Null),
        SET => Some(Procedure::OnMapping(OnMapping::Set)),
        UNSET => Some(Procedure::OnMapping(OnMapping::Unset)),
        GET => Some(Procedure::OnMapping(OnMapping::GetPort)),
        DUMP => Some(Procedure::DumpPorts),
        _ => None,
    }
}

/// The procedure with a number in versions 3 and 4.
fn in_version_3(proc: u32) -> Option<Procedure>
    ensures { option_map procedure_of result ≡ slice_get procedures_3 proc }
{
    match proc {
        NULL => Some(Procedure::Null),
        SET => Some(Procedure::OnRpcb(OnRpcb::Set)),
        UNSET => Some(Procedure::OnRpcb(OnRpcb::Unset)),
        GET => Some(Procedure::OnRpcb(OnRpcb::GetAddr)),
        DUMP => Some(Procedure::Dump),
        _ => None,
    }
}
