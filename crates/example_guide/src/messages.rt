//! Records, messages and the registry.
ghost use Rattle.std.specs.Prelude.{◌≡◌, []};

use crate::Reported;
use rpc_directory::Directory;
use rpc_message::{
    Call, CallRead, OpaqueAuth, Reply, Status, read_call, read_reply, write_call, write_reply,
};
use rpc_record::{RecordReader, RecordStep, mark};
use std::alloc::Global;
use std::hash::{BuildHasherDefault, DefaultHasher};
use std::string::String;

/// A record in two fragments, and the same as one.
pub fn unmark(alloc: Global) -> Reported {
    let mut reader = RecordReader::start(alloc, 65536);
    let piece = b"\0\0\0\x02ab\x80\0\0\x01c";
    let Ok(RecordStep::Whole { used }) = reader.feed(piece) else {
        return None;
    };
    let record = reader.take()?;
    if reader.end().is_err() || record.len() > 65536 {
        return None;
    }
    let marked = mark(alloc, &record).ok()?;
    format!(in alloc;
        "a record of {} bytes in {used}, marked as {}",
        record.len(),
        marked.len()
    )
    .ok()
}

// AUTH_NONE.
fn no_auth(alloc: Global) -> OpaqueAuth
    ensures { result.body.items ≡ [] }
{
    OpaqueAuth {
        flavor: 0,
        body: Vec::new(alloc),
    }
}

/// The call of the registry's procedure 0, as its server reads it, and the reply, as its client reads it.
pub fn reply_to_a_call(alloc: Global) -> Reported {
    let call = Call {
        xid: 7,
        prog: 100000,
        vers: 2,
        proc: 0,
        cred: no_auth(alloc),
        verf: no_auth(alloc),
        args: Vec::new(alloc),
    };
    let sent = write_call(alloc, &call).ok()?;
    let Ok(CallRead::Whole(got)) = read_call(alloc, &sent) else {
        return None;
    };
    let reply = Reply::Accepted {
        xid: got.xid,
        verf: no_auth(alloc),
        status: Status::Success(Vec::new(alloc)),
    };
    let answer = write_reply(alloc, &reply).ok()?;
    let same = read_reply(alloc, &answer).ok()?;
    format!(in alloc;
        "a call of {} bytes, a reply of {}: {}",
        sent.len(),
        answer.len(),
        same == reply
    )
    .ok()
}

/// A registry at port 111, a program that registers its port, and a client that asks for it.
pub fn ask_for_a_port(alloc: Global) -> Reported {
    let hasher = BuildHasherDefault::<DefaultHasher>::new();
    let mut directory = Directory::start(alloc, hasher, 111).ok()?;
    let is_set = directory
        .set_port(alloc, 536870912, 1, 6, 2049, b"1001")
        .ok()?;
    let port = directory.get_port(536870912, 1, 6);
    format!(in alloc;
        "registered: {is_set}, at port {port}, {} rows",
        directory.rows()
    )
    .ok()
}
