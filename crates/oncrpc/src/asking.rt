//! What is asked of a server, by the words, the texts of declarations and the arguments.
ghost use Rattle.std.specs.Prelude.{◌≤◌, IfOk, length};
ghost use Rattle.oncrpc_call.specs.Asked.{CanBeMade};

use crate::arguments::arguments_for;
use crate::files::FileOpener;
use crate::unmade::{Unmade, line, unasked_line, unnamed_line};
use oncrpc_answers::{Dialect, Texts};
use oncrpc_call::{Asked, Form, Terms, Unasked, ask};
use oncrpc_procedures::{
    NamedProgram, UnnamedProgram, installed_text, procedure_named, program_named,
};
use oncrpc_tasks::declared;
use oncrpc_words::{CallTask, Caller, PingTask, Printing};
use rpc_message::{AuthSys, OpaqueAuth, write_auth_sys};
use std::alloc::{AllocError, Global};
use std::time::{SystemTime, UNIX_EPOCH};
use xdr_json::Layout;
use xdr_lang::{Declared, Procedure};
use xdr_types::{KindId, Limits};

/// The program that a ping names, and the version of it. Installed declarations are read where no files are named, and
/// the numbers alone do not tell.
pub fn pinged_by(rt: &HostRuntime, what: &PingTask) -> Result<NamedProgram, Unmade> {
    let declared = declared_by(rt, &what.types)?;
    let why = match program_named(&declared, what.name.as_bytes()) {
        Ok(named) => return Ok(named),
        Err(why) => why,
    };
    if let UnnamedProgram::NoProgram | UnnamedProgram::NoVersion = why {
        if let Some(declared) = declared_installed(rt, &what.types, &what.name)? {
            return match program_named(&declared, what.name.as_bytes()) {
                Ok(named) => Ok(named),
                Err(why) => Err(unnamed_line(rt.alloc(), why)),
            };
        }
    }
    Err(unnamed_line(rt.alloc(), why))
}

// What texts of the system's files declare.
fn declared_by(rt: &HostRuntime, types: &Texts) -> Result<Declared, Unmade> {
    declared_in(rt, types, FileOpener::new(rt)?)
}

// What the installed text declares for a name that begins with a program's, where no files are named and there is one.
fn declared_installed(
    rt: &HostRuntime,
    types: &Texts,
    name: &str,
) -> Result<Option<Declared>, Unmade> {
    if !types.files.is_empty() {
        return Ok(None);
    }
    let Some(text) = installed_text(name.as_bytes()) else {
        return Ok(None);
    };
    let types = texts_of(rt.alloc(), text)?;
    Ok(Some(declared_in(rt, &types, FileOpener::installed(rt)?)?))
}

fn texts_of(alloc: Global, name: &str) -> Result<Texts, AllocError> {
    let mut files = Vec::new(alloc);
    files.push(String::from_str(alloc, name)?)?;
    Ok(Texts {
        files,
        dialect: Dialect::Rfc,
    })
}

fn declared_in(
    rt: &HostRuntime,
    types: &Texts,
    mut opener: FileOpener<'_, HostRuntime>,
) -> Result<Declared, Unmade> {
    match declared(rt.alloc(), types, &mut opener) {
        Ok(declared) => Ok(declared),
        Err(why) => Err(Unmade::Texts(why)),
    }
}

/// What the words ask for.
pub fn asked_by(rt: &HostRuntime, what: &CallTask) -> Result<Asked, Unmade>
    ensures { IfOk result (λ a. CanBeMade a) }
{
    let alloc = rt.alloc();
    let declared = match declared_installed(rt, &what.types, &what.name)? {
        Some(declared) => declared,
        None => declared_by(rt, &what.types)?,
    };
    let Some(limits) = Limits::new(what.depth, what.bytes) else {
        return Err(line(alloc, "limits refused\n"));
    };
    let kinds = match procedure_named(&declared, what.name.as_bytes()) {
        Ok(named) => kinds_of(alloc, named.procedure)?,
        Err(why) => return Err(unasked_line(alloc, Unasked::Name(why))),
    };
    let (declared, arguments) = arguments_for(rt, what, declared, &kinds, limits)?;
    let terms = Terms {
        xid: xid_of(rt, what.xid),
        cred: credential(alloc, what)?,
        limits,
        form: form_of(what.printing),
    };
    match ask(alloc, declared, what.name.as_bytes(), arguments, terms) {
        Ok(asked) => Ok(asked),
        Err(why) => Err(unasked_line(alloc, why)),
    }
}

fn kinds_of(alloc: Global, procedure: &Procedure) -> Result<Vec<KindId>, AllocError> {
    Vec::from_slice(alloc, &procedure.arguments)
}

// The number of the call: what is asked for, or one that the clock makes.
fn xid_of(rt: &HostRuntime, asked: Option<u32>) -> u32 {
    if let Some(xid) = asked {
        return xid;
    }
    let Ok(now) = SystemTime::now(rt) else {
        return 1;
    };
    match now.duration_since(UNIX_EPOCH) {
        Ok(since) => since.subsec_nanos(),
        Err(_) => 1,
    }
}

fn form_of(printing: Printing) -> Form {
    match printing {
        Printing::Json => Form::Json(Layout::Compact),
        Printing::IndentedJson => Form::Json(Layout::Indented),
        Printing::Lines => Form::Lines,
        Printing::Hex => Form::Hex,
    }
}

// AUTH_SYS of the caller, or AUTH_NONE (RFC 5531 section 10.1 and appendix A).
fn credential(alloc: Global, what: &CallTask) -> Result<OpaqueAuth, Unmade>
    ensures { IfOk result (λ a. length a.body.items ≤ 400) }
{
    let Some(caller) = &what.caller else {
        return Ok(OpaqueAuth {
            flavor: 0,
            body: Vec::new(alloc),
        });
    };
    let body = sys_body(alloc, caller)?;
    if body.len() > 400 {
        return Err(line(alloc, "the credential has more than 400 bytes\n"));
    }
    Ok(OpaqueAuth { flavor: 1, body })
}

// The body of AUTH_SYS. The words have a machine and groups that are short enough.
fn sys_body(alloc: Global, caller: &Caller) -> Result<Vec<u8>, Unmade> {
    let sys = AuthSys {
        stamp: 0,
        machine: Vec::from_slice(alloc, caller.machine.as_bytes())?,
        uid: caller.uid,
        gid: caller.gid,
        gids: Vec::from_slice(alloc, &caller.gids)?,
    };
    if sys.machine.len() > 255 || sys.gids.len() > 16 {
        return Err(line(alloc, "the credential has more than 400 bytes\n"));
    }
    Ok(write_auth_sys(alloc, &sys)?)
}
