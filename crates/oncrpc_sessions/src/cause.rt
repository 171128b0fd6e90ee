//! Why something of the system failed, as far as there are words for it.
ghost use Rattle.std.specs.Prelude.{◌≡◌, IfOk, string_bytes};
ghost use Rattle.std.specs.IoError.{error_kind, raw_os_error};
ghost use Rattle.oncrpc_sessions.specs.Faults.{cause_of, cause_text, numbered};

use std::alloc::{AllocError, Global};
use std::io;
use std::io::ErrorKind;

/// Why something of the system failed.
#[derive(Clone, Copy, Debug, PartialEq, Eq)]
pub enum Cause {
    /// Another socket has the address.
    AddressInUse,
    /// The address is none of this host's.
    AddressNotAvailable,
    /// The user may not do this.
    PermissionDenied,
    /// A file or a folder is not there.
    NoSuchFile,
    /// Another file is there.
    FileExists,
    /// A part of a path before the last is no folder.
    NotADirectory,
    /// A path is too long.
    NameTooLong,
    /// Nothing can be written there.
    ReadOnly,
    /// No space is left there.
    NoSpace,
    /// The user has as much there as may be.
    OverQuota,
    /// An error of the system with this number, as `errno` has it, that has no words here.
    Error(u32),
    /// An error without a number.
    Other,
}

impl Cause {
    /// Why something failed with this error. None: memory was refused.
    pub fn of(error: &io::Error) -> Option<Cause>
        ensures { result ≡ cause_of (error_kind error.now) (raw_os_error error.now) }
    {
        cause_of(error.kind(), error.raw_os_error())
    }

    /// Its words. The error is an allocation failure.
    pub fn text(self, alloc: Global) -> Result<String, AllocError>
        ensures { IfOk result (λ text. string_bytes text ≡ cause_text self) }
    {
        match self {
            Cause::AddressInUse => String::from_str(alloc, "address in use"),
            Cause::AddressNotAvailable => String::from_str(alloc, "address not available"),
            Cause::PermissionDenied => String::from_str(alloc, "permission denied"),
            Cause::NoSuchFile => String::from_str(alloc, "no such file"),
            Cause::FileExists => String::from_str(alloc, "file exists"),
            Cause::NotADirectory => String::from_str(alloc, "not a directory"),
            Cause::NameTooLong => String::from_str(alloc, "name too long"),
            Cause::ReadOnly => String::from_str(alloc, "read-only filesystem"),
            Cause::NoSpace => String::from_str(alloc, "no space left"),
            Cause::OverQuota => String::from_str(alloc, "quota exceeded"),
            Cause::Error(number) => format!(in alloc; "error {number}"),
            Cause::Other => String::from_str(alloc, "other error"),
        }
    }
}

fn cause_of(kind: ErrorKind, number: Option<i32>) -> Option<Cause>
    ensures { result ≡ cause_of kind number }
{
    match kind {
        ErrorKind::OutOfMemory => None,
        ErrorKind::AddrInUse => Some(Cause::AddressInUse),
        ErrorKind::AddrNotAvailable => Some(Cause::AddressNotAvailable),
        ErrorKind::PermissionDenied => Some(Cause::PermissionDenied),
        ErrorKind::NotFound => Some(Cause::NoSuchFile),
        ErrorKind::AlreadyExists => Some(Cause::FileExists),
        ErrorKind::NotADirectory => Some(Cause::NotADirectory),
        ErrorKind::InvalidFilename => Some(Cause::NameTooLong),
        ErrorKind::ReadOnlyFilesystem => Some(Cause::ReadOnly),
        ErrorKind::StorageFull => Some(Cause::NoSpace),
        ErrorKind::QuotaExceeded => Some(Cause::OverQuota),
        _ => Some(numbered(number)),
    }
}

fn numbered(number: Option<i32>) -> Cause
    ensures { result ≡ numbered number }
{
    match number {
        Some(number) => Cause::Error(number.unsigned_abs()),
        None => Cause::Other,
    }
}
