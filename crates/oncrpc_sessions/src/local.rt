//! A Unix socket at a path that no other user can reach, at no moment.
use mio::net::{UnixListener, UnixStream};
use std::alloc::Global;
use std::fs::{DirBuilder, Files, Permissions};
use std::io::ErrorKind;
use std::net::Net;
use std::os::unix::fs::{DirBuilderExt, FileTypeExt, PermissionsExt};
use std::{fs, io};

/// How many names of a folder are tried.
const MOST_FOLDERS: u32 = 16;

/// The most bytes of a path, behind which `.0/socket` still fits the 107 bytes of a socket's name.
const MOST_PATH: usize = 98;

/// A folder beside a path, and where the socket stands in it at first.
#[derive(Drop)]
struct Folder {
    path: String,
    socket: String,
}

/// Listens at a path, whose file has mode 0600 and is of this user. The socket is made in a folder beside it that has
/// mode 0700, and it is moved to the path once it has its own mode. A socket that stands there is replaced if nobody
/// answers at it. Else the error is `AddrInUse`, and `AlreadyExists` where another file stands there. With more than 98
/// bytes of path it is `InvalidFilename`.
pub fn listen_at<R: Files + Net>(rt: &R, alloc: Global, path: &str) -> io::Result<UnixListener> {
    if path.len() > MOST_PATH {
        return Err(io::Error::from(ErrorKind::InvalidFilename));
    }
    refuse_taken(rt, path)?;
    let folder = own_folder(rt, alloc, path)?;
    let listener = listen_in(rt, folder.socket.as_str(), path);
    if listener.is_err() {
        let _gone = fs::remove_file(rt, folder.socket.as_str());
    }
    let _left = fs::remove_dir(rt, folder.path.as_str());
    listener
}

/// Refuses a path at which another file stands than a socket that nobody answers at.
fn refuse_taken<R: Files + Net>(rt: &R, path: &str) -> io::Result<()> {
    let metadata = match fs::symlink_metadata(rt, path) {
        Ok(metadata) => metadata,
        Err(fault) if fault.kind() == ErrorKind::NotFound => return Ok(()),
        Err(fault) => return Err(fault),
    };
    if !metadata.file_type().is_socket() {
        return Err(io::Error::from(ErrorKind::AlreadyExists));
    }
    match UnixStream::connect(rt, path) {
        Err(fault) if fault.kind() == ErrorKind::ConnectionRefused => Ok(()),
        _ => Err(io::Error::from(ErrorKind::AddrInUse)),
    }
}

/// Makes a folder of mode 0700 beside the path, whose name no other file has. All memory is taken before.
fn own_folder<R: Files>(rt: &R, alloc: Global, path: &str) -> io::Result<Folder> {
    for number in 0..MOST_FOLDERS {
        let folder = Folder {
            path: format!(in alloc; "{path}.{number}")?,
            socket: format!(in alloc; "{path}.{number}/socket")?,
        };
        match DirBuilder::new()
            .mode(0o700)
            .create(rt, folder.path.as_str())
        {
            Ok(()) => return Ok(folder),
            Err(fault) if fault.kind() == ErrorKind::AlreadyExists => {}
            Err(fault) => return Err(fault),
        }
    }
    Err(io::Error::from(ErrorKind::AlreadyExists))
}

/// Listens at a path in a folder that others cannot enter, and moves the socket to another path.
fn listen_in<R: Files + Net>(rt: &R, socket: &str, path: &str) -> io::Result<UnixListener> {
    let listener = UnixListener::bind(rt, socket)?;
    fs::set_permissions(rt, socket, Permissions::from_mode(0o600))?;
    fs::rename(rt, socket, path)?;
    Ok(listener)
}
