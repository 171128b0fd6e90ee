//! A registry at port 111 that is served streams of calls whole.
use crate::case::Case;
use crate::reported::Report;
use registry_answer::Transport;
use rpc_directory::Directory;
use rpc_engine::serve;
use std::alloc::Global;
use std::hash::{BuildHasherDefault, DefaultHasher};
use xdr_io::{IntoWrite, MemorySource};

/// A registry whose order is the same in each run.
pub type Registry = Directory<BuildHasherDefault<DefaultHasher>>;

/// A registry at port 111 with its own rows alone; without rows where memory is refused.
pub fn started(alloc: Global) -> Registry {
    match Directory::start(alloc, BuildHasherDefault::new(), 111) {
        Ok(directory) => directory,
        Err(_) => Directory::new(alloc, BuildHasherDefault::new()),
    }
}

// What is written where a stream is served and nothing fails.
fn serve_whole(alloc: Global, directory: &mut Registry, input: &[u8]) -> Vec<u8> {
    let mut written = Vec::new(alloc);
    let mut source = MemorySource::new(input, 4096, None);
    let mut sink = IntoWrite::new(&mut written);
    let _served = serve(alloc, &mut source, &mut sink, directory, Transport::Tcp);
    written
}

/// A registry that was served what comes before the call.
pub fn prepared(case: &Case<'_>) -> Registry {
    let mut directory = started(case.alloc);
    let _written = serve_whole(case.alloc, &mut directory, &case.bytes("before"));
    directory
}

/// What the registry, with all its memory, writes afterwards for the stream of the case.
pub fn after_word(out: &mut Report, directory: &mut Registry, case: &Case<'_>) {
    let written = serve_whole(case.alloc, directory, &case.bytes("after"));
    out.digits(" after=", &written);
}
