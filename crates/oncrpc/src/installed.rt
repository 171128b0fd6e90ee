//! What the texts of declarations that are installed with the program declare.
use crate::files::FileOpener;
use oncrpc_answers::{Dialect, Failure, Texts};
use oncrpc_procedures::INSTALLED;
use oncrpc_tasks::{Unusable, declared};
use std::alloc::{AllocError, Global};
use xdr_lang::Declared;

/// What the installed texts declare, each by itself. One that is not there is passed over.
pub fn installed_texts(rt: &HostRuntime) -> Result<Vec<Declared>, Failure> {
    let alloc = rt.alloc();
    let mut texts = Vec::new(alloc);
    let mut opener = FileOpener::installed(rt)?;
    for (_number, name) in INSTALLED {
        match declared(alloc, &text_named(alloc, name)?, &mut opener) {
            Ok(text) => match texts.push(text) {
                Ok(()) => {}
                Err(_) => return Err(Failure::NoMemory),
            },
            Err(Unusable::Failed(Failure::NoMemory)) => return Err(Failure::NoMemory),
            Err(_) => {}
        }
    }
    Ok(texts)
}

// The installed text with this name.
fn text_named(alloc: Global, name: &str) -> Result<Texts, AllocError> {
    let mut files = Vec::new(alloc);
    files.push(String::from_str(alloc, name)?)?;
    Ok(Texts {
        files,
        dialect: Dialect::Rfc,
    })
}
