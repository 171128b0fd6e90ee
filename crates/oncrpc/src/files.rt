//! Texts of declarations in files.
use oncrpc_tasks::Opener;
use std::alloc::AllocError;
use std::rt::Files;
use std::{env, fs, io};
use xdr_io::{FromRead, ReadFault};

/// The most bytes of the name of an installed text.
const MOST_NAME: usize = 255;

/// Opens files by their paths, and a text that is installed with the program by its name, which is one without a dot or
/// a slash. Its contract says nothing of them.
#[derive(Drop)]
pub struct FileOpener<'a, R> {
    rt: &'a R,
    // The folder of the installed texts, or an empty text.
    folder: String,
    // Where a path in it is put together. Its memory is there from the start, so that an open wants none.
    path: String,
    // Whether a name is that of an installed text alone, and no path.
    installed: bool,
}

impl<'a, R: Files + AllocGlobal> FileOpener<'a, R> {
    /// An opener of the system's files. The error is an allocation failure.
    pub fn new(rt: &'a R) -> Result<Self, AllocError> {
        FileOpener::of(rt, false)
    }

    /// An opener of the installed texts alone, whatever lies in the current folder. The error is an allocation failure.
    pub fn installed(rt: &'a R) -> Result<Self, AllocError> {
        FileOpener::of(rt, true)
    }

    fn of(rt: &'a R, installed: bool) -> Result<Self, AllocError> {
        let folder = installed_folder(rt)?;
        let most = folder.len().saturating_add(MOST_NAME + 3);
        let path = String::with_capacity(rt.alloc(), most)?;
        Ok(FileOpener {
            rt,
            folder,
            path,
            installed,
        })
    }

    // The text NAME.x in the folder of the installed texts, where there is one.
    fn open_installed(&mut self, name: &str) -> Option<R::File> {
        if self.folder.is_empty() || name.len() > MOST_NAME {
            return None;
        }
        self.path.clear();
        self.path.push_str(self.folder.as_str()).ok()?;
        self.path.push_str("/").ok()?;
        self.path.push_str(name).ok()?;
        self.path.push_str(".x").ok()?;
        fs::open(self.rt, self.path.as_str()).ok()
    }
}

// The folder PREFIX/share/oncrpc, where the program is PREFIX/bin/oncrpc; an empty text where that is not known.
fn installed_folder<R: Files + AllocGlobal>(rt: &R) -> Result<String, AllocError> {
    let mut path = match env::current_exe(rt) {
        Ok(path) => path,
        Err(error) if error.kind() == io::ErrorKind::OutOfMemory => return Err(AllocError),
        Err(_) => return Ok(String::new(rt.alloc())),
    };
    path.pop();
    path.pop();
    path.push("share/oncrpc")?;
    Ok(path.into_string())
}

impl<'a, R: Files + AllocGlobal> Opener for FileOpener<'a, R> {
    type Text = FromRead<R::File>;

    fn open(&mut self, name: &str) -> Result<FromRead<R::File>, ReadFault> {
        let is_plain = !name.contains(['/', '.']);
        let opened = if self.installed || is_plain && is_free(self.rt, name) {
            self.open_installed(name)
        } else {
            fs::open(self.rt, name).ok()
        };
        match opened {
            Some(file) => Ok(FromRead::new(file)),
            None => Err(ReadFault),
        }
    }
}

// Whether nothing has the name in the current folder, or a folder has it, which is no text.
fn is_free<R: Files>(rt: &R, name: &str) -> bool {
    match fs::metadata(rt, name) {
        Ok(found) => found.is_dir(),
        Err(error) => error.kind() == io::ErrorKind::NotFound,
    }
}
