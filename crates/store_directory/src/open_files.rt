//! The files that are being written. Each keeps the descriptor that created it until it is sealed, so that an error which
//! the system keeps for that descriptor is met there, and so that no other file is written that was put in its place.
ghost use Rattle.std.specs.Prelude.{◌≡◌, ◌<◌, OnOk, position, bytes_eq, string_bytes, vec_len};

use crate::calls::{SystemErr, check_same, look_for_file, metadata_of};
use crate::directories::sync;
use crate::whole::write_whole;
use std::alloc::Global;
use std::fs::File;

/// How many files may be open at once. A process may have 1,024 on an ordinary system.
pub const OPEN_LIMIT: usize = 256;

#[derive(Drop)]
struct OpenFile {
    path: String,
    file: File,
}

/// Files that were created and aren't sealed yet.
#[derive(Drop)]
pub struct OpenFiles {
    files: Vec<OpenFile>,
}

impl OpenFiles {
    /// No file.
    pub fn new(alloc: Global) -> OpenFiles {
        OpenFiles {
            files: Vec::new(alloc),
        }
    }

    /// Makes room for one more, before it is created. Refused where the limit is reached.
    pub fn reserve(&mut self) -> Result<(), SystemErr>
        ensures room { OnOk result (vec_len self.old.files < 256) }
        ensures files { self.new.files.items ≡ self.old.files.items }
    {
        if self.files.len() >= OPEN_LIMIT {
            return Err(SystemErr::Refused);
        }
        match self.files.reserve(1) {
            Ok(()) => Ok(()),
            Err(_) => Err(SystemErr::Memory),
        }
    }

    /// Keeps a file that was created at this path. There is room.
    pub fn add(&mut self, path: String, file: File) -> Result<(), SystemErr> {
        match self.files.push(OpenFile { path, file }) {
            Ok(()) => Ok(()),
            Err(_) => Err(SystemErr::Refused),
        }
    }

    /// Adds bytes at the end of the file that was created at this path.
    pub fn append(&mut self, path: &str, bytes: &[u8]) -> Result<(), SystemErr> {
        let Some(index) = self.index_of(path) else {
            return Err(SystemErr::Refused);
        };
        let Some(open) = self.files.get_mut(index) else {
            return Err(SystemErr::Refused);
        };
        match write_whole(&mut open.file, bytes) {
            Ok(()) => Ok(()),
            Err(_) => Err(SystemErr::Refused),
        }
    }

    /// Makes the bytes of the file that was created at this path durable, and closes it. Refused where that file doesn't
    /// stand there any more.
    pub fn seal(&mut self, rt: &HostRuntime, path: &str) -> Result<(), SystemErr> {
        let Some(file) = self.take(path) else {
            return Err(SystemErr::Refused);
        };
        match look_for_file(rt, path)? {
            Some(found) => check_same(&found, &metadata_of(&file)?)?,
            None => return Err(SystemErr::Refused),
        }
        sync(&file)
    }

    /// Takes out the file that was created at this path, where there is one.
    pub fn take(&mut self, path: &str) -> Option<File> {
        let index = self.index_of(path)?;
        if index >= self.files.len() {
            return None;
        }
        let OpenFile { file, .. } = self.files.swap_remove(index);
        Some(file)
    }

    fn index_of(&self, path: &str) -> Option<usize>
        ensures { result ≡ position (λ open_file. bytes_eq (string_bytes open_file.path) path.now) self.now.files.items }
    {
        self.files
            .iter()
            .position(|open| open.path.as_str() == path)
    }
}
