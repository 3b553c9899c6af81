//! The files of the system as a command line means them: the words name files from the working folder, and the names in a
//! specification stand for files beside it, but for those that begin at the root.

ghost use Rattle.std.specs.Prelude.{◌≡◌, None, ◌++◌, IfOk};

use std::alloc::{AllocError, Global};
use std::rt;
use wm_files::{Files, ReadFault, RealFiles, WriteFault};

/// The files of the system for these words.
#[derive(Drop)]
pub struct Beside<'w, R> {
    files: RealFiles<R>,
    alloc: Global,
    words: &'w [String],
    /// The specification's folder with the last slash, or nothing where it lies in the working folder.
    folder: &'w [u8],
}

impl<'w, R: rt::Files> Beside<'w, R> {
    /// The specification is the second word.
    pub fn new(alloc: Global, files: RealFiles<R>, words: &'w [String]) -> Beside<'w, R> {
        let folder = match words.get(1) {
            Some(specification) => folder_of(specification.as_bytes()),
            None => b"",
        };
        Beside {
            files,
            alloc,
            words,
            folder,
        }
    }

    fn is_word(&self, name: &[u8]) -> bool {
        self.words.iter().any(|word| word.as_bytes() == name)
    }

    /// The path of a name, from the working folder.
    fn path_of(&self, name: &[u8]) -> Result<Vec<u8>, AllocError> {
        if self.is_word(name) || name.first() == Some(&b'/') {
            return Vec::from_slice(self.alloc, name);
        }
        let mut path = Vec::from_slice(self.alloc, self.folder)?;
        path.extend_from_slice(name)?;
        Ok(path)
    }
}

/// What stands before the last part of a path, with the slash.
fn folder_of(path: &[u8]) -> &[u8] {
    match path.iter().rposition(|byte| *byte == b'/') {
        Some(slash) => &path[..slash + 1],
        None => b"",
    }
}

impl<'w, R: rt::Files> Files for Beside<'w, R> {
    ghost held = { λ _. None };

    ghost faults = { λ beside. beside.files.faults };

    fn read(&mut self, alloc: Global, name: &[u8], limit: u64) -> Result<Vec<u8>, ReadFault> {
        match self.path_of(name) {
            Ok(path) => self.files.read(alloc, &path, limit),
            Err(_) => Err(ReadFault::NoMemory),
        }
    }

    fn write(&mut self, name: &[u8], bytes: &[u8]) -> Result<(), WriteFault> {
        match self.path_of(name) {
            Ok(path) => self.files.write(&path, bytes),
            Err(_) => Err(WriteFault::NoMemory),
        }
    }
}
