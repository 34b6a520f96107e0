ghost use Rattle.std.specs.Prelude.{ℕ, List, Bool, Result, map, string_bytes};
ghost use Rattle.std.specs.Result.{result_map_both};
ghost use Rattle.std.specs.declared.io.Error.{Error as SystemError};

use std::alloc::Global;
use std::fs::OpenOptions;
use std::io::{Error, ErrorKind, Read, Write};
use std::{fs, rt};

/// What reaches files by their paths, as a system does.
pub trait FileSystem {
    /// What an opened file is read and written by.
    type File: Read + Write + Drop;

    /// What opening a path may give.
    ghost opens: { Self → List ℕ → Result Self.File SystemError → Type 0 };

    /// What opening a path for writing may give, at its end or not.
    ghost opens_to_write: { Self → List ℕ → Bool → Result Self.File SystemError → Type 0 };

    /// What asking whether a path is that of a file may give.
    ghost tells: { Self → List ℕ → Result Bool SystemError → Type 0 };

    /// What asking for the names in a folder may give.
    ghost lists: { Self → List ℕ → Result (List (List ℕ)) SystemError → Type 0 };

    /// What making a folder may give.
    ghost makes: { Self → List ℕ → Result Unit SystemError → Type 0 };

    /// What giving the file of a path another one may give.
    ghost renames: { Self → List ℕ → List ℕ → Result Unit SystemError → Type 0 };

    /// What removing the file of a path may give.
    ghost removes: { Self → List ℕ → Result Unit SystemError → Type 0 };

    /// Opens the file of a path for reading.
    fn open(&self, path: &str) -> Result<Self::File, Error>
        ensures { opens self.now path.now result };

    /// Opens the file of a path for writing, at its end or emptied. One that is not there is made.
    fn open_to_write(&self, path: &str, append: bool) -> Result<Self::File, Error>
        ensures { opens_to_write self.now path.now append result };

    /// Whether a path is that of a plain file, or of a link to one.
    fn is_file(&self, path: &str) -> Result<bool, Error>
        ensures { tells self.now path.now result };

    /// The names of what stands in a folder, in any order. Names that are no text are left out.
    fn names(&self, alloc: Global, folder: &str) -> Result<Vec<String>, Error>
        ensures { lists self.now folder.now (result_map_both (λ names. map string_bytes names.items) (λ e. e) result) };

    /// Makes a folder and those above it, as far as they are not there.
    fn make_folder(&self, folder: &str) -> Result<(), Error>
        ensures { makes self.now folder.now result };

    /// Gives a file another path. A file that has that path is replaced.
    fn rename(&self, from: &str, to: &str) -> Result<(), Error>
        ensures { renames self.now from.now to.now result };

    /// Removes the file of a path.
    fn remove(&self, path: &str) -> Result<(), Error>
        ensures { removes self.now path.now result };
}

/// The host's files, by a runtime. They don't tell what a path gives.
#[derive(Drop)]
pub struct HostFileSystem<R> {
    pub runtime: R,
}

impl<R: rt::Files + AllocGlobal + Clone + Drop> FileSystem for HostFileSystem<R> {
    type File = R::File;

    ghost opens = { λ _ _ _. Unit {0} };

    ghost opens_to_write = { λ _ _ _ _. Unit {0} };

    ghost tells = { λ _ _ _. Unit {0} };

    ghost lists = { λ _ _ _. Unit {0} };

    ghost makes = { λ _ _ _. Unit {0} };

    ghost renames = { λ _ _ _ _. Unit {0} };

    ghost removes = { λ _ _ _. Unit {0} };

    fn open(&self, path: &str) -> Result<R::File, Error> {
        fs::open(&self.runtime, path)
    }

    fn open_to_write(&self, path: &str, append: bool) -> Result<R::File, Error> {
        OpenOptions::new()
            .write(true)
            .create(true)
            .append(append)
            .truncate(!append)
            .open(&self.runtime, path)
    }

    fn is_file(&self, path: &str) -> Result<bool, Error> {
        match fs::metadata(&self.runtime, path) {
            Ok(metadata) => Ok(metadata.is_file()),
            Err(error) if error.kind() == ErrorKind::NotFound => Ok(false),
            Err(error) => Err(error),
        }
    }

    fn names(&self, alloc: Global, folder: &str) -> Result<Vec<String>, Error> {
        let mut names = Vec::new(alloc);
        for entry in fs::read_dir(&self.runtime, folder)? {
            match entry {
                Ok(entry) => names.push(String::from_str(alloc, entry.file_name())?)?,
                Err(error) if error.kind() == ErrorKind::InvalidFilename => {}
                Err(error) => return Err(error),
            }
        }
        Ok(names)
    }

    fn make_folder(&self, folder: &str) -> Result<(), Error> {
        fs::create_dir_all(&self.runtime, folder)
    }

    fn rename(&self, from: &str, to: &str) -> Result<(), Error> {
        fs::rename(&self.runtime, from, to)
    }

    fn remove(&self, path: &str) -> Result<(), Error> {
        fs::remove_file(&self.runtime, path)
    }
}
