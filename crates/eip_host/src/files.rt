ghost use Rattle.std.specs.Prelude.{◌≡◌, ◌≢◌, ◌<◌, ℕ, List, Ok, Err, Some, length, map, IfOk, IfErr, IfSome, IsErrOf, IsTrue, string_bytes};
ghost use Rattle.std.specs.IoError.{error_kind};
ghost use Rattle.eip_text.specs.Causes.{Rises};
ghost use Rattle.eip_endpoint.specs.Content.{IfTold};
ghost use Rattle.eip_endpoint.specs.Files.{read_of, bytes_at, is_among, is_there, IsWithin, IsAscending, AreNamesIn, others, moved, Changes, Writes, files_failure};
ghost use Rattle.eip_host.specs.Asked.{WasAsked, WasAskedMaking, WasAskedFor, WasPut};
ghost use Rattle.eip_host.specs.Listings.{WasFound, AreFiles, WasListed, WasRefused};
ghost use Rattle.eip_host.specs.Paths.{path_of, untold_files, IsUnopened, WasTried};

use crate::output::put_all;
use crate::reading::{ReadFault, new_piece, read_behind};
use crate::system::FileSystem;
use eip_endpoint::{FileRead, Files, FilesFault, Mover, in_byte_order};
use eip_text::{NoMemory, Series, Text};
use std::alloc::{AllocError, Global};
use std::io::{Error, ErrorKind, Read};

/// The path of a file: its folder, `/` and its name.
fn joined(alloc: Global, folder: &str, name: &str) -> Result<String, AllocError>
    ensures { IfOk result (λ path. string_bytes path ≡ path_of folder.now name.now) }
{
    let mut path = String::from_str(alloc, folder)?;
    if folder != "/" {
        path.push_str("/")?;
    }
    path.push_str(name)?;
    Ok(path)
}

/// What a file that was not opened answers: it is missing exactly where the system found none.
fn unopened(error: &Error) -> Result<FileRead, FilesFault>
    ensures { IsUnopened error.now result }
{
    if error.kind() == ErrorKind::NotFound {
        Ok(FileRead::Missing)
    } else {
        Err(FilesFault::Failed)
    }
}

/// What a listing answers where the system answered an error.
fn fault_of(error: &Error) -> FilesFault
    ensures { result ≡ FilesFault.Failed → error_kind error.now ≢ ErrorKind.OutOfMemory }
{
    if error.kind() == ErrorKind::OutOfMemory {
        FilesFault::NoMemory
    } else {
        FilesFault::Failed
    }
}

/// All bytes of a reader that has at most `limit`, read piece by piece. Of a longer one no more than `limit` and one
/// are read.
fn read_by_pieces<R: Read>(
    alloc: Global,
    reader: &mut R,
    piece: &mut [u8],
    limit: usize,
) -> Result<FileRead, FilesFault>
    requires { 0 < length piece.old }
    ensures read { IfOk result (λ r. IfSome (R.remaining reader.old) (λ all. r ≡ read_of limit (Some all))) }
    ensures within { IfOk result (IsWithin limit) }
    ensures there { result ≢ Ok FileRead.Missing }
{
    let mut bytes = Vec::new(alloc);
    'pieces: loop {
        let wanted = (limit - bytes.len()).min(piece.len() - 1) + 1;
        match read_behind(&mut bytes, &mut piece[..wanted], reader) {
            Ok(true) if bytes.len() > limit => return Ok(FileRead::TooLong),
            Ok(true) => {}
            Ok(false) => return Ok(FileRead::Bytes(Series::of(bytes))),
            Err(ReadFault::Failed) => return Err(FilesFault::Failed),
            Err(ReadFault::NoMemory) => return Err(FilesFault::NoMemory),
        }
    }
}

/// All bytes of a reader that has at most `limit`.
pub fn read_within<R: Read>(
    alloc: Global,
    reader: &mut R,
    limit: usize,
) -> Result<FileRead, FilesFault>
    ensures read { IfOk result (λ r. IfSome (R.remaining reader.old) (λ all. r ≡ read_of limit (Some all))) }
    ensures within { IfOk result (IsWithin limit) }
    ensures there { result ≢ Ok FileRead.Missing }
{
    match new_piece(alloc) {
        Ok(mut piece) => read_by_pieces(alloc, reader, piece.as_mut_slice(), limit),
        Err(NoMemory) => Err(FilesFault::NoMemory),
    }
}

/// The names in byte order, each once.
fn ordered(alloc: Global, names: &[String]) -> Result<Vec<Text>, NoMemory>
    ensures ascending { IfOk result (λ texts. IsAscending texts.items) }
    ensures same { IfOk result (λ texts. (name : List ℕ) → is_among name texts.items ≡ is_among name (map string_bytes names.now)) }
{
    let mut borrowed = Vec::new(alloc);
    for name in names {
        borrowed.push(name.as_str())?;
    }
    in_byte_order(alloc, borrowed)
}

/// The files of a system, each under the path of its folder and its name. They tell no content.
#[derive(Drop)]
pub struct HostFiles<D> {
    pub alloc: Global,
    pub system: D,
    /// How many calls failed.
    pub faults: u64,
}

impl<D: FileSystem> HostFiles<D> {
    /// The files of this system.
    pub fn new(alloc: Global, system: D) -> HostFiles<D>
        ensures { (result.system ≡ system) × (result.faults ≡ 0) }
    {
        HostFiles {
            alloc,
            system,
            faults: 0,
        }
    }

    /// Opens the path of a file and reads it.
    fn open_and_read(
        &self,
        folder: &Text,
        name: &Text,
        limit: usize,
    ) -> Result<FileRead, FilesFault>
        ensures within { IfOk result (IsWithin limit) }
        ensures tried { result ≢ Err FilesFault.NoMemory → WasTried (D.opens self.now.system) D.File.remaining (path_of folder.now name.now) limit result }
    {
        let Ok(path) = joined(self.alloc, folder.as_str(), name.as_str()) else {
            return Err(FilesFault::NoMemory);
        };
        match self.system.open(path.as_str()) {
            Ok(mut file) => read_within(self.alloc, &mut file, limit),
            Err(error) => unopened(&error),
        }
    }

    /// Counts a call by its answer.
    fn count<T>(&mut self, answer: &Result<T, FilesFault>)
        ensures faults { Rises (files_failure answer.now) self.old.faults self.new.faults }
    {
        if let Err(FilesFault::Failed) = answer {
            self.faults = self.faults.saturating_add(1);
        }
    }

    /// The names of what stands in a folder, none where it is not there.
    fn found(&self, folder: &str) -> Result<Vec<String>, Error>
        ensures found { IfOk result (λ names. WasFound (D.lists self.now.system folder.now) (map string_bytes names.items)) }
        ensures refused { IfErr result (λ e. D.lists self.now.system folder.now (Err e)) }
    {
        match self.system.names(self.alloc, folder) {
            Ok(names) => Ok(names),
            Err(error) if error.kind() == ErrorKind::NotFound => Ok(Vec::new(self.alloc)),
            Err(error) => Err(error),
        }
    }

    /// Whether the path of a folder and a name is that of a file.
    fn tells(&self, folder: &str, name: &str) -> Result<bool, Error>
        ensures told { IfOk result (λ there. D.tells self.now.system (path_of folder.now name.now) (Ok there)) }
        ensures refused { IfErr result (λ e. error_kind e ≢ ErrorKind.OutOfMemory → D.tells self.now.system (path_of folder.now name.now) (Err e)) }
    {
        let path = joined(self.alloc, folder, name)?;
        self.system.is_file(path.as_str())
    }

    /// Those of the names whose path is that of a file.
    fn files_among(&self, folder: &str, found: Vec<String>) -> Result<Vec<String>, Error>
        ensures files { IfOk result (λ names. AreFiles (D.tells self.now.system) folder.now (map string_bytes found.items) (map string_bytes names.items)) }
        ensures refused { IfErr result (λ e. error_kind e ≢ ErrorKind.OutOfMemory → (name : List ℕ) × D.tells self.now.system (path_of folder.now name) (Err e)) }
    {
        let mut names = Vec::new(self.alloc);
        for name in found {
            let is_file = self.tells(folder, name.as_str())?;
            if is_file {
                names.push(name)?;
            }
        }
        Ok(names)
    }

    /// The names of the plain files of a folder, none where it is not there.
    fn names(&self, folder: &str) -> Result<Vec<String>, Error>
        ensures listed { IfOk result (λ names. WasListed (D.lists self.now.system folder.now) (D.tells self.now.system) folder.now (map string_bytes names.items)) }
        ensures refused { IfErr result (λ e. error_kind e ≢ ErrorKind.OutOfMemory → WasRefused (D.lists self.now.system folder.now) (D.tells self.now.system) folder.now) }
    {
        let found = self.found(folder)?;
        self.files_among(folder, found)
    }

    /// What listing a folder answers.
    fn listing(&self, folder: &Text) -> Result<Vec<Text>, FilesFault>
        ensures ascending { IfOk result (λ names. IsAscending names.items) }
        ensures listed { IfOk result (λ names. WasListed (D.lists self.now.system folder.now) (D.tells self.now.system) folder.now names.items) }
        ensures refused { IsErrOf result FilesFault.Failed → WasRefused (D.lists self.now.system folder.now) (D.tells self.now.system) folder.now }
    {
        let names = match self.names(folder.as_str()) {
            Ok(names) => names,
            Err(error) => return Err(fault_of(&error)),
        };
        match ordered(self.alloc, names.as_slice()) {
            Ok(names) => Ok(names),
            Err(NoMemory) => Err(FilesFault::NoMemory),
        }
    }

    /// Whether the path of a file is one.
    fn is_there(&self, folder: &Text, name: &Text) -> Result<bool, FilesFault>
        ensures { result ≢ Err FilesFault.NoMemory → WasAsked (D.tells self.now.system (path_of folder.now name.now)) result }
    {
        let Ok(path) = joined(self.alloc, folder.as_str(), name.as_str()) else {
            return Err(FilesFault::NoMemory);
        };
        match self.system.is_file(path.as_str()) {
            Ok(there) => Ok(there),
            Err(_) => Err(FilesFault::Failed),
        }
    }

    /// Opens a file for writing. Its folder is made where it is not there.
    fn open_to_write(&self, folder: &str, path: &str, append: bool) -> Result<D::File, Error>
        ensures { WasAskedMaking (D.opens_to_write self.now.system path.now append) (D.makes self.now.system folder.now) result }
    {
        match self.system.open_to_write(path, append) {
            Ok(file) => Ok(file),
            Err(error) if error.kind() == ErrorKind::NotFound => {
                self.system.make_folder(folder)?;
                self.system.open_to_write(path, append)
            }
            Err(error) => Err(error),
        }
    }

    /// Opens the path of a file and writes all of the bytes.
    fn open_and_write(
        &self,
        folder: &Text,
        name: &Text,
        bytes: &[u8],
        append: bool,
    ) -> Result<(), FilesFault>
        ensures { result ≢ Err FilesFault.NoMemory → WasPut (D.opens_to_write self.now.system (path_of folder.now name.now) append) (D.makes self.now.system folder.now) D.File.contents bytes.now result }
    {
        let Ok(path) = joined(self.alloc, folder.as_str(), name.as_str()) else {
            return Err(FilesFault::NoMemory);
        };
        let Ok(mut file) = self.open_to_write(folder.as_str(), path.as_str(), append) else {
            return Err(FilesFault::Failed);
        };
        if put_all(&mut file, bytes) {
            Ok(())
        } else {
            Err(FilesFault::Failed)
        }
    }

    /// Gives a file another path. The folder of that path is made where it is not there.
    fn rename_into(&self, from: &str, folder: &str, to: &str) -> Result<(), Error>
        ensures { WasAskedMaking (D.renames self.now.system from.now to.now) (D.makes self.now.system folder.now) result }
    {
        match self.system.rename(from, to) {
            Ok(()) => Ok(()),
            Err(error) if error.kind() == ErrorKind::NotFound => {
                self.system.make_folder(folder)?;
                self.system.rename(from, to)
            }
            Err(error) => Err(error),
        }
    }

    /// Moves a file to another folder.
    fn move_to(&self, folder: &Text, name: &Text, to: &Text) -> Result<(), FilesFault>
        ensures { result ≢ Err FilesFault.NoMemory → WasAskedFor (D.renames self.now.system (path_of folder.now name.now) (path_of to.now name.now)) (D.makes self.now.system to.now) result }
    {
        let Ok(from) = joined(self.alloc, folder.as_str(), name.as_str()) else {
            return Err(FilesFault::NoMemory);
        };
        let Ok(path) = joined(self.alloc, to.as_str(), name.as_str()) else {
            return Err(FilesFault::NoMemory);
        };
        match self.rename_into(from.as_str(), to.as_str(), path.as_str()) {
            Ok(()) => Ok(()),
            Err(_) => Err(FilesFault::Failed),
        }
    }

    /// Removes the path of a file.
    fn take_away(&self, folder: &Text, name: &Text) -> Result<(), FilesFault>
        ensures { result ≢ Err FilesFault.NoMemory → WasAsked (D.removes self.now.system (path_of folder.now name.now)) result }
    {
        let Ok(path) = joined(self.alloc, folder.as_str(), name.as_str()) else {
            return Err(FilesFault::NoMemory);
        };
        match self.system.remove(path.as_str()) {
            Ok(()) => Ok(()),
            Err(_) => Err(FilesFault::Failed),
        }
    }
}

impl<D: FileSystem> Files for HostFiles<D> {
    ghost files = { λ _. untold_files };

    ghost files_faults = { λ f. f.faults };

    /// The names of the plain files of a folder, and of links to such. `Failed` comes only where the system answered an
    /// error for the folder, or for the path of one of its names.
    fn list(&mut self, folder: &Text) -> Result<Vec<Text>, FilesFault>
        ensures same { untold_files ≡ untold_files }
        ensures names { IfOk result (λ names. IfTold untold_files (AreNamesIn folder.now names.items)) }
        ensures ascending { IfOk result (λ names. IsAscending names.items) }
        ensures faults { Rises (files_failure result) self.old.faults self.new.faults }
        ensures listed { IfOk result (λ names. WasListed (D.lists self.old.system folder.now) (D.tells self.old.system) folder.now names.items) }
        ensures refused { IsErrOf result FilesFault.Failed → WasRefused (D.lists self.old.system folder.now) (D.tells self.old.system) folder.now }
    {
        let answer = self.listing(folder);
        self.count(&answer);
        answer
    }

    /// Whether the path of a folder and a name is that of a plain file, or of a link to one. `Failed` comes exactly
    /// where the system answered an error.
    fn has(&mut self, folder: &Text, name: &Text) -> Result<bool, FilesFault>
        ensures same { untold_files ≡ untold_files }
        ensures has { IfOk result (λ there. IfTold untold_files (λ all. there ≡ is_there folder.now name.now all)) }
        ensures faults { Rises (files_failure result) self.old.faults self.new.faults }
        ensures asked { result ≢ Err FilesFault.NoMemory → WasAsked (D.tells self.old.system (path_of folder.now name.now)) result }
    {
        let answer = self.is_there(folder, name);
        self.count(&answer);
        answer
    }

    /// Reads the file under the path of its folder and its name: `Missing` exactly where opening that path gave
    /// `NotFound`, and `Failed` where it gave another error or the file could not be read.
    fn read(&mut self, folder: &Text, name: &Text, limit: usize) -> Result<FileRead, FilesFault>
        ensures same { untold_files ≡ untold_files }
        ensures read { IfOk result (λ r. IfTold untold_files (λ all. r ≡ read_of limit (bytes_at folder.now name.now all))) }
        ensures within { IfOk result (IsWithin limit) }
        ensures faults { Rises (files_failure result) self.old.faults self.new.faults }
        ensures tried { result ≢ Err FilesFault.NoMemory → WasTried (D.opens self.old.system) D.File.remaining (path_of folder.now name.now) limit result }
    {
        let answer = self.open_and_read(folder, name, limit);
        self.count(&answer);
        answer
    }

    /// Writes a file. The folders that are not there are made. `Failed` comes where the file could not be opened, its
    /// folder could not be made, or not all of the bytes were written; the front of them may stand in the file then.
    fn write(
        &mut self,
        folder: &Text,
        name: &Text,
        bytes: &[u8],
        append: bool,
    ) -> Result<(), FilesFault>
        ensures written { Writes folder.now name.now bytes.now append untold_files result untold_files }
        ensures faults { Rises (files_failure result) self.old.faults self.new.faults }
        ensures put { result ≢ Err FilesFault.NoMemory → WasPut (D.opens_to_write self.old.system (path_of folder.now name.now) append) (D.makes self.old.system folder.now) D.File.contents bytes.now result }
    {
        let answer = self.open_and_write(folder, name, bytes, append);
        self.count(&answer);
        answer
    }
}

impl<D: FileSystem> Mover for HostFiles<D> {
    /// Moves a file to another folder, which is made where it is not there. `Failed` comes where the system answered an
    /// error, as it does for a file that is not there; the other folder may have been made then.
    fn rename(&mut self, folder: &Text, name: &Text, to: &Text) -> Result<(), FilesFault>
        ensures there { IfOk result (λ _. IfTold untold_files (λ all. IsTrue (is_there folder.now name.now all))) }
        ensures moved { Changes (moved folder.now name.now to.now) untold_files result untold_files }
        ensures faults { Rises (files_failure result) self.old.faults self.new.faults }
        ensures asked { result ≢ Err FilesFault.NoMemory → WasAskedFor (D.renames self.old.system (path_of folder.now name.now) (path_of to.now name.now)) (D.makes self.old.system to.now) result }
    {
        let answer = self.move_to(folder, name, to);
        self.count(&answer);
        answer
    }

    /// Removes the file under the path of its folder and its name. `Failed` comes exactly where the system answered an
    /// error, as it does for a file that is not there.
    fn remove(&mut self, folder: &Text, name: &Text) -> Result<(), FilesFault>
        ensures there { IfOk result (λ _. IfTold untold_files (λ all. IsTrue (is_there folder.now name.now all))) }
        ensures removed { Changes (others folder.now name.now) untold_files result untold_files }
        ensures faults { Rises (files_failure result) self.old.faults self.new.faults }
        ensures asked { result ≢ Err FilesFault.NoMemory → WasAsked (D.removes self.old.system (path_of folder.now name.now)) result }
    {
        let answer = self.take_away(folder, name);
        self.count(&answer);
        answer
    }
}
