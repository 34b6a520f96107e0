ghost use Rattle.std.specs.Prelude.{◌≡◌, ℕ, List, Option, IfOk, IsTrue};
ghost use Rattle.eip_text.specs.Causes.{Rises};
ghost use Rattle.eip_endpoint.specs.Content.{IfTold};
ghost use Rattle.eip_endpoint.specs.Files.{File, bytes_at, is_there, read_of, IsWithin, IsAscending, AreNamesIn, others, moved, Changes, Writes, files_failure};

use eip_text::{Series, Text};
use thiserror::Error;

/// What reading a file answers.
#[derive(Drop)]
pub enum FileRead {
    /// All bytes of the file.
    Bytes(Series<u8>),
    /// There is no such file.
    Missing,
    /// The file has more bytes than the limit.
    TooLong,
}

/// Why a call on files was not carried out.
#[derive(Clone, Copy, Debug, PartialEq, Eq, Error)]
pub enum FilesFault {
    /// The files failed, and their count of faults rose or stands at its greatest value. A write that failed may
    /// leave anything in its file; nothing else changed.
    #[error("the files failed")]
    Failed,
    /// There was no memory, and nothing was done.
    #[error("out of memory")]
    NoMemory,
}

/// Files by folder and name. A call answers `Failed` only where the count of faults rose in it or stands at its
/// greatest value.
pub trait Files {
    /// The files, where the object tells them.
    ghost files: { Self → Option (List File) };

    /// The count of faults, which never falls.
    ghost files_faults: { Self → ℕ };

    /// The names of the files of a folder, each once, in byte order. A folder that is not there has none.
    fn list(&mut self, folder: &Text) -> Result<Vec<Text>, FilesFault>
        ensures same { files self.new ≡ files self.old }
        ensures names { IfOk result (λ names. IfTold (files self.old) (AreNamesIn folder.now names.items)) }
        ensures ascending { IfOk result (λ names. IsAscending names.items) }
        ensures faults { Rises (files_failure result) (files_faults self.old) (files_faults self.new) };

    /// Whether there is a file of this name in the folder.
    fn has(&mut self, folder: &Text, name: &Text) -> Result<bool, FilesFault>
        ensures same { files self.new ≡ files self.old }
        ensures has { IfOk result (λ there. IfTold (files self.old) (λ all. there ≡ is_there folder.now name.now all)) }
        ensures faults { Rises (files_failure result) (files_faults self.old) (files_faults self.new) };

    /// Reads a file of at most `limit` bytes.
    fn read(&mut self, folder: &Text, name: &Text, limit: usize) -> Result<FileRead, FilesFault>
        ensures same { files self.new ≡ files self.old }
        ensures read { IfOk result (λ r. IfTold (files self.old) (λ all. r ≡ read_of limit (bytes_at folder.now name.now all))) }
        ensures within { IfOk result (IsWithin limit) }
        ensures faults { Rises (files_failure result) (files_faults self.old) (files_faults self.new) };

    /// Writes a file, in place of what it held, or behind that where it is to append. A file that is not there is made.
    fn write(
        &mut self,
        folder: &Text,
        name: &Text,
        bytes: &[u8],
        append: bool,
    ) -> Result<(), FilesFault>
        ensures written { Writes folder.now name.now bytes.now append (files self.old) result (files self.new) }
        ensures faults { Rises (files_failure result) (files_faults self.old) (files_faults self.new) };
}

/// Files that can be moved and removed. A file that is not there can't: such a call fails.
pub trait Mover: Files {
    /// Moves a file to another folder, under its name. A file of that name which is there is replaced.
    fn rename(&mut self, folder: &Text, name: &Text, to: &Text) -> Result<(), FilesFault>
        ensures there { IfOk result (λ _. IfTold (Self.files self.old) (λ all. IsTrue (is_there folder.now name.now all))) }
        ensures moved { Changes (moved folder.now name.now to.now) (Self.files self.old) result (Self.files self.new) }
        ensures faults { Rises (files_failure result) (Self.files_faults self.old) (Self.files_faults self.new) };

    /// Removes a file.
    fn remove(&mut self, folder: &Text, name: &Text) -> Result<(), FilesFault>
        ensures there { IfOk result (λ _. IfTold (Self.files self.old) (λ all. IsTrue (is_there folder.now name.now all))) }
        ensures removed { Changes (others folder.now name.now) (Self.files self.old) result (Self.files self.new) }
        ensures faults { Rises (files_failure result) (Self.files_faults self.old) (Self.files_faults self.new) };
}
