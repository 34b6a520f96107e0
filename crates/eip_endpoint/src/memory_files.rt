ghost use Rattle.std.specs.Prelude.{◌≡◌, ◌≤◌, ◌+◌, ◌++◌, ◌||◌, not, Some, [], IfOk, IsTrue, option_map, map, vec_len, vec_capacity};
ghost use Rattle.eip_text.specs.Causes.{Rises};
ghost use Rattle.eip_endpoint.specs.Content.{IfTold};
ghost use Rattle.eip_endpoint.specs.Files.{bytes_at, is_file, is_there, read_of, IsWithin, IsAscending, AreNamesIn, others, with_file, held, moved, Changes, Writes, files_failure};
ghost use Rattle.eip_endpoint.specs.Counters.{fails_next, fresh};
ghost use Rattle.eip_endpoint.specs.MemoryFolders.{Called, names_in};

use crate::counter::CallCounter;
use crate::files::{FileRead, Files, FilesFault, Mover};
use crate::listing::in_byte_order;
use eip_text::{NoMemory, Series, Text};
use std::alloc::Global;
use std::marker::Model;

/// Files in memory, each by its folder, its name and its bytes. The calls whose number, from 1, stands in a list fail.
#[derive(Drop)]
pub struct MemoryFiles {
    alloc: Global,
    files: Vec<(Text, Text, Series<u8>)>,
    counter: CallCounter,
}

impl Model for MemoryFiles {
    ghost use Rattle.eip_endpoint.specs.MemoryFolders.{KeptFiles};

    ghost Value = { KeptFiles };

    ghost view = { λ f. record { files = f.files.items; counter = f.counter } };
}

/// Whether this is the file of this name in the folder.
fn is_file(file: &(Text, Text, Series<u8>), folder: &Text, name: &Text) -> bool
    ensures { result ≡ is_file folder.now name.now file.now }
{
    file.0.bytes() == folder.bytes() && file.1.bytes() == name.bytes()
}

/// The bytes of the first file of a folder and a name, or `None` where there is none.
fn find<'f>(files: &'f [(Text, Text, Series<u8>)], folder: &Text, name: &Text) -> Option<&'f [u8]>
    ensures { option_map (λ b. b.now) result ≡ bytes_at folder.now name.now files.now }
{
    for file in files {
        if is_file(file, folder, name) {
            return Some(file.2.items());
        }
    }
    None
}

/// What reading answers, with a copy of the bytes.
fn answer(
    alloc: Global,
    files: &[(Text, Text, Series<u8>)],
    folder: &Text,
    name: &Text,
    limit: usize,
) -> Result<FileRead, NoMemory>
    ensures read { IfOk result (λ r. r ≡ read_of limit (bytes_at folder.now name.now files.now)) }
    ensures within { IfOk result (IsWithin limit) }
{
    let Some(bytes) = find(files, folder, name) else {
        return Ok(FileRead::Missing);
    };
    if bytes.len() > limit {
        return Ok(FileRead::TooLong);
    }
    let mut copy = Vec::new(alloc);
    copy.extend_from_slice(bytes)?;
    Ok(FileRead::Bytes(Series::of(copy)))
}

/// The names of the files of a folder, as they stand.
fn names_in<'f>(
    alloc: Global,
    files: &'f [(Text, Text, Series<u8>)],
    folder: &Text,
) -> Result<Vec<&'f str>, NoMemory>
    ensures { IfOk result (λ names. map (λ n. n.now) names.items ≡ names_in folder.now files.now) }
{
    let mut names = Vec::new(alloc);
    for file in files {
        if file.0.bytes() == folder.bytes() {
            names.push(file.1.as_str())?;
        }
    }
    Ok(names)
}

/// What listing a folder answers.
fn listing(
    alloc: Global,
    files: &[(Text, Text, Series<u8>)],
    folder: &Text,
) -> Result<Vec<Text>, NoMemory>
    ensures names { IfOk result (λ names. AreNamesIn folder.now names.items files.now) }
    ensures ascending { IfOk result (λ names. IsAscending names.items) }
{
    let names = names_in(alloc, files, folder)?;
    in_byte_order(alloc, names)
}

/// A file with these bytes behind others.
fn file_of(
    alloc: Global,
    folder: &Text,
    name: &Text,
    front: &[u8],
    bytes: &[u8],
) -> Result<(Text, Text, Series<u8>), NoMemory>
    ensures { IfOk result (λ file. file ≡ (folder.now, name.now, front.now ++ bytes.now)) }
{
    let mut all = Vec::new(alloc);
    all.extend_from_slice(front)?;
    all.extend_from_slice(bytes)?;
    Ok((folder.copy()?, name.copy()?, Series::of(all)))
}

/// The bytes of a file, none where it is not there.
fn bytes_of<'f>(files: &'f [(Text, Text, Series<u8>)], folder: &Text, name: &Text) -> &'f [u8]
    ensures { result.now ≡ held folder.now name.now files.now }
{
    find(files, folder, name).unwrap_or(&[])
}

/// Leaves out the file of a folder and a name.
fn leave_out(files: &mut Vec<(Text, Text, Series<u8>)>, folder: &Text, name: &Text)
    ensures others { files.new.items ≡ others folder.now name.now files.old.items }
    ensures length { vec_len files.new ≤ vec_len files.old }
    ensures room { vec_capacity files.new ≡ vec_capacity files.old }
{
    files.retain(|file| !is_file(file, folder, name));
}

/// Puts a file in place of the one of its folder and name.
fn put(files: &mut Vec<(Text, Text, Series<u8>)>, file: (Text, Text, Series<u8>))
    requires { vec_len files.old + 1 ≤ vec_capacity files.old }
    ensures { files.new.items ≡ with_file file.0 file.1 file.2 files.old.items }
{
    leave_out(files, &file.0, &file.1);
    files.push(file).unwrap();
}

impl MemoryFiles {
    /// These files, as folder, name and bytes, by the numbers, from 1, of the calls that are to fail. Where two have
    /// one folder and name, the first one counts. It takes no memory.
    pub fn new(
        alloc: Global,
        content: Vec<(Text, Text, Series<u8>)>,
        failing: Vec<u64>,
    ) -> MemoryFiles
        ensures files { result.files ≡ content.items }
        ensures counter { result.counter ≡ fresh failing.items }
    {
        MemoryFiles {
            alloc,
            files: content,
            counter: CallCounter::new(failing),
        }
    }

    /// The files, as folder, name and bytes.
    pub fn content(&self) -> &[(Text, Text, Series<u8>)]
        ensures { result.now ≡ self.now.files }
    {
        self.files.as_slice()
    }
}

impl Files for MemoryFiles {
    ghost files = { λ f. Some f.files };

    ghost files_faults = { λ f. f.counter.faults };

    /// The names of the files of a folder. `Failed` comes exactly where the number of the call stands in the list.
    fn list(&mut self, folder: &Text) -> Result<Vec<Text>, FilesFault>
        ensures same { Some self.new.files ≡ Some self.old.files }
        ensures names { IfOk result (λ names. IfTold (Some self.old.files) (AreNamesIn folder.now names.items)) }
        ensures ascending { IfOk result (λ names. IsAscending names.items) }
        ensures faults { Rises (files_failure result) self.old.counter.faults self.new.counter.faults }
        ensures counted { Called (fails_next self.old.counter) self.old result self.new }
    {
        let Ok(names) = listing(self.alloc, self.files.as_slice(), folder) else {
            return Err(FilesFault::NoMemory);
        };
        if self.counter.advance() {
            return Err(FilesFault::Failed);
        }
        Ok(names)
    }

    /// Whether there is a file of this name in the folder. `Failed` comes exactly where the number of the call stands
    /// in the list.
    fn has(&mut self, folder: &Text, name: &Text) -> Result<bool, FilesFault>
        ensures same { Some self.new.files ≡ Some self.old.files }
        ensures has { IfOk result (λ there. IfTold (Some self.old.files) (λ all. there ≡ is_there folder.now name.now all)) }
        ensures faults { Rises (files_failure result) self.old.counter.faults self.new.counter.faults }
        ensures counted { Called (fails_next self.old.counter) self.old result self.new }
    {
        if self.counter.advance() {
            return Err(FilesFault::Failed);
        }
        Ok(find(self.files.as_slice(), folder, name).is_some())
    }

    /// Reads a file of at most `limit` bytes. `Failed` comes exactly where the number of the call stands in the list.
    fn read(&mut self, folder: &Text, name: &Text, limit: usize) -> Result<FileRead, FilesFault>
        ensures same { Some self.new.files ≡ Some self.old.files }
        ensures read { IfOk result (λ r. IfTold (Some self.old.files) (λ all. r ≡ read_of limit (bytes_at folder.now name.now all))) }
        ensures within { IfOk result (IsWithin limit) }
        ensures faults { Rises (files_failure result) self.old.counter.faults self.new.counter.faults }
        ensures counted { Called (fails_next self.old.counter) self.old result self.new }
    {
        let Ok(found) = answer(self.alloc, self.files.as_slice(), folder, name, limit) else {
            return Err(FilesFault::NoMemory);
        };
        if self.counter.advance() {
            return Err(FilesFault::Failed);
        }
        Ok(found)
    }

    /// Writes a file. `Failed` comes exactly where the number of the call stands in the list, and then the file stays.
    fn write(
        &mut self,
        folder: &Text,
        name: &Text,
        bytes: &[u8],
        append: bool,
    ) -> Result<(), FilesFault>
        ensures written { Writes folder.now name.now bytes.now append (Some self.old.files) result (Some self.new.files) }
        ensures faults { Rises (files_failure result) self.old.counter.faults self.new.counter.faults }
        ensures counted { Called (fails_next self.old.counter) self.old result self.new }
    {
        let front = if append {
            bytes_of(self.files.as_slice(), folder, name)
        } else {
            &[]
        };
        let Ok(file) = file_of(self.alloc, folder, name, front, bytes) else {
            return Err(FilesFault::NoMemory);
        };
        if self.files.reserve(1).is_err() {
            return Err(FilesFault::NoMemory);
        }
        if self.counter.advance() {
            return Err(FilesFault::Failed);
        }
        put(&mut self.files, file);
        Ok(())
    }
}

impl Mover for MemoryFiles {
    /// Moves a file to another folder. `Failed` comes exactly where the number of the call stands in the list, or the
    /// file is not there.
    fn rename(&mut self, folder: &Text, name: &Text, to: &Text) -> Result<(), FilesFault>
        ensures there { IfOk result (λ _. IfTold (Some self.old.files) (λ all. IsTrue (is_there folder.now name.now all))) }
        ensures moved { Changes (moved folder.now name.now to.now) (Some self.old.files) result (Some self.new.files) }
        ensures faults { Rises (files_failure result) self.old.counter.faults self.new.counter.faults }
        ensures counted { Called (fails_next self.old.counter || not (is_there folder.now name.now self.old.files)) self.old result self.new }
    {
        let Some(bytes) = find(self.files.as_slice(), folder, name) else {
            self.counter.refuse();
            return Err(FilesFault::Failed);
        };
        let Ok(file) = file_of(self.alloc, to, name, &[], bytes) else {
            return Err(FilesFault::NoMemory);
        };
        if self.files.reserve(1).is_err() {
            return Err(FilesFault::NoMemory);
        }
        if self.counter.advance() {
            return Err(FilesFault::Failed);
        }
        leave_out(&mut self.files, folder, name);
        put(&mut self.files, file);
        Ok(())
    }

    /// Removes a file. `Failed` comes exactly where the number of the call stands in the list, or the file is not there.
    fn remove(&mut self, folder: &Text, name: &Text) -> Result<(), FilesFault>
        ensures there { IfOk result (λ _. IfTold (Some self.old.files) (λ all. IsTrue (is_there folder.now name.now all))) }
        ensures removed { Changes (others folder.now name.now) (Some self.old.files) result (Some self.new.files) }
        ensures faults { Rises (files_failure result) self.old.counter.faults self.new.counter.faults }
        ensures counted { Called (fails_next self.old.counter || not (is_there folder.now name.now self.old.files)) self.old result self.new }
    {
        if find(self.files.as_slice(), folder, name).is_none() {
            self.counter.refuse();
            return Err(FilesFault::Failed);
        }
        if self.counter.advance() {
            return Err(FilesFault::Failed);
        }
        leave_out(&mut self.files, folder, name);
        Ok(())
    }
}
