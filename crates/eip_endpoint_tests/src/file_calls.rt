use eip_endpoint::{FileRead, Files, FilesFault, Mover};
use eip_text::{NoMemory, Text};
use std::alloc::Global;

/// What reading a file is to answer.
#[derive(Clone, Copy)]
pub enum Found {
    /// These bytes.
    Bytes(&'static [u8]),
    TooLong,
    Missing,
    Failed,
}

impl Found {
    /// Whether it answers so.
    pub fn is(self, read: &Result<FileRead, FilesFault>) -> bool {
        match (self, read) {
            (Found::Bytes(wanted), Ok(FileRead::Bytes(bytes))) => bytes.items() == wanted,
            (Found::TooLong, Ok(FileRead::TooLong)) => true,
            (Found::Missing, Ok(FileRead::Missing)) => true,
            (Found::Failed, Err(FilesFault::Failed)) => true,
            _ => false,
        }
    }
}

/// A call of the files by a folder and a name, with what it is to answer.
#[derive(Clone, Copy)]
pub enum Step {
    /// The listing of the folder gives these names.
    List(&'static [&'static str]),
    /// The listing of the folder fails.
    ListFails,
    /// Reading the file within this limit.
    Read(usize, Found),
    /// Whether the file is there.
    Has(bool),
    /// The write of these bytes, in place of what the file holds or behind it.
    Write(&'static [u8], bool, Result<(), FilesFault>),
    /// The move to this folder.
    Move(&'static str, Result<(), FilesFault>),
    Remove(Result<(), FilesFault>),
}

/// Whether these are the names of a folder.
fn are_listed<F: Files>(files: &mut F, folder: &Text, wanted: &[&str]) -> bool {
    match files.list(folder) {
        Ok(names) => names
            .iter()
            .map(|name| name.as_str())
            .eq(wanted.iter().copied()),
        Err(_) => false,
    }
}

/// Whether a folder can't be listed.
fn fails_to_list<F: Files>(files: &mut F, folder: &Text) -> bool {
    matches!(files.list(folder), Err(FilesFault::Failed))
}

/// What moving a file answers.
fn moved<F: Mover>(
    alloc: Global,
    files: &mut F,
    folder: &Text,
    name: &Text,
    to: &str,
) -> Result<(), FilesFault> {
    let Ok(to) = Text::of_str(alloc, to) else {
        return Err(FilesFault::NoMemory);
    };
    files.rename(folder, name, &to)
}

impl Step {
    /// Whether the files answer as they are to.
    fn is_answered<F: Mover>(
        self,
        alloc: Global,
        files: &mut F,
        folder: &Text,
        name: &Text,
    ) -> bool {
        match self {
            Step::List(wanted) => are_listed(files, folder, wanted),
            Step::ListFails => fails_to_list(files, folder),
            Step::Read(limit, wanted) => wanted.is(&files.read(folder, name, limit)),
            Step::Has(wanted) => files.has(folder, name) == Ok(wanted),
            Step::Write(bytes, append, wanted) => {
                files.write(folder, name, bytes, append) == wanted
            }
            Step::Move(to, wanted) => moved(alloc, files, folder, name, to) == wanted,
            Step::Remove(wanted) => files.remove(folder, name) == wanted,
        }
    }
}

/// A folder, a name and what is asked for them.
pub type Row = (&'static str, &'static str, Step);

/// Whether the files answer to a row as they are to.
fn is_right<F: Mover>(alloc: Global, files: &mut F, row: &Row) -> Result<bool, NoMemory> {
    let (folder, name, step) = row;
    let folder = Text::of_str(alloc, folder)?;
    let name = Text::of_str(alloc, name)?;
    Ok(step.is_answered(alloc, files, &folder, &name))
}

/// The number of the first row, from 0, that the files answer otherwise.
pub fn wrong_row<F: Mover>(
    alloc: Global,
    files: &mut F,
    rows: &[Row],
) -> Result<Option<usize>, NoMemory> {
    for (number, row) in rows.iter().enumerate() {
        if !is_right(alloc, files, row)? {
            return Ok(Some(number));
        }
    }
    Ok(None)
}
