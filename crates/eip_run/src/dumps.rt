ghost use Rattle.std.specs.Prelude.{◌≡◌, ◌≤◌, length};
ghost use Rattle.eip_run.specs.Dumps.{read_refusal, files_refusal, ReadsJournal, Judges, Migrates};
ghost use Rattle.eip_run.specs.declared.dumps.DumpRefusal.TheVariants as refusal;

use eip_audit::{Verdict, audit_dump};
use eip_command::Path;
use eip_dump::dump_reader::LIMIT;
use eip_dump::{DumpFault, dump, read_dump};
use eip_endpoint::{FileRead, Files, FilesFault};
use eip_ledger::Journal;
use eip_route::RouteSet;
use eip_text::NoMemory;
use std::alloc::Global;

/// The most bytes of a dump that is read.
const DUMP_LIMIT: usize = LIMIT as usize;

/// Why nothing is done with the journal in a dump.
#[derive(Clone, Copy)]
pub enum DumpRefusal {
    /// This line of the dump, from 1, is the first bad one; 0 where the file is missing or too long.
    BadDump(u64),
    /// The files failed.
    FilesFault,
    NoMemory,
}

impl From<NoMemory> for DumpRefusal {
    ghost from_gives = { λ _ r. r ≡ refusal.NoMemory };

    fn from(_refused: NoMemory) -> DumpRefusal {
        DumpRefusal::NoMemory
    }
}

impl From<FilesFault> for DumpRefusal {
    ghost from_gives = { λ fault r. r ≡ files_refusal fault };

    fn from(fault: FilesFault) -> DumpRefusal {
        match fault {
            FilesFault::Failed => DumpRefusal::FilesFault,
            FilesFault::NoMemory => DumpRefusal::NoMemory,
        }
    }
}

impl From<DumpFault> for DumpRefusal {
    ghost from_gives = { λ fault r. r ≡ read_refusal fault };

    fn from(fault: DumpFault) -> DumpRefusal {
        match fault {
            DumpFault::BadDump(line) => DumpRefusal::BadDump(line),
            DumpFault::NoMemory => DumpRefusal::NoMemory,
        }
    }
}

/// The journal in the dump of a path.
fn journal_at<F: Files>(alloc: Global, path: &Path, files: &mut F) -> Result<Journal, DumpRefusal>
    ensures same { F.files files.new ≡ F.files files.old }
    ensures read { ReadsJournal path.now (F.files files.old) (F.files_faults files.old) (F.files_faults files.new) result }
{
    match files.read(&path.folder, &path.name, DUMP_LIMIT)? {
        FileRead::Bytes(bytes) => Ok(read_dump(alloc, bytes.items())?),
        FileRead::Missing | FileRead::TooLong => Err(DumpRefusal::BadDump(0)),
    }
}

/// What an audit says of the journal in a dump, for a set of routes.
pub fn judge<F: Files>(
    alloc: Global,
    set: RouteSet,
    path: &Path,
    files: &mut F,
) -> Result<Verdict, DumpRefusal>
    requires few { length set.routes ≤ 256 }
    ensures same { F.files files.new ≡ F.files files.old }
    ensures judged { Judges set path.now (F.files files.old) (F.files_faults files.old) (F.files_faults files.new) result }
{
    match files.read(&path.folder, &path.name, DUMP_LIMIT)? {
        FileRead::Bytes(bytes) => Ok(audit_dump(alloc, set, bytes.into_vec())?),
        FileRead::Missing | FileRead::TooLong => {
            drop(set);
            Err(DumpRefusal::BadDump(0))
        }
    }
}

/// Writes the journal in the old dump to the new one in the latest version, in place of what it held, and gives the number of its
/// entries.
pub fn migrate<F: Files>(
    alloc: Global,
    old: &Path,
    new: &Path,
    files: &mut F,
) -> Result<u64, DumpRefusal>
    ensures { Migrates old.now new.now (F.files files.old) (F.files files.new) (F.files_faults files.old) (F.files_faults files.new) result }
{
    let journal = journal_at(alloc, old, files)?;
    let text = dump(alloc, &journal)?;
    files.write(&new.folder, &new.name, text.bytes(), false)?;
    Ok(journal.entries().len() as u64)
}
