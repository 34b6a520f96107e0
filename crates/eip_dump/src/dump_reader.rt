ghost use Rattle.std.specs.Prelude.{◌≡◌, ◌↔◌, ◌*◌, ◌≤◌, [], IsTrue};
ghost use Rattle.eip_dump.specs.Dump as spec;
ghost use Rattle.eip_dump.specs.Dump.{ReadsDump, ReadsFirst, ReadsLines, ReadsNext, Migrates};

use crate::dump_printer::dump;
use crate::entry_reader::entry_front;
use crate::fault::{DumpFault, Stop};
use crate::first_line::{First, first_front};
use eip_ledger::{Entry, Journal};
use eip_text::{NoMemory, Text};
use std::alloc::Global;

/// The greatest length in bytes of a dump that is read from a file.
pub const LIMIT: u64 = 268_435_456;

/// Whether another entry may stand behind so many.
fn has_room(count: Option<u64>, entries: u64) -> bool
    ensures { IsTrue result ↔ spec.HasRoom count entries }
{
    match count {
        None => true,
        Some(count) => entries < count,
    }
}

/// Whether another entry must stand behind so many.
fn is_missing(count: Option<u64>, entries: u64) -> bool
    ensures { IsTrue result ↔ spec.IsMissing count entries }
{
    match count {
        None => false,
        Some(count) => entries < count,
    }
}

/// The next entry of a dump behind so many, and what stands behind it; `None` exactly where no more stands there and none is missing.
/// `BadDump` with the number of its line where that line is missing, is one too many, or is the line of no entry.
/// As many entries as a text in memory can have: each takes two bytes at least, so that the number of a line is counted without a check.
pub fn next_entry(
    alloc: Global,
    count: Option<u64>,
    entries: u64,
    bytes: &[u8],
) -> Result<Option<(Entry, &[u8])>, DumpFault>
    requires { 2 * entries ≤ 9223372036854775807 }
    ensures { ReadsNext (λ x. (x.0, x.1.now)) count entries bytes.now result }
{
    if bytes.is_empty() {
        if is_missing(count, entries) {
            return Err(DumpFault::BadDump(entries + 2));
        }
        return Ok(None);
    }
    if !has_room(count, entries) {
        return Err(DumpFault::BadDump(entries + 2));
    }
    match entry_front(alloc, bytes) {
        Ok(read) => Ok(Some(read)),
        Err(Stop::Bad) => Err(DumpFault::BadDump(entries + 2)),
        Err(Stop::Memory) => Err(DumpFault::NoMemory),
    }
}

/// What the first line of a dump says, and what stands behind it. `BadDump(1)` exactly where no first line stands there.
pub fn first_limits(alloc: Global, bytes: &[u8]) -> Result<(First, &[u8]), DumpFault>
    ensures { ReadsFirst (λ x. (x.0, x.1.now)) bytes.now result }
{
    match first_front(alloc, bytes) {
        Ok(read) => Ok(read),
        Err(Stop::Bad) => Err(DumpFault::BadDump(1)),
        Err(Stop::Memory) => Err(DumpFault::NoMemory),
    }
}

/// Reads the entries behind the first line into a journal that has none.
fn read_lines(
    alloc: Global,
    count: Option<u64>,
    journal: &mut Journal,
    bytes: &[u8],
) -> Result<(), DumpFault>
    requires { journal.old.past ≡ [] }
    ensures { ReadsLines count journal.old journal.new bytes.now result }
{
    let mut rest = bytes;
    let mut entries: u64 = 0;
    while let Some((entry, more)) = next_entry(alloc, count, entries, rest)? {
        journal.reserve(1)?;
        journal.append_reserved(entry);
        rest = more;
        entries += 1;
    }
    Ok(())
}

/// The journal whose text this is, in version 1 or 2. `BadDump` with the first line, counted from 1, that is bad: the first one where
/// it is no first line of a dump, and else the first one that is missing, that is one too many, or that is the line of no entry.
pub fn read_dump(alloc: Global, bytes: &[u8]) -> Result<Journal, DumpFault>
    ensures { ReadsDump bytes.now result }
{
    let (first, rest) = first_limits(alloc, bytes)?;
    let mut journal = Journal::new(alloc, first.workers, first.turns);
    read_lines(alloc, first.count, &mut journal, rest)?;
    Ok(journal)
}

/// The text in version 2 of the journal that `read_dump` reads from these bytes, with the same refusals.
pub fn migrate(alloc: Global, bytes: &[u8]) -> Result<Text, DumpFault>
    ensures { Migrates bytes.now result }
{
    let journal = read_dump(alloc, bytes)?;
    Ok(dump(alloc, &journal)?)
}
