ghost use Rattle.std.specs.Prelude.{None};

use crate::given::{Failing, Given, SOUND, came, file_of, given_with, reported};
use eip_endpoint::{FileRead, Files, FilesFault, MemoryFiles};
use eip_run::run;
use eip_simple_read::CratePatterns;
use eip_test_support::{holds_for, joined};
use eip_text::{NoMemory, Text};
use std::alloc::Global;
use std::sync::Wait;
use std::test::Fail;
use std::thread::Threads;

/// A lane that is tried three times, and behind it a line of the log.
const RETRYING: &str =
    r#"[{"errorHandler":{"deadLetterChannel":{"deadLetterUri":"log:dead","redeliveryPolicy":{"maximumRedeliveries":2}}}},{"from":{"uri":"stream:in","steps":[{"to":"lane:x"},{"log":"${header.CamelRedeliveryCounter}"}]}}]"#;

/// The first lines of a dump of its run, in both versions.
const FIRST: &str = "eip-journal 1 0 100000\n";

const SECOND: &str = "eip-journal 2 0 100000 16\n";

/// The entries of that run over the line `a`, where the lane fails twice: the first three, what came of them, and the rest from the first
/// tick on.
const TAKEN: &str = "0 pull 0\n0 accept 0 \"1\" \"a\" 0 0\n0 take 1\n";

const FAILED: &str = "0 answer 1 failed\n";

const SLEPT: &str = "0 answer 1 slept 1000\n0 pull 0\n0 end 0\n";

const TICK: &str = "0 tick 1000\n";

const TRIED: &str =
    "0 take 1\n0 answer 1 failed\n0 answer 1 slept 2000\n0 tick 2000\n0 take 1\n0 answer 1 done\n0 answer 1 noted\n0 answer 1 finished\n";

/// A dump of the whole run with this first line.
fn dump_of(alloc: Global, first: &str) -> Result<String, NoMemory> {
    joined(alloc, &[first, TAKEN, FAILED, SLEPT, TICK, TRIED])
}

/// The folder with the retrying routes as `r.json` and this dump as `j`.
fn dump_files(alloc: Global, dump: &str, failing: u64) -> Result<MemoryFiles, NoMemory> {
    let failing = vec![in alloc; failing]?;
    let routes = file_of(alloc, "r.json", RETRYING)?;
    let content = vec![in alloc; routes, file_of(alloc, "j", dump)?]?;
    Ok(MemoryFiles::new(alloc, content, failing))
}

/// What is handed to a command of these words, where `r.json` has the retrying routes and `j` is this dump.
fn given_dump(
    alloc: Global,
    words: &[&str],
    dump: &str,
    failing: Failing,
) -> Result<Given, NoMemory> {
    let mut given = given_with(alloc, words, RETRYING, &[], failing)?;
    given.files = dump_files(alloc, dump, failing.reading)?;
    Ok(given)
}

/// What the file of this name holds, if it is there.
fn held<'g>(given: &'g Given, name: &str) -> Option<&'g [u8]> {
    for file in given.files.content() {
        if file.1.as_str() == name {
            return Some(file.2.items());
        }
    }
    None
}

/// A dump in pieces, and the status and the text of an audit of it.
static AUDITS: [(&[&str], u8, &str); 11] = [
    (&[FIRST, TAKEN, FAILED, SLEPT, TICK, TRIED], 0, "legal 16\n"),
    (
        &[SECOND, TAKEN, FAILED, SLEPT, TICK, TRIED],
        0,
        "legal 16\n",
    ),
    (&[FIRST], 0, "legal 0\n"),
    (&[FIRST, TAKEN, FAILED], 0, "legal 4\n"),
    (
        &[FIRST, TAKEN, "0 answer 1 done\n", SLEPT, TICK, TRIED],
        6,
        "wrong 5 8\n",
    ),
    (&[FIRST, TAKEN, FAILED, SLEPT, TRIED], 6, "wrong 8 7\n"),
    (
        &[FIRST, TAKEN, "0 shout\n", FAILED, SLEPT, TICK, TRIED],
        1,
        "error dump 5\n",
    ),
    (&[SECOND, TAKEN, FAILED], 1, "error dump 6\n"),
    (
        &[SECOND, TAKEN, FAILED, SLEPT, TICK, TRIED, "0 force\n"],
        1,
        "error dump 18\n",
    ),
    (&["eip-journal 1 0 100000\r\n"], 1, "error dump 1\n"),
    (&[], 1, "error dump 1\n"),
];

/// Whether the dump `j` is there and is this one.
fn has_dump(given: &Given, dump: &str) -> bool {
    held(given, "j") == Some(dump.as_bytes())
}

/// Whether an audit of a dump in these pieces comes to this status and text, has no journal, and leaves the dump as it was.
fn is_audited<W: AllocGlobal + Threads + Wait + Sync>(
    rt: &W,
    pieces: &[&str],
    status: u8,
    text: &str,
) -> Result<[bool; 3], NoMemory> {
    let dump = joined(rt.alloc(), pieces)?;
    let mut given = given_dump(rt.alloc(), &["audit", "r.json", "j"], dump.as_str(), SOUND)?;
    let report = reported(rt, &mut given);
    Ok([
        report.status == status && given.out.bytes() == text.as_bytes(),
        report.journal.entries().is_empty(),
        has_dump(&given, dump.as_str()),
    ])
}

#[test]
fn the_journal_of_a_dump_is_judged_by_the_routes(rt: HostRuntime) -> Result<(), Fail> {
    for &(pieces, status, text) in &AUDITS {
        let told = is_audited(&rt, pieces, status, text)?;
        assert!(rt; told == [true; 3], "to {text}");
    }
    Ok(())
}

/// A call of the files or of the sink that fails, and the status and the text of an audit of a dump of which the first piece is this one.
static FAILING_AUDITS: [(Failing, &str, u8, &str); 5] = [
    (
        Failing {
            reading: 1,
            ..SOUND
        },
        FIRST,
        2,
        "error files\n",
    ),
    (
        Failing {
            reading: 2,
            ..SOUND
        },
        FIRST,
        2,
        "error files\n",
    ),
    (Failing { write: 1, ..SOUND }, FIRST, 2, ""),
    (Failing { write: 1, ..SOUND }, "eip-journal 1 0 2\n", 2, ""),
    (Failing { write: 1, ..SOUND }, "", 1, ""),
];

/// Whether an audit of the dump with this first line, where these calls fail, comes to this status and text.
fn audit_comes_to<W: AllocGlobal + Threads + Wait + Sync>(
    rt: &W,
    first: &str,
    failing: Failing,
    status: u8,
    text: &str,
) -> Result<bool, NoMemory> {
    let dump = dump_of(rt.alloc(), first)?;
    let words = ["audit", "r.json", "j"];
    let mut given = given_dump(rt.alloc(), &words, dump.as_str(), failing)?;
    Ok(came(rt, &mut given, status, text))
}

#[test]
fn a_file_or_a_sink_that_fails_ends_an_audit(rt: HostRuntime) -> Result<(), Fail> {
    for &(failing, first, status, text) in &FAILING_AUDITS {
        holds_for(audit_comes_to(&rt, first, failing, status, text), text)?;
    }
    Ok(())
}

/// Words on files of which one is missing or refused, and the status and the text.
static REFUSED: [(&[&str], u8, &str); 4] = [
    (&["audit", "s.json", "j"], 1, "error routes $ NoFile\n"),
    (&["audit", "j", "j"], 1, "error routes $ NotJson\n"),
    (&["audit", "r.json", "k"], 1, "error dump 0\n"),
    (&["migrate", "k", "l"], 1, "error dump 0\n"),
];

/// Whether a command of these words comes to this status and text, and leaves as many files as there were.
fn is_refused<W: AllocGlobal + Threads + Wait + Sync>(
    rt: &W,
    words: &[&str],
    status: u8,
    text: &str,
) -> Result<bool, NoMemory> {
    let mut given = given_dump(rt.alloc(), words, FIRST, SOUND)?;
    let told = came(rt, &mut given, status, text);
    Ok(told && given.files.content().len() == 2)
}

#[test]
fn the_routes_are_looked_at_before_the_dump(rt: HostRuntime) -> Result<(), Fail> {
    for &(words, status, text) in &REFUSED {
        holds_for(is_refused(&rt, words, status, text), text)?;
    }
    Ok(())
}

/// A new file for a dump, the first line of the old dump, and whether the old one stays as it was.
static MIGRATIONS: [(&str, &str, bool); 4] = [
    ("k", FIRST, true),
    ("k", SECOND, true),
    ("j", FIRST, false),
    ("r.json", FIRST, true),
];

/// Whether a migration of the dump with this first line to the file of this name is told, whether that file holds it in the latest
/// version, and whether the old one is as it was.
fn migrates<W: AllocGlobal + Threads + Wait + Sync>(
    rt: &W,
    name: &str,
    first: &str,
) -> Result<[bool; 3], NoMemory> {
    let dump = dump_of(rt.alloc(), first)?;
    let latest = dump_of(rt.alloc(), SECOND)?;
    let words = ["migrate", "j", name];
    let mut given = given_dump(rt.alloc(), &words, dump.as_str(), SOUND)?;
    Ok([
        came(rt, &mut given, 0, "migrated 16\n"),
        held(&given, name) == Some(latest.as_bytes()),
        has_dump(&given, dump.as_str()),
    ])
}

#[test]
fn a_dump_of_any_version_is_written_in_the_latest(rt: HostRuntime) -> Result<(), Fail> {
    for &(name, first, stays) in &MIGRATIONS {
        let told = migrates(&rt, name, first)?;
        assert!(rt; told == [true, true, stays], "to {name} from {first}");
    }
    Ok(())
}

/// A call of the files or of the sink that fails, the first line of the old dump, the status and the text, and whether the new dump was
/// written.
static FAILING_MIGRATIONS: [(Failing, &str, u8, &str, bool); 5] = [
    (SOUND, "", 1, "error dump 1\n", false),
    (
        Failing {
            reading: 1,
            ..SOUND
        },
        FIRST,
        2,
        "error files\n",
        false,
    ),
    (
        Failing {
            reading: 2,
            ..SOUND
        },
        FIRST,
        2,
        "error files\n",
        false,
    ),
    (Failing { write: 1, ..SOUND }, FIRST, 2, "", true),
    (Failing { write: 1, ..SOUND }, "", 1, "", false),
];

/// Whether a migration of a short dump with this first line, where these calls fail, comes to this status and text, whether the new dump
/// is there, and whether the old one is as it was.
fn fails_to_migrate<W: AllocGlobal + Threads + Wait + Sync>(
    rt: &W,
    first: &str,
    failing: Failing,
    status: u8,
    text: &str,
) -> Result<[bool; 3], NoMemory> {
    let dump = joined(rt.alloc(), &[first, TAKEN])?;
    let words = ["migrate", "j", "k"];
    let mut given = given_dump(rt.alloc(), &words, dump.as_str(), failing)?;
    Ok([
        came(rt, &mut given, status, text),
        held(&given, "k").is_some(),
        has_dump(&given, dump.as_str()),
    ])
}

#[test]
fn a_dump_that_is_refused_and_files_that_fail_write_nothing(rt: HostRuntime) -> Result<(), Fail> {
    for &(failing, first, status, text, written) in &FAILING_MIGRATIONS {
        let told = fails_to_migrate(&rt, first, failing, status, text)?;
        assert!(rt; told == [true, written, true], "to {text} from {first}");
    }
    Ok(())
}

/// Files of which each is too long, whatever the limit. They tell no content.
#[derive(Drop)]
struct LongFiles {}

impl Files for LongFiles {
    ghost files = { λ _. None };

    ghost files_faults = { λ _. 0 };

    fn list(&mut self, _folder: &Text) -> Result<Vec<Text>, FilesFault> {
        Err(FilesFault::NoMemory)
    }

    fn has(&mut self, _folder: &Text, _name: &Text) -> Result<bool, FilesFault> {
        Ok(true)
    }

    fn read(
        &mut self,
        _folder: &Text,
        _name: &Text,
        _limit: usize,
    ) -> Result<FileRead, FilesFault> {
        Ok(FileRead::TooLong)
    }

    fn write(
        &mut self,
        _folder: &Text,
        _name: &Text,
        _bytes: &[u8],
        _append: bool,
    ) -> Result<(), FilesFault> {
        Err(FilesFault::NoMemory)
    }
}

#[test]
fn a_dump_that_is_too_long_is_told(rt: HostRuntime) -> Result<(), Fail> {
    let alloc = rt.alloc();
    let mut given = given_with(alloc, &["migrate", "j", "k"], RETRYING, &[], SOUND)?;
    let mut patterns = CratePatterns::new(Vec::new(alloc));
    let report = run(
        &rt,
        alloc,
        &given.words,
        &mut LongFiles {},
        &mut patterns,
        &mut given.lanes,
        &mut given.inlets,
        &given.registry,
        &mut given.out,
    );
    assert!(rt; report.status == 1 && given.out.bytes() == "error dump 0\n".as_bytes());
    Ok(())
}
