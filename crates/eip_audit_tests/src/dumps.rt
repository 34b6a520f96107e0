use eip_dump::{DumpFault, dump, migrate, read_dump};
use eip_text::{NoMemory, Text};
use std::alloc::Global;
use std::test::*;

/// The entries of a run with two redeliveries.
const ENTRIES: &str = "0 pull 0
0 accept 0 \"1\" \"a\" 0 0
0 take 1
0 answer 1 failed
0 answer 1 slept 1000
0 pull 0
0 end 0
0 tick 1000
0 take 1
0 answer 1 failed
0 answer 1 slept 2000
0 tick 2000
0 take 1
0 answer 1 done
0 answer 1 noted
0 answer 1 finished
";

/// Some texts in one.
fn joined(alloc: Global, texts: &[&str]) -> Result<String, NoMemory> {
    let mut out = String::new(alloc);
    for text in texts {
        out.push_str(text)?;
    }
    Ok(out)
}

/// The first bad line of a text, or 0 where it is a dump.
fn bad_line(alloc: Global, bytes: &[u8]) -> Result<u64, NoMemory> {
    match read_dump(alloc, bytes) {
        Ok(_) => Ok(0),
        Err(DumpFault::BadDump(line)) => Ok(line),
        Err(DumpFault::NoMemory) => Err(NoMemory),
    }
}

/// The journal of a text, as it is printed.
fn printed(alloc: Global, bytes: &[u8]) -> Result<Text, DumpFault> {
    let journal = read_dump(alloc, bytes)?;
    Ok(dump(alloc, &journal)?)
}

/// Whether the text is read as a journal that prints as `wanted`.
fn is_printed(alloc: Global, bytes: &[u8], wanted: &str) -> Result<bool, DumpFault> {
    let printed = printed(alloc, bytes)?;
    let migrated = migrate(alloc, bytes)?;
    Ok(printed.as_str() == wanted && migrated.as_str() == wanted)
}

fn prints(alloc: Global, bytes: &[u8], wanted: &str) -> Result<bool, NoMemory> {
    match is_printed(alloc, bytes, wanted) {
        Ok(is) => Ok(is),
        Err(DumpFault::BadDump(_)) => Ok(false),
        Err(DumpFault::NoMemory) => Err(NoMemory),
    }
}

/// The first lines of both versions.
const FIRST: &str = "eip-journal 1 0 100000\n";

const SECOND: &str = "eip-journal 2 0 100000 16\n";

/// Whether a dump with this first line is read, and written in the second version.
fn is_written_anew(alloc: Global, first: &str) -> Result<bool, NoMemory> {
    let text = joined(alloc, &[first, ENTRIES])?;
    let wanted = joined(alloc, &[SECOND, ENTRIES])?;
    prints(alloc, text.as_bytes(), wanted.as_str())
}

#[test]
fn both_versions_are_read_and_the_second_is_written(rt: HostRuntime) -> Result<(), Fail> {
    for first in &[FIRST, SECOND] {
        assert!(rt; is_written_anew(rt.alloc(), first)?, "from {first}");
    }
    Ok(())
}

/// The first bad line of a text once this line is appended, without its end and with it.
fn bad_lines(alloc: Global, front: &mut String, line: &str) -> Result<(u64, u64), NoMemory> {
    front.push_str(line)?;
    let before = bad_line(alloc, front.as_bytes())?;
    front.push_str("\n")?;
    Ok((before, bad_line(alloc, front.as_bytes())?))
}

/// A text of version 1 may end behind each line, and inside a line it is bad there.
#[test]
fn a_cut_text_is_bad_where_it_was_cut(rt: HostRuntime) -> Result<(), Fail> {
    let old = joined(rt.alloc(), &[FIRST, ENTRIES])?;
    let mut lines = old.as_str().split('\n');
    let mut front = String::new(rt.alloc());
    for number in 1..18 {
        let line = lines.next().unwrap_or("");
        let told = bad_lines(rt.alloc(), &mut front, line)?;
        assert!(rt; told == (number, 0), "at {line}");
    }
    Ok(())
}

/// Texts, each with its first bad line, or with 0 where there is none.
const TEXTS: [(&str, u64); 20] = [
    ("", 1),
    ("\n", 1),
    ("eip-journal 1 0 1\n", 0),
    ("eip-journal 1 0 1", 1),
    ("eip-journal 1 16 1000000\n", 0),
    ("eip-journal 1 17 1\n", 1),
    ("eip-journal 1 0 0\n", 1),
    ("eip-journal 1 0 1000001\n", 1),
    ("eip-journal 1 0 1\r\n", 1),
    ("eip-journal 1 0 01\n", 1),
    ("eip-journal 3 0 1 0\n", 1),
    ("eip-journal 2 0 1\n", 1),
    ("eip-journal 2 0 1 0\n", 0),
    ("eip-journal 2 0 1 1\n", 2),
    ("eip-journal 2 0 1 1\n0 pull 0\n", 0),
    ("eip-journal 2 0 1 1\n0 pull 0\n0 end 0\n", 3),
    ("eip-journal 2 0 1 2\n0 pull 0\n", 3),
    ("eip-journal 2 0 1 2\n0 pull 0\n0 shout\n", 3),
    ("eip-journal 1 0 1\n0 pull 0\n\n", 3),
    ("eip-journal 1 0 1\n0 pull 0\n0 end 0\n0 take 1", 4),
];

#[test]
fn the_first_bad_line_is_told(rt: HostRuntime) -> Result<(), Fail> {
    for &(text, line) in &TEXTS {
        assert!(rt; bad_line(rt.alloc(), text.as_bytes())? == line, "{text}");
    }
    Ok(())
}
