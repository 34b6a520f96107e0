use crate::file_calls::{Found, Row, Step, wrong_row};
use eip_endpoint::FilesFault;
use eip_host::{HostFileSystem, HostFiles};
use eip_text::NoMemory;
use std::fs;
use std::test::Fail;

/// The number of the first row, from 0, that the files of the system answer otherwise, and the count of faults behind it or the last.
fn wrong_of_system(rt: HostRuntime, rows: &[Row]) -> Result<(Option<usize>, u64), NoMemory> {
    let mut files = HostFiles::new(rt.alloc(), HostFileSystem { runtime: rt });
    let wrong = wrong_row(rt.alloc(), &mut files, rows)?;
    Ok((wrong, files.faults))
}

static WRITTEN: [Row; 11] = [
    ("written/in", "", Step::List(&[])),
    ("written/in", "b", Step::Write(b"b", false, Ok(()))),
    ("written/in", "a", Step::Write(b"old", false, Ok(()))),
    ("written/in", "a", Step::Write(b"1", false, Ok(()))),
    ("written/in", "a", Step::Write(b"2", true, Ok(()))),
    ("written/in", "", Step::List(&["a", "b"])),
    ("written/in", "a", Step::Has(true)),
    ("written/in", "a", Step::Read(9, Found::Bytes(b"12"))),
    ("written/in", "a", Step::Remove(Ok(()))),
    ("written/in", "a", Step::Has(false)),
    ("written/in", "b", Step::Remove(Ok(()))),
];

#[test]
fn files_of_the_system_are_written_and_listed(rt: HostRuntime) -> Result<(), Fail> {
    let told = wrong_of_system(rt, &WRITTEN)?;
    assert!(rt; told == (None, 0), "{told:?}");
    Ok(())
}

static MOVED: [Row; 6] = [
    ("moved/in", "a", Step::Write(b"new", false, Ok(()))),
    ("moved/in/.camel", "a", Step::Write(b"old", false, Ok(()))),
    ("moved/in", "", Step::List(&["a"])),
    ("moved/in", "a", Step::Move("moved/in/.camel", Ok(()))),
    ("moved/in", "", Step::List(&[])),
    ("moved/in/.camel", "a", Step::Read(9, Found::Bytes(b"new"))),
];

/// What fails behind that, and the removal of the file.
static MISSING: [Row; 3] = [
    (
        "moved/in",
        "a",
        Step::Move("moved/in/.camel", Err(FilesFault::Failed)),
    ),
    ("moved/in", "a", Step::Remove(Err(FilesFault::Failed))),
    ("moved/in/.camel", "a", Step::Remove(Ok(()))),
];

#[test]
fn files_of_the_system_are_moved_and_missing_ones_are_faults(rt: HostRuntime) -> Result<(), Fail> {
    for (rows, faults) in [(MOVED.as_slice(), 0), (MISSING.as_slice(), 2)] {
        let told = wrong_of_system(rt, rows)?;
        assert!(rt; told == (None, faults), "{told:?}");
    }
    Ok(())
}

static INTO_A_NEW_FOLDER: [Row; 5] = [
    ("from/in", "a", Step::Write(b"new", false, Ok(()))),
    ("from/in", "a", Step::Move("to/be/made", Ok(()))),
    ("from/in", "a", Step::Has(false)),
    ("to/be/made", "a", Step::Read(9, Found::Bytes(b"new"))),
    ("to/be/made", "a", Step::Remove(Ok(()))),
];

#[test]
fn a_file_is_moved_into_a_folder_that_is_not_there(rt: HostRuntime) -> Result<(), Fail> {
    let told = wrong_of_system(rt, &INTO_A_NEW_FOLDER)?;
    assert!(rt; told == (None, 0), "{told:?}");
    Ok(())
}

static READINGS: [Row; 3] = [
    (".", "a.json", Step::Read(2, Found::Bytes(b"[]"))),
    (".", "a.json", Step::Read(1, Found::TooLong)),
    (".", "b.json", Step::Read(2, Found::Missing)),
];

/// A folder is no file.
static OF_A_FOLDER: [Row; 1] = [("/", ".", Step::Read(2, Found::Failed))];

#[test]
fn a_file_of_the_system_is_read(rt: HostRuntime) -> Result<(), Fail> {
    fs::write(&rt, "a.json", "[]")?;
    for (rows, faults) in [(READINGS.as_slice(), 0), (OF_A_FOLDER.as_slice(), 1)] {
        let told = wrong_of_system(rt, rows)?;
        assert!(rt; told == (None, faults), "{told:?}");
    }
    Ok(())
}
