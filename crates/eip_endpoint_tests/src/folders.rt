use crate::file_calls::{Found, Row, Step, wrong_row};
use crate::given::files_of;
use eip_endpoint::FilesFault;
use eip_text::NoMemory;
use std::alloc::Global;
use std::test::Fail;

/// The files that are there at first, each of which holds its path.
static FOUR_FILES: [(&str, &str, &[u8]); 4] = [
    ("in", "b", b"in/b"),
    ("in", "a", b"in/a"),
    ("out", "a", b"out/a"),
    ("in", "B", b"in/B"),
];

/// The number of the first row, from 0, that the four files answer otherwise, and how many files there are behind it or the last.
fn wrong_of_four(
    alloc: Global,
    failing: &[u64],
    rows: &[Row],
) -> Result<(Option<usize>, usize), NoMemory> {
    let mut files = files_of(alloc, &FOUR_FILES, failing)?;
    let wrong = wrong_row(alloc, &mut files, rows)?;
    Ok((wrong, files.content().len()))
}

static LISTINGS: [Row; 3] = [
    ("in", "", Step::List(&["B", "a", "b"])),
    ("out", "", Step::List(&["a"])),
    ("none", "", Step::List(&[])),
];

#[test]
fn a_folder_is_listed_in_byte_order(rt: HostRuntime) -> Result<(), Fail> {
    let wrong = wrong_of_four(rt.alloc(), &[], &LISTINGS)?;
    assert!(rt; wrong == (None, 4), "row {wrong:?}");
    Ok(())
}

static WRITES: [Row; 7] = [
    ("in", "a", Step::Write(b"new", false, Ok(()))),
    ("in", "a", Step::Read(100, Found::Bytes(b"new"))),
    ("in", "a", Step::Write(b"er", true, Ok(()))),
    ("in", "a", Step::Read(100, Found::Bytes(b"newer"))),
    ("else", "c", Step::Write(b"x", true, Ok(()))),
    ("else", "c", Step::Read(100, Found::Bytes(b"x"))),
    ("out", "a", Step::Read(100, Found::Bytes(b"out/a"))),
];

#[test]
fn a_write_replaces_or_appends(rt: HostRuntime) -> Result<(), Fail> {
    let wrong = wrong_of_four(rt.alloc(), &[], &WRITES)?;
    assert!(rt; wrong == (None, 5), "row {wrong:?}");
    Ok(())
}

static MOVES: [Row; 5] = [
    ("in", "a", Step::Move("out", Ok(()))),
    ("in", "", Step::List(&["B", "b"])),
    ("out", "", Step::List(&["a"])),
    ("out", "a", Step::Read(100, Found::Bytes(b"in/a"))),
    ("in", "a", Step::Has(false)),
];

#[test]
fn a_move_replaces_a_file_of_its_name(rt: HostRuntime) -> Result<(), Fail> {
    let wrong = wrong_of_four(rt.alloc(), &[], &MOVES)?;
    assert!(rt; wrong == (None, 3), "row {wrong:?}");
    Ok(())
}

static MISSING: [Row; 5] = [
    ("out", "b", Step::Move("in", Err(FilesFault::Failed))),
    ("out", "b", Step::Remove(Err(FilesFault::Failed))),
    ("in", "b", Step::Remove(Ok(()))),
    ("in", "b", Step::Has(false)),
    ("in", "a", Step::Has(true)),
];

#[test]
fn a_missing_file_is_neither_moved_nor_removed(rt: HostRuntime) -> Result<(), Fail> {
    let wrong = wrong_of_four(rt.alloc(), &[], &MISSING)?;
    assert!(rt; wrong == (None, 3), "row {wrong:?}");
    Ok(())
}

static FAILING: [Row; 7] = [
    ("in", "", Step::ListFails),
    ("in", "a", Step::Has(true)),
    (
        "in",
        "a",
        Step::Write(b"new", false, Err(FilesFault::Failed)),
    ),
    ("in", "a", Step::Move("out", Err(FilesFault::Failed))),
    ("in", "a", Step::Remove(Err(FilesFault::Failed))),
    ("in", "a", Step::Read(100, Found::Bytes(b"in/a"))),
    ("out", "a", Step::Read(100, Found::Bytes(b"out/a"))),
];

#[test]
fn the_calls_of_the_failing_numbers_change_nothing(rt: HostRuntime) -> Result<(), Fail> {
    let wrong = wrong_of_four(rt.alloc(), &[1, 3, 4, 5], &FAILING)?;
    assert!(rt; wrong == (None, 4), "row {wrong:?}");
    Ok(())
}
