use crate::given::{files_of, holds};
use eip_endpoint::{CommitFault, MemoryFiles, PullFault, Pulled, Refusal, Source};
use eip_exchange::{End, Fault, Message};
use eip_file::FileSource;
use eip_text::{NoMemory, Text};
use eip_uri::Uri;
use std::alloc::Global;
use std::test::Fail;

/// What a pull is to give.
#[derive(Clone, Copy)]
enum Wanted {
    /// An item of this name with this body.
    Item(&'static str, &'static str),
    /// An item of this name that is refused for this cause.
    Refused(&'static str, Refusal),
    End,
    Failed,
}

/// Whether an item has this name and body, and its name as the header `CamelFileName` alone.
fn is_item(item: &Text, message: &Message, name: &str, body: &str) -> bool {
    item.as_str() == name
        && message.body.as_str() == body
        && message.headers.len() == 1
        && matches!(message.headers.get(b"CamelFileName"), Some(value) if value.as_str() == name)
}

impl Wanted {
    /// Whether a pull gave it.
    fn is(self, given: &Result<Pulled, PullFault>) -> bool {
        match (self, given) {
            (Wanted::Item(name, body), Ok(Pulled::Item { item, message })) => {
                is_item(item, message, name, body)
            }
            (Wanted::Refused(name, reason), Ok(Pulled::Refused { item, cause })) => {
                item.as_str() == name && *cause == reason
            }
            (Wanted::End, Ok(Pulled::End)) => true,
            (Wanted::Failed, Err(PullFault::Failed)) => true,
            _ => false,
        }
    }
}

/// The endpoint of a text.
fn uri(alloc: Global, text: &str) -> Result<Uri, Fail> {
    Ok(Uri::read(alloc, &Text::of_str(alloc, text)?, &[])?)
}

/// Whether these are given, one by each pull from an endpoint.
fn gives(
    alloc: Global,
    source: &mut FileSource<MemoryFiles>,
    from: &str,
    wanted: &[Wanted],
) -> Result<bool, Fail> {
    let from = uri(alloc, from)?;
    for next in wanted {
        if !next.is(&source.pull(&from)) {
            return Ok(false);
        }
    }
    Ok(true)
}

/// The files of two folders, one of them hidden.
static TWO_FOLDERS: [(&str, &str, &[u8]); 6] = [
    ("d", "b", b"2"),
    ("d", "a", b"1"),
    ("d", ".c", b"hidden"),
    ("e", "0", b"other"),
    ("d", "B", b"0"),
    ("d", "a.txt", b"11"),
];

/// What each endpoint gives of them.
static GIVEN: [(&str, &[Wanted]); 4] = [
    (
        "file:d",
        &[
            Wanted::Item("B", "0"),
            Wanted::Item("a", "1"),
            Wanted::Item("a.txt", "11"),
            Wanted::Item("b", "2"),
            Wanted::End,
            Wanted::End,
        ],
    ),
    ("file:e", &[Wanted::Item("0", "other"), Wanted::End]),
    ("file:none", &[Wanted::End]),
    ("stream:in", &[Wanted::End]),
];

/// The number of the first row, from 0, whose endpoint gives something else.
fn wrong_row(
    alloc: Global,
    files: MemoryFiles,
    rows: &[(&str, &[Wanted])],
) -> Result<Option<usize>, Fail> {
    let mut source = FileSource::new(alloc, files);
    for (number, (from, wanted)) in rows.iter().enumerate() {
        if !gives(alloc, &mut source, from, wanted)? {
            return Ok(Some(number));
        }
    }
    Ok(None)
}

#[test]
fn files_come_in_byte_order_without_hidden_ones(rt: HostRuntime) -> Result<(), Fail> {
    let alloc = rt.alloc();
    let wrong = wrong_row(alloc, files_of(alloc, &TWO_FOLDERS, &[])?, &GIVEN)?;
    assert!(rt; wrong == None, "row {wrong:?}");
    Ok(())
}

/// The files `a.txt` with `x`, `b.txt` with the byte ff, and `c.txt` with 65,537 times `x`.
fn refused_files(alloc: Global) -> Result<MemoryFiles, NoMemory> {
    let long = vec![in alloc; b'x'; 65_537]?;
    let rows: [(&str, &str, &[u8]); 3] = [
        ("d", "a.txt", b"x"),
        ("d", "b.txt", b"\xff"),
        ("d", "c.txt", long.as_slice()),
    ];
    files_of(alloc, &rows, &[])
}

/// What is given of them.
static REFUSED: [Wanted; 4] = [
    Wanted::Item("a.txt", "x"),
    Wanted::Refused("b.txt", Refusal::NotText),
    Wanted::Refused("c.txt", Refusal::TooLong),
    Wanted::End,
];

/// Whether this is given of them, and all of them stay.
fn are_refused(alloc: Global) -> Result<[bool; 2], Fail> {
    let mut source = FileSource::new(alloc, refused_files(alloc)?);
    let told = gives(alloc, &mut source, "file:d", &REFUSED)?;
    Ok([told, source.files.content().len() == 3])
}

#[test]
fn what_is_no_text_or_too_long_is_refused_and_stays(rt: HostRuntime) -> Result<(), Fail> {
    let told = are_refused(rt.alloc())?;
    assert!(rt; told == [true; 2]);
    Ok(())
}

/// Tells a source the end of an item of an endpoint.
fn commit(
    alloc: Global,
    source: &mut FileSource<MemoryFiles>,
    from: &str,
    item: &str,
    end: &End,
) -> Result<Result<(), CommitFault>, Fail> {
    let from = uri(alloc, from)?;
    let item = Text::of_str(alloc, item)?;
    Ok(source.commit(&from, &item, end))
}

/// Whether a source removes the file of an item that has ended well.
fn removes(alloc: Global, source: &mut FileSource<MemoryFiles>, item: &str) -> Result<bool, Fail> {
    let told = commit(alloc, source, "file:d?delete=true", item, &End::Completed)?;
    Ok(told.is_ok())
}

/// The files of a folder, of which the second one goes.
static THREE_FILES: [(&str, &str, &[u8]); 3] = [
    ("d", "a", b"1"),
    ("d", "b", b"2"),
    ("d", "c", b"3"),
];

/// Whether the first of three files is given, the second one removed, and then the third one given.
fn are_passed_over(alloc: Global) -> Result<[bool; 3], Fail> {
    let mut source = FileSource::new(alloc, files_of(alloc, &THREE_FILES, &[])?);
    let first = gives(alloc, &mut source, "file:d", &[Wanted::Item("a", "1")])?;
    let second = removes(alloc, &mut source, "b")?;
    let rest = [Wanted::Item("c", "3"), Wanted::End];
    Ok([first, second, gives(alloc, &mut source, "file:d", &rest)?])
}

#[test]
fn a_folder_is_listed_once_and_a_file_that_went_is_passed_over(
    rt: HostRuntime,
) -> Result<(), Fail> {
    let told = are_passed_over(rt.alloc())?;
    assert!(rt; told == [true; 3]);
    Ok(())
}

/// The files of a folder that is listed, or of which the first one is read, by a call that fails.
static TWO_FILES: [(&str, &str, &[u8]); 2] = [("d", "a", b"1"), ("d", "b", b"2")];

/// What is given of them: a pull that failed is made again.
static FAILED_FIRST: [(&str, &[Wanted]); 1] = [(
    "file:d",
    &[
        Wanted::Failed,
        Wanted::Item("a", "1"),
        Wanted::Item("b", "2"),
        Wanted::End,
    ],
)];

/// The calls of files are the listing, then a reading for each name.
#[test]
fn a_failed_call_fails_the_pull_and_passes_no_name_over(rt: HostRuntime) -> Result<(), Fail> {
    let alloc = rt.alloc();
    for number in [1, 2] {
        let wrong = wrong_row(
            alloc,
            files_of(alloc, &TWO_FILES, &[number])?,
            &FAILED_FIRST,
        )?;
        assert!(rt; wrong == None, "call {number}");
    }
    Ok(())
}

/// A failure of the kind `Bad`.
fn failure(alloc: Global) -> Result<End, NoMemory> {
    Ok(End::Failed(Fault {
        kind: Text::of_str(alloc, "Bad")?,
        text: Text::of_str(alloc, "")?,
    }))
}

/// Where the file `a` of a folder is once its exchange has ended well, and once it has failed.
static WAYS: [(&str, &str, &str, &str); 7] = [
    ("file:d", "d", "d/.camel", "d"),
    ("file:d?move=done", "d", "d/done", "d"),
    ("file:d?move=/done", "d", "/done", "d"),
    ("file:d?moveFailed=bad", "d", "d/.camel", "d/bad"),
    ("file:d?noop=true&moveFailed=bad", "d", "d", "d"),
    ("file:/?moveFailed=bad", "/", "/.camel", "/bad"),
    ("file:d?delete=true&moveFailed=bad/er", "d", "", "d/bad/er"),
];

/// Whether the file `a` of a folder, with these bytes, is the only one.
fn is_alone(files: &MemoryFiles, folder: &str, bytes: &str) -> bool {
    files.content().len() == 1 && holds(files, folder, "a", bytes)
}

/// Whether a commit of an end leaves the file `a` in a folder alone, or nowhere where that is empty.
fn goes(alloc: Global, from: &str, folder: &str, end: &End, to: &str) -> Result<bool, Fail> {
    let files = files_of(alloc, &[(folder, "a", b"1")], &[])?;
    let mut source = FileSource::new(alloc, files);
    if commit(alloc, &mut source, from, "a", end)?.is_err() {
        return Ok(false);
    }
    if to.is_empty() {
        return Ok(source.files.content().is_empty());
    }
    Ok(is_alone(&source.files, to, "1"))
}

/// Whether the file goes to one folder where its exchange has ended well, and to another where it has failed.
fn goes_both_ways(
    alloc: Global,
    from: &str,
    folder: &str,
    done: &str,
    failed: &str,
) -> Result<bool, Fail> {
    let failure = failure(alloc)?;
    Ok(
        goes(alloc, from, folder, &End::Completed, done)?
            && goes(alloc, from, folder, &End::Handled, done)?
            && goes(alloc, from, folder, &failure, failed)?,
    )
}

#[test]
fn a_file_goes_the_way_of_its_end(rt: HostRuntime) -> Result<(), Fail> {
    for (from, folder, done, failed) in &WAYS {
        let told = goes_both_ways(rt.alloc(), from, folder, done, failed)?;
        assert!(rt; told, "of {from}");
    }
    Ok(())
}

/// What a source whose first call of the files fails answers to each end of the file `a`, and where that is then.
static ENDED: [(Result<(), CommitFault>, &str); 3] = [
    (Err(CommitFault::Failed), "d"),
    (Ok(()), "d/.camel"),
    (Err(CommitFault::Failed), "d/.camel"),
];

/// Whether the file `a` is answered so and is where it is to be, for the rows one behind the other.
fn are_answered(alloc: Global, source: &mut FileSource<MemoryFiles>) -> Result<bool, Fail> {
    for (answer, folder) in &ENDED {
        let told = commit(alloc, source, "file:d", "a", &End::Completed)?;
        if told != *answer || !holds(&source.files, folder, "a", "1") {
            return Ok(false);
        }
    }
    Ok(true)
}

#[test]
fn a_commit_that_fails_leaves_the_file(rt: HostRuntime) -> Result<(), Fail> {
    let alloc = rt.alloc();
    let mut source = FileSource::new(alloc, files_of(alloc, &[("d", "a", b"1")], &[1])?);
    let told = are_answered(alloc, &mut source)?;
    assert!(rt; told);
    Ok(())
}

/// A file that is to be moved, and one of its name where it goes.
static NEW_AND_OLD: [(&str, &str, &[u8]); 2] = [("d", "a", b"new"), ("d/.camel", "a", b"old")];

/// Whether of two files of one name the new one is left alone, where the old one was.
fn is_replaced(alloc: Global) -> Result<bool, Fail> {
    let mut source = FileSource::new(alloc, files_of(alloc, &NEW_AND_OLD, &[])?);
    let told = commit(alloc, &mut source, "file:d", "a", &End::Handled)?;
    Ok(told.is_ok() && is_alone(&source.files, "d/.camel", "new"))
}

#[test]
fn a_move_replaces_a_file_of_that_name(rt: HostRuntime) -> Result<(), Fail> {
    assert!(rt; is_replaced(rt.alloc())?);
    Ok(())
}
