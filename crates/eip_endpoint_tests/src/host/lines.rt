use crate::host::pieces::Pieces;
use crate::pulls::{BODIES, FIVE_LINES, LINES, Long, OF_FIVE_LINES, Wanted, gives, long};
use eip_endpoint::{Refusal, Source};
use eip_exchange::End;
use eip_frames::Target;
use eip_host::ReaderLink;
use eip_line::{LineSource, Link, LinkFault};
use eip_text::{NoMemory, Text};
use eip_uri::Uri;
use std::alloc::Global;
use std::test::Fail;

/// Pulls from the lines of a reader once for each that is wanted: the count of faults, or none where another was given.
fn faults_behind(alloc: Global, reader: Pieces<'_>, wanted: &[Wanted]) -> Option<u64> {
    let mut source = LineSource::new(alloc, ReaderLink::new(reader));
    if !gives(&mut source, wanted) {
        return None;
    }
    Some(source.link.faults.saturating_add(source.endless))
}

#[test]
fn lines_are_the_same_whatever_the_pieces(rt: HostRuntime) -> Result<(), Fail> {
    for size in 1..=FIVE_LINES.len() {
        let reader = Pieces::new(FIVE_LINES, size, 0);
        let faults = faults_behind(rt.alloc(), reader, &OF_FIVE_LINES);
        assert!(rt; faults == Some(0), "by {size}");
    }
    Ok(())
}

/// What is read by pieces of so many bytes, the number of the call that fails, what is to be given of it, and the count of faults.
type Row = (&'static [u8], usize, u64, &'static [Wanted], u64);

/// Whether this is given.
fn is_given(alloc: Global, row: &Row) -> bool {
    let (bytes, size, failing, wanted, faults) = row;
    faults_behind(alloc, Pieces::new(bytes, *size, *failing), wanted) == Some(*faults)
}

static EMPTY_LAST: [Row; 2] = [
    (b"", 10, 0, &[Wanted::End], 0),
    (b"a\n", 10, 0, &[Wanted::Item("1", "a"), Wanted::End], 0),
];

#[test]
fn an_empty_last_line_is_none(rt: HostRuntime) -> Result<(), Fail> {
    for (number, row) in EMPTY_LAST.iter().enumerate() {
        assert!(rt; is_given(rt.alloc(), row), "row {number}");
    }
    Ok(())
}

static REFUSED: Row = (
    b"\xff\nok\n",
    10,
    0,
    &[
        Wanted::Refused("1", Refusal::NotText),
        Wanted::Item("2", "ok"),
    ],
    0,
);

#[test]
fn a_refused_line_counts(rt: HostRuntime) -> Result<(), Fail> {
    assert!(rt; is_given(rt.alloc(), &REFUSED));
    Ok(())
}

/// Whether this is given of it.
fn is_given_of(alloc: Global, row: &Long) -> Result<bool, NoMemory> {
    let (front, count, end, size, wanted, faults) = row;
    let bytes = long(alloc, front, *count, end)?;
    let reader = Pieces::new(bytes.as_slice(), *size, 0);
    Ok(faults_behind(alloc, reader, wanted) == Some(*faults))
}

#[test]
fn a_body_has_at_most_65536_bytes(rt: HostRuntime) -> Result<(), Fail> {
    for (number, row) in BODIES.iter().enumerate() {
        assert!(rt; is_given_of(rt.alloc(), row)?, "row {number}");
    }
    Ok(())
}

#[test]
fn a_line_ends_within_1048576_bytes(rt: HostRuntime) -> Result<(), Fail> {
    for (number, row) in LINES.iter().enumerate() {
        assert!(rt; is_given_of(rt.alloc(), row)?, "row {number}");
    }
    Ok(())
}

static FAILED_FIRST: Row = (
    b"ab\ncd\n",
    2,
    2,
    &[
        Wanted::Failed,
        Wanted::Item("1", "ab"),
        Wanted::Item("2", "cd"),
        Wanted::End,
    ],
    1,
);

/// Whether a source of no lines takes the end of an item.
fn is_committed(alloc: Global) -> Result<bool, NoMemory> {
    let mut source = LineSource::new(alloc, ReaderLink::new(Pieces::new(b"", 2, 0)));
    let item = Text::of_str(alloc, "1")?;
    Ok(
        source
            .commit(&Uri::StreamIn, &item, &End::Completed)
            .is_ok(),
    )
}

#[test]
fn a_failed_reading_is_counted_and_loses_no_byte(rt: HostRuntime) -> Result<(), Fail> {
    assert!(rt; is_given(rt.alloc(), &FAILED_FIRST));
    assert!(rt; is_committed(rt.alloc())?);
    Ok(())
}

/// Whether a reader of two bytes as a link counts a fault where it is written to, and then gives them.
fn is_not_written_to(target: &Target) -> [bool; 4] {
    let mut link = ReaderLink::new(Pieces::new(b"ab", 2, 0));
    let mut piece = [0; 4];
    [
        link.write(target, b"c") == Err(LinkFault::Failed),
        link.faults == 1,
        link.read(&Uri::StreamIn, &mut piece) == Ok(2),
        piece[..2] == b"ab"[..],
    ]
}

#[test]
fn nothing_is_written_to_a_reader(rt: HostRuntime) -> Result<(), Fail> {
    let target = Target::Lane(Text::of_str(rt.alloc(), "a")?);
    let told = is_not_written_to(&target);
    assert!(rt; told == [true; 4]);
    Ok(())
}
