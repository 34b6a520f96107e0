ghost use Rattle.std.specs.Prelude.{◌≡◌};
ghost use Rattle.eip_text.specs.Causes.{Rises};

use crate::lines::lanes::link_of;
use crate::pulls::{BODIES, FIVE_LINES, LINES, Long, OF_FIVE_LINES, Wanted, gives, long};
use eip_endpoint::{Refusal, Source};
use eip_exchange::End;
use eip_frames::Target;
use eip_line::{LineSource, Link, LinkFault};
use eip_text::{NoMemory, Text};
use eip_uri::Uri;
use std::alloc::Global;
use std::test::Fail;

/// A link in memory that gives at most `size` bytes at once, and writes nothing. The read with the number `failing`,
/// from 1, fails.
#[derive(Drop)]
struct Pieces<'a> {
    bytes: &'a [u8],
    size: usize,
    failing: u64,
    calls: u64,
    faults: u64,
}

impl<'a> Pieces<'a> {
    fn new(bytes: &'a [u8], size: usize, failing: u64) -> Pieces<'a> {
        Pieces {
            bytes,
            size,
            failing,
            calls: 0,
            faults: 0,
        }
    }

    /// Counts a fault.
    fn fail(&mut self) -> LinkFault
        ensures fault { result ≡ LinkFault.Failed }
        ensures rose { Rises 1 self.old.faults self.new.faults }
    {
        self.faults = self.faults.saturating_add(1);
        LinkFault::Failed
    }
}

impl Link for Pieces<'_> {
    ghost use Rattle.std.specs.Prelude.{None};

    ghost unread = { λ _. None };

    ghost written = { λ _. None };

    ghost link_faults = { λ p. p.faults };

    fn read(&mut self, _from: &Uri, piece: &mut [u8]) -> Result<usize, LinkFault> {
        self.calls = self.calls.saturating_add(1);
        if self.calls == self.failing {
            return Err(self.fail());
        }
        let count = self.size.min(self.bytes.len()).min(piece.len());
        let (front, rest) = self.bytes.split_at(count);
        piece[..count].copy_from_slice(front);
        self.bytes = rest;
        Ok(count)
    }

    fn write(&mut self, _target: &Target, _bytes: &[u8]) -> Result<(), LinkFault> {
        Err(self.fail())
    }
}

/// Pulls from the lines of a link once for each that is wanted: how many pulls failed by the link and how many met a
/// line without end, or none where another was given.
fn faults_behind(alloc: Global, link: Pieces<'_>, wanted: &[Wanted]) -> Option<(u64, u64)> {
    let mut source = LineSource::new(alloc, link);
    if !gives(&mut source, wanted) {
        return None;
    }
    Some((source.link.faults, source.endless))
}

#[test]
fn lines_are_the_same_whatever_the_pieces(rt: HostRuntime) -> Result<(), Fail> {
    for size in [1, 3, 1_000] {
        let link = Pieces::new(FIVE_LINES, size, 0);
        let faults = faults_behind(rt.alloc(), link, &OF_FIVE_LINES);
        assert!(rt; faults == Some((0, 0)), "by {size}");
    }
    Ok(())
}

#[test]
fn an_empty_last_line_is_none(rt: HostRuntime) -> Result<(), Fail> {
    let none = faults_behind(rt.alloc(), Pieces::new(b"", 10, 0), &[Wanted::End]);
    assert!(rt; none == Some((0, 0)));
    let wanted = [Wanted::Item("1", "a"), Wanted::End];
    let one = faults_behind(rt.alloc(), Pieces::new(b"a\n", 10, 0), &wanted);
    assert!(rt; one == Some((0, 0)));
    Ok(())
}

#[test]
fn a_refused_line_counts(rt: HostRuntime) -> Result<(), Fail> {
    let wanted = [
        Wanted::Refused("1", Refusal::NotText),
        Wanted::Item("2", "ok"),
    ];
    let faults = faults_behind(rt.alloc(), Pieces::new(b"\xff\nok\n", 10, 0), &wanted);
    assert!(rt; faults == Some((0, 0)));
    Ok(())
}

/// Whether this is given of it.
fn is_given(alloc: Global, row: &Long) -> Result<bool, NoMemory> {
    let (front, count, end, size, wanted, endless) = row;
    let bytes = long(alloc, front, *count, end)?;
    let link = Pieces::new(bytes.as_slice(), *size, 0);
    Ok(faults_behind(alloc, link, wanted) == Some((0, *endless)))
}

#[test]
fn a_body_has_at_most_65536_bytes(rt: HostRuntime) -> Result<(), Fail> {
    for (number, row) in BODIES.iter().enumerate() {
        assert!(rt; is_given(rt.alloc(), row)?, "row {number}");
    }
    Ok(())
}

#[test]
fn a_line_ends_within_1048576_bytes(rt: HostRuntime) -> Result<(), Fail> {
    for (number, row) in LINES.iter().enumerate() {
        assert!(rt; is_given(rt.alloc(), row)?, "row {number}");
    }
    Ok(())
}

#[test]
fn a_failed_reading_is_counted_and_loses_no_byte(rt: HostRuntime) -> Result<(), Fail> {
    let wanted = [
        Wanted::Failed,
        Wanted::Item("1", "ab"),
        Wanted::Item("2", "cd"),
        Wanted::End,
    ];
    let faults = faults_behind(rt.alloc(), Pieces::new(b"ab\ncd\n", 2, 2), &wanted);
    assert!(rt; faults == Some((1, 0)));
    Ok(())
}

#[test]
fn a_peer_that_closes_in_mid_line_has_given_a_last_line(rt: HostRuntime) -> Result<(), Fail> {
    let wanted = [
        Wanted::Item("1", "whole"),
        Wanted::Item("2", "half"),
        Wanted::End,
    ];
    let faults = faults_behind(rt.alloc(), Pieces::new(b"whole\nhalf", 4, 0), &wanted);
    assert!(rt; faults == Some((0, 0)));
    Ok(())
}

/// Pulls from two ports, and what each gives. Links have one list of bytes, so that an endpoint which is pulled from
/// later gets what no reading took before.
static TWO_PORTS: [(u16, Wanted); 6] = [
    (7_001, Wanted::Item("1", "a")),
    (7_002, Wanted::Item("1", "")),
    (7_002, Wanted::Item("2", "d")),
    (7_001, Wanted::Item("2", "bc")),
    (7_001, Wanted::End),
    (7_002, Wanted::End),
];

/// The number of the first of these pulls, from 0, that gives something else.
fn wrong_pull(alloc: Global, link: Pieces<'_>, rows: &[(u16, Wanted)]) -> Option<usize> {
    let mut source = LineSource::new(alloc, link);
    for (number, (port, wanted)) in rows.iter().enumerate() {
        if !wanted.is(&source.pull(&Uri::Listen(*port))) {
            return Some(number);
        }
    }
    None
}

#[test]
fn each_endpoint_has_a_buffer_and_numbers_of_its_own(rt: HostRuntime) -> Result<(), Fail> {
    let link = Pieces::new(b"a\nbc\nd\n", 4, 0);
    let wrong = wrong_pull(rt.alloc(), link, &TWO_PORTS);
    assert!(rt; wrong == None, "row {wrong:?}");
    Ok(())
}

/// Whether a link that fails its first call fails the first pull alone, and then takes the end of an item.
fn fails_once(alloc: Global) -> Result<[bool; 2], NoMemory> {
    let item = Text::of_str(alloc, "1")?;
    let mut source = LineSource::new(alloc, link_of(alloc, b"ab\n", 1)?);
    let wanted = [Wanted::Failed, Wanted::Item("1", "ab"), Wanted::End];
    Ok([
        gives(&mut source, &wanted),
        source
            .commit(&Uri::StreamIn, &item, &End::Completed)
            .is_ok(),
    ])
}

#[test]
fn a_link_in_memory_fails_at_its_numbers(rt: HostRuntime) -> Result<(), Fail> {
    let told = fails_once(rt.alloc())?;
    assert!(rt; told == [true; 2]);
    Ok(())
}
