use crate::file_calls::Found;
use crate::host::pieces::Pieces;
use eip_endpoint::{Sink, SinkFault};
use eip_host::files::read_within;
use eip_host::words::{HELP, VERSION};
use eip_host::{Output, say};
use std::alloc::Global;
use std::io::{Error, ErrorKind, Write};
use std::test::Fail;

/// A writer in memory that takes at most two bytes at once. The call with the number `failing`, from 1, fails.
#[derive(Drop)]
struct Kept {
    bytes: Vec<u8>,
    failing: u64,
    calls: u64,
}

impl Write for Kept {
    fn write(&mut self, buf: &[u8]) -> Result<usize, Error> {
        self.calls = self.calls.saturating_add(1);
        if self.calls == self.failing {
            return Err(Error::from(ErrorKind::Other));
        }
        let count = buf.len().min(2);
        self.bytes.extend_from_slice(&buf[..count])?;
        Ok(count)
    }

    fn flush(&mut self) -> Result<(), Error> {
        Ok(())
    }
}

/// An output into memory.
fn output_of(alloc: Global, failing: u64) -> Output<Kept> {
    Output::new(Kept {
        bytes: Vec::new(alloc),
        failing,
        calls: 0,
    })
}

/// Whether a piece and a text behind it are written to their ends.
fn is_written_whole(alloc: Global) -> [bool; 3] {
    let mut out = output_of(alloc, 0);
    [
        out.write(b"abcde").is_ok(),
        say(&mut out, "f\n", 0) == 0,
        out.writer.bytes.as_slice() == b"abcdef\n".as_slice(),
    ]
}

#[test]
fn a_piece_is_written_to_its_end(rt: HostRuntime) -> Result<(), Fail> {
    let told = is_written_whole(rt.alloc());
    assert!(rt; told == [true; 3]);
    Ok(())
}

/// Whether an output that fails its second call writes the front alone, and counts that.
fn is_counted(alloc: Global) -> [bool; 3] {
    let mut out = output_of(alloc, 2);
    [
        out.write(b"abcde") == Err(SinkFault::Failed),
        out.faults == 1,
        out.writer.bytes.as_slice() == b"ab".as_slice(),
    ]
}

/// The status behind a text that is not written, where it would be this one.
fn status_unwritten(alloc: Global, status: u8) -> u8 {
    say(&mut output_of(alloc, 1), "x", status)
}

#[test]
fn a_failed_writing_is_counted_behind_the_front(rt: HostRuntime) -> Result<(), Fail> {
    let told = is_counted(rt.alloc());
    assert!(rt; told == [true; 3]);
    for (status, answered) in [(0, 2), (5, 5)] {
        assert!(rt; status_unwritten(rt.alloc(), status) == answered);
    }
    Ok(())
}

/// A size of pieces, the number of the call that fails, the limit, what is read of `abcde`, and what is left of it.
static READINGS: [(usize, u64, usize, Found, &[u8]); 3] = [
    (2, 0, 5, Found::Bytes(b"abcde"), b""),
    (100, 0, 3, Found::TooLong, b"e"),
    (2, 2, 5, Found::Failed, b"cde"),
];

/// Whether this is read, and this is left.
fn is_read(
    alloc: Global,
    size: usize,
    failing: u64,
    limit: usize,
    wanted: Found,
    left: &[u8],
) -> bool {
    let mut reader = Pieces::new(b"abcde", size, failing);
    wanted.is(&read_within(alloc, &mut reader, limit)) && reader.bytes == left
}

#[test]
fn a_reader_is_read_within_the_limit(rt: HostRuntime) -> Result<(), Fail> {
    for (row, (size, failing, limit, wanted, left)) in READINGS.iter().enumerate() {
        let told = is_read(rt.alloc(), *size, *failing, *limit, *wanted, left);
        assert!(rt; told, "row {row}");
    }
    Ok(())
}

/// What the page of help tells of each command, option and status.
static TOLD: [&str; 23] = [
    "\n  eip drain ROUTES [--workers N] [--turns N] [--journal FILE]\n",
    "\n  eip check ROUTES   ",
    "\n  eip audit ROUTES JOURNAL\n",
    "\n  eip migrate OLD NEW\n",
    "\n  eip load N W       ",
    " N items, from 1 to 20000,\n",
    " W workers, from 0 to 16, ",
    "\n  eip --help         ",
    "\n  eip --version      ",
    "\n  --workers N        N workers, from 0 to 16, ",
    "\n  --turns N          ",
    " N turns, from 1 to 1000000, ",
    " 100000 where N is not given ",
    "\n  --journal FILE     ",
    " the journal of the run ",
    "\n  0  every exchange came to its end, the routes were printed, or the journal\n",
    " is legal or was migrated\n",
    "\n  1  the words, the route file or the dump were refused\n",
    "\n  2  the files, a source or standard output failed\n",
    "\n  3  ",
    "\n  4  the turns were spent before the end\n",
    "\n  5  there was no memory\n",
    "\n  6  the journal is not legal\n",
];

#[test]
fn the_page_of_help_tells_each_command_and_status(rt: HostRuntime) -> Result<(), Fail> {
    for &part in &TOLD {
        assert!(rt; HELP.contains(part), "no {part}");
    }
    assert!(rt; VERSION == "eip 0.1.0\n");
    Ok(())
}
