use eip_endpoint::{Endpoint, SendFault};
use eip_exchange::Message;
use eip_frames::Target;
use eip_line::{LineLane, Link, LinkFault, MemoryLink};
use eip_text::{NoMemory, Text};
use eip_uri::Uri;
use std::alloc::Global;
use std::test::Fail;

/// Sends a body to the host `h`, port 7.
fn send(alloc: Global, lane: &mut LineLane<MemoryLink>, body: &str) -> Result<(), SendFault> {
    let Ok(host) = Text::of_str(alloc, "h") else {
        return Err(SendFault::NoMemory);
    };
    let Ok(body) = Text::of_str(alloc, body) else {
        return Err(SendFault::NoMemory);
    };
    lane.send(
        &Target::Line { host, port: 7 },
        &Message::of_body(alloc, body),
    )
}

/// A link in memory with this input, by the number of the call that is to fail.
pub fn link_of(alloc: Global, input: &[u8], failing: u64) -> Result<MemoryLink, NoMemory> {
    let mut copy = Vec::new(alloc);
    copy.extend_from_slice(input)?;
    Ok(MemoryLink::new(alloc, copy, vec![in alloc; failing]?))
}

/// A body, what its sending is to answer, and all that is to be written by then.
type Row = (&'static str, Result<(), SendFault>, &'static [u8]);

/// The number of the first row, from 0, that a lane answers otherwise whose call of a number fails.
fn wrong_row(alloc: Global, failing: u64, rows: &[Row]) -> Result<Option<usize>, NoMemory> {
    let mut lane = LineLane::new(alloc, link_of(alloc, b"", failing)?);
    for (number, (body, answer, written)) in rows.iter().enumerate() {
        if send(alloc, &mut lane, body) != *answer || lane.link.written() != *written {
            return Ok(Some(number));
        }
    }
    Ok(None)
}

static SENT: [Row; 2] = [("hi", Ok(()), b"hi\n"), ("", Ok(()), b"hi\n\n")];

#[test]
fn a_message_is_the_body_and_an_lf(rt: HostRuntime) -> Result<(), Fail> {
    let wrong = wrong_row(rt.alloc(), 0, &SENT)?;
    assert!(rt; wrong == None, "row {wrong:?}");
    Ok(())
}

static FAILED_FIRST: [Row; 2] = [("hi", Err(SendFault::Failed), b""), ("ho", Ok(()), b"ho\n")];

#[test]
fn a_failed_writing_fails_the_send(rt: HostRuntime) -> Result<(), Fail> {
    let wrong = wrong_row(rt.alloc(), 1, &FAILED_FIRST)?;
    assert!(rt; wrong == None, "row {wrong:?}");
    Ok(())
}

/// Whether three bytes are read.
fn reads_three(link: &mut MemoryLink) -> bool {
    let mut piece = [0, 0, 0];
    link.read(&Uri::StreamIn, &mut piece) == Ok(3) && piece == [b'a', b'b', b'c']
}

/// Whether a first write fails and a second one doesn't.
fn writes_once(link: &mut MemoryLink, target: &Target) -> bool {
    link.write(target, b"no") == Err(LinkFault::Failed)
        && link.write(target, b"yes") == Ok(())
        && link.written() == b"yes".as_slice()
}

/// Whether one byte is left to read.
fn reads_one(link: &mut MemoryLink) -> bool {
    let mut piece = [0, 0, 0];
    link.read(&Uri::StreamIn, &mut piece) == Ok(1) && link.read(&Uri::StreamIn, &mut piece) == Ok(0)
}

/// Whether a link of four bytes that fails its second call answers so to a read, two writes and two reads.
fn counts_together(alloc: Global) -> Result<[bool; 3], NoMemory> {
    let target = Target::Lane(Text::of_str(alloc, "x")?);
    let mut link = link_of(alloc, b"abcd", 2)?;
    Ok([
        reads_three(&mut link),
        writes_once(&mut link, &target),
        reads_one(&mut link),
    ])
}

#[test]
fn a_link_in_memory_counts_reads_and_writes_together(rt: HostRuntime) -> Result<(), Fail> {
    let told = counts_together(rt.alloc())?;
    assert!(rt; told == [true; 3]);
    Ok(())
}
