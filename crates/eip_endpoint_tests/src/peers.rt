use eip_endpoint::{Endpoint, PullFault, Pulled, SendFault, Source};
use eip_exchange::Message;
use eip_frames::Target;
use eip_line::{LineLane, LineSource};
use eip_peers::{Network, PeerLink};
use eip_text::{NoMemory, Text};
use eip_uri::Uri;
use std::alloc::Global;
use std::io::{Error, ErrorKind, Read, Write};
use std::test::Fail;

/// A connection in memory, which gives its bytes and takes any, unless it is broken.
#[derive(Drop)]
struct Wire {
    left: &'static [u8],
    is_broken: bool,
}

impl Read for Wire {
    fn read(&mut self, buf: &mut [u8]) -> Result<usize, Error> {
        if self.is_broken {
            return Err(Error::from(ErrorKind::ConnectionReset));
        }
        let count = self.left.len().min(buf.len());
        let (front, rest) = self.left.split_at(count);
        buf[..count].copy_from_slice(front);
        self.left = rest;
        Ok(count)
    }
}

impl Write for Wire {
    fn write(&mut self, buf: &[u8]) -> Result<usize, Error> {
        if self.is_broken {
            return Err(Error::from(ErrorKind::BrokenPipe));
        }
        Ok(buf.len())
    }

    fn flush(&mut self) -> Result<(), Error> {
        Ok(())
    }
}

/// A network that counts the connections which it was asked for. The connection with the number `broken`, from 1, is
/// broken, and the one with the number `refused` is not opened.
#[derive(Drop)]
struct Wires {
    opened: u64,
    broken: u64,
    refused: u64,
}

impl Wires {
    fn open(&mut self, left: &'static [u8]) -> Result<Wire, Error> {
        self.opened = self.opened.saturating_add(1);
        if self.opened == self.refused {
            return Err(Error::from(ErrorKind::ConnectionRefused));
        }
        let is_broken = self.opened == self.broken;
        Ok(Wire { left, is_broken })
    }
}

impl Network for Wires {
    type Stream = Wire;

    fn accept(&mut self, _port: u16) -> Result<Wire, Error> {
        self.open(b"a\nb")
    }

    fn connect(&mut self, _host: &str, _port: u16) -> Result<Wire, Error> {
        self.open(b"")
    }
}

/// A link over such a network.
fn link_of(alloc: Global, broken: u64, refused: u64) -> PeerLink<Wires, Wire> {
    let opened = 0;
    PeerLink::new(
        alloc,
        Wires {
            opened,
            broken,
            refused,
        },
    )
}

/// What a pull gave: the body of its item, `end` or `failed`.
fn told(pulled: &Result<Pulled, PullFault>) -> &str {
    match pulled {
        Ok(Pulled::Item { message, .. }) => message.body.as_str(),
        Ok(Pulled::Refused { .. }) => "refused",
        Ok(Pulled::End) => "end",
        Err(PullFault::Failed) => "failed",
        Err(PullFault::NoMemory) => "memory",
    }
}

/// Whether these are given, one by each pull from a port, or from standard input where there is none.
fn gives(
    source: &mut LineSource<PeerLink<Wires, Wire>>,
    port: Option<u16>,
    wanted: &[&str],
) -> bool {
    let from = match port {
        Some(port) => Uri::Listen(port),
        None => Uri::StreamIn,
    };
    for next in wanted {
        if told(&source.pull(&from)) != *next {
            return false;
        }
    }
    true
}

/// A port, what pulls from it are to give, and how many connections are to be asked for by then.
type Row = (Option<u16>, &'static [&'static str], u64);

/// The number of the first row, from 0, that gives something else, and the count of faults behind it or the last one.
fn wrong_row(alloc: Global, broken: u64, rows: &[Row]) -> (Option<usize>, u64) {
    let mut source = LineSource::new(alloc, link_of(alloc, broken, 0));
    for (number, (port, wanted, opened)) in rows.iter().enumerate() {
        if !gives(&mut source, *port, wanted) || source.link.network.opened != *opened {
            return (Some(number), source.link.faults);
        }
    }
    (None, source.link.faults)
}

static PULLED: [Row; 3] = [
    (Some(7), &["a", "b", "end", "end"], 1),
    (Some(8), &["a"], 2),
    (None, &["failed"], 2),
];

#[test]
fn a_port_has_one_peer(rt: HostRuntime) -> Result<(), Fail> {
    let (wrong, _) = wrong_row(rt.alloc(), 0, &PULLED);
    assert!(rt; wrong == None, "row {wrong:?}");
    Ok(())
}

static BROKEN: [Row; 1] = [(Some(7), &["failed", "failed"], 1)];

#[test]
fn a_peer_that_breaks_off_fails_the_pull(rt: HostRuntime) -> Result<(), Fail> {
    assert!(rt; wrong_row(rt.alloc(), 1, &BROKEN) == (None, 2));
    Ok(())
}

/// Sends `x` to port 7 of a host.
fn send(
    alloc: Global,
    lane: &mut LineLane<PeerLink<Wires, Wire>>,
    host: &str,
) -> Result<Result<(), SendFault>, NoMemory> {
    let host = Text::of_str(alloc, host)?;
    let message = Message::of_body(alloc, Text::of_str(alloc, "x")?);
    Ok(lane.send(&Target::Line { host, port: 7 }, &message))
}

/// Hosts that are sent to, and how many connections are to be asked for by then.
static CALLED: [(&str, u64); 4] = [("h", 1), ("h", 1), ("i", 2), ("h", 2)];

/// The number of the first of these sends, from 0, that fails or needs another count of connections.
fn wrong_call(alloc: Global, rows: &[(&str, u64)]) -> Result<Option<usize>, NoMemory> {
    let mut lane = LineLane::new(alloc, link_of(alloc, 0, 0));
    for (number, (host, opened)) in rows.iter().enumerate() {
        if send(alloc, &mut lane, host)? != Ok(()) || lane.link.network.opened != *opened {
            return Ok(Some(number));
        }
    }
    Ok(None)
}

#[test]
fn an_address_is_connected_to_once(rt: HostRuntime) -> Result<(), Fail> {
    let wrong = wrong_call(rt.alloc(), &CALLED)?;
    assert!(rt; wrong == None, "row {wrong:?}");
    Ok(())
}

/// Whether of three sends to a host the first one fails and the others don't, with two connections and one fault.
fn is_called_again(alloc: Global, broken: u64, refused: u64) -> Result<bool, NoMemory> {
    let mut lane = LineLane::new(alloc, link_of(alloc, broken, refused));
    let answers = [
        send(alloc, &mut lane, "h")?,
        send(alloc, &mut lane, "h")?,
        send(alloc, &mut lane, "h")?,
    ];
    let counts = (lane.link.network.opened, lane.link.faults);
    Ok(answers == [Err(SendFault::Failed), Ok(()), Ok(())] && counts == (2, 1))
}

#[test]
fn an_address_is_connected_to_again_behind_a_failed_send(rt: HostRuntime) -> Result<(), Fail> {
    for (broken, refused) in [(1, 0), (0, 1)] {
        assert!(rt;
            is_called_again(rt.alloc(), broken, refused)?,
            "broken {broken}"
        );
    }
    Ok(())
}
