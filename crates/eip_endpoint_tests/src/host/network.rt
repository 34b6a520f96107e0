use crate::pulls::{Wanted, gives_from};
use eip_endpoint::Endpoint;
use eip_exchange::Message;
use eip_frames::Target;
use eip_host::HostNetwork;
use eip_line::{LineLane, LineSource};
use eip_peers::{Network, PeerLink};
use eip_text::{NoMemory, Text};
use eip_uri::Uri;
use std::net::Net;
use std::test::Fail;

/// A port that no one else listens to, from now on listened to by this network, if one is found.
fn free_port<R: Net>(network: &mut HostNetwork<R>) -> Option<u16> {
    for port in 40_000..50_000 {
        if network.listen(port).is_ok() {
            return Some(port);
        }
    }
    None
}

/// Whether two lines are sent to a port of this host, over a connection that is closed behind them.
fn are_sent(rt: HostRuntime, port: u16) -> Result<bool, NoMemory> {
    let alloc = rt.alloc();
    let host = Text::of_str(alloc, "127.0.0.1")?;
    let target = Target::Line { host, port };
    let mut lane = LineLane::new(alloc, PeerLink::new(alloc, HostNetwork::new(alloc, rt)));
    for body in ["a", "bc"] {
        let message = Message::of_body(alloc, Text::of_str(alloc, body)?);
        if lane.send(&target, &message).is_err() {
            return Ok(false);
        }
    }
    Ok(true)
}

/// What is given of them.
static TWO_LINES: [Wanted; 3] = [Wanted::Item("1", "a"), Wanted::Item("2", "bc"), Wanted::End];

#[test]
fn lines_go_from_one_end_to_the_other(rt: HostRuntime) -> Result<(), Fail> {
    let alloc = rt.alloc();
    let mut source = LineSource::new(alloc, PeerLink::new(alloc, HostNetwork::new(alloc, rt)));
    let port = free_port(&mut source.link.network).expect(&rt, "a free port");
    assert!(rt; are_sent(rt, port)?);
    assert!(rt; gives_from(&mut source, &Uri::Listen(port), &TWO_LINES));
    assert!(rt; source.link.faults == 0);
    assert!(rt; source.link.network.listeners.len() == 1);
    Ok(())
}

/// Whether another network can't listen to a port that is listened to, and connects to no port 0.
fn is_refused(rt: HostRuntime, port: u16) -> [bool; 3] {
    let mut other = HostNetwork::new(rt.alloc(), rt);
    [
        other.accept(port).is_err(),
        other.listeners.is_empty(),
        other.connect("127.0.0.1", 0).is_err(),
    ]
}

#[test]
fn a_port_is_listened_to_once(rt: HostRuntime) -> Result<(), Fail> {
    let mut network = HostNetwork::new(rt.alloc(), rt);
    let port = free_port(&mut network).expect(&rt, "a free port");
    assert!(rt; network.listen(port).is_ok());
    let told = is_refused(rt, port);
    assert!(rt; told == [true; 3]);
    Ok(())
}
