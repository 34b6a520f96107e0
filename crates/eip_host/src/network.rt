ghost use Rattle.std.specs.Prelude.{◌≡◌, false, Some, [], IfOk, IfSome, IfNone, slice_get};
ghost use Rattle.eip_host.specs.Networks.{ports_of, is_bound, Kept, Listened, Accepted};

use eip_peers::Network;
use std::alloc::Global;
use std::io::Error;
use std::net::{Ipv4Addr, Net, OpenListener, TcpListener, TcpStream};

/// The index of the first listener of this port, from 0; `None` exactly where it has none.
fn place_of<L>(listeners: &[(u16, L)], port: u16) -> Option<usize>
    ensures there { IfSome result (λ k. slice_get (ports_of listeners.now) k ≡ Some port) }
    ensures none { IfNone result (is_bound port (ports_of listeners.now) ≡ false) }
{
    for (place, listener) in listeners.iter().enumerate() {
        if listener.0 == port {
            return Some(place);
        }
    }
    None
}

/// The host's TCP, by a runtime. A port is bound once, on all of the host's IPv4 addresses, and listened to from then
/// on.
#[derive(Drop)]
pub struct HostNetwork<R: Net> {
    pub runtime: R,
    /// The listener of each port that was bound.
    pub listeners: Vec<(u16, R::Listener)>,
}

impl<R: Net> HostNetwork<R> {
    /// The network of this runtime, which listens to no port. It takes no memory.
    pub fn new(alloc: Global, runtime: R) -> HostNetwork<R>
        ensures runtime { result.runtime ≡ runtime }
        ensures listeners { result.listeners.items ≡ [] }
    {
        HostNetwork {
            runtime,
            listeners: Vec::new(alloc),
        }
    }

    /// The index of the listener of a port, which is bound where it is not yet. Peers that connect from then on wait to
    /// be accepted. An error comes where the port can't be bound or there was no memory, and then no port is bound. The
    /// listeners that are there stay.
    pub fn listen(&mut self, port: u16) -> Result<usize, Error>
        ensures ports { Listened port (ports_of self.old.listeners.items) result (ports_of self.new.listeners.items) }
        ensures kept { Kept self.old.listeners.items self.new.listeners.items }
        ensures runtime { self.new.runtime ≡ self.old.runtime }
        ensures place { IfOk result (λ k. slice_get (ports_of self.new.listeners.items) k ≡ Some port) }
    {
        if let Some(place) = place_of(self.listeners.as_slice(), port) {
            return Ok(place);
        }
        self.listeners.reserve(1)?;
        let listener = TcpListener::bind(&self.runtime, (Ipv4Addr::UNSPECIFIED, port))?;
        let place = self.listeners.len();
        self.listeners.push((port, listener)).unwrap();
        Ok(place)
    }
}

impl<R: Net> Network for HostNetwork<R> {
    type Stream = R::Stream;

    /// Waits for the next peer that connects to this port, which is bound at the first call. An error comes where the
    /// port can't be bound, no peer could be accepted, or there was no memory. The listeners that are there stay.
    fn accept(&mut self, port: u16) -> Result<R::Stream, Error>
        ensures ports { Accepted port (ports_of self.old.listeners.items) result (ports_of self.new.listeners.items) }
        ensures kept { Kept self.old.listeners.items self.new.listeners.items }
        ensures runtime { self.new.runtime ≡ self.old.runtime }
    {
        let place = self.listen(port)?;
        let (stream, _) = self.listeners[place].1.accept()?;
        Ok(stream)
    }

    /// Connects to this port of a host, which is an IP address or a name. An error comes where the name is not found or
    /// no address of it answers. The ports that are listened to stay.
    fn connect(&mut self, host: &str, port: u16) -> Result<R::Stream, Error>
        ensures { self.new ≡ self.old }
    {
        TcpStream::connect(&self.runtime, (host, port))
    }
}
