ghost use Rattle.std.specs.Prelude.{◌≡◌, ◌<◌, ◌⊎◌, ℕ, List, Some, [], vec_len, IfOk, IfSome, IsErrOf};
ghost use Rattle.std.specs.Io.{ReadsAtMost};
ghost use Rattle.std.specs.Io.KnownBytes.{ReadConsumes};
ghost use Rattle.eip_text.specs.Causes.{Rises};
ghost use Rattle.eip_keyed.specs.Keyed.{keys_of};
ghost use Rattle.eip_uri.specs.Printed.{printed};
ghost use Rattle.eip_endpoint.specs.Counters.{risen};
ghost use Rattle.eip_line.specs.Links.{Wrote, link_failure};
ghost use Rattle.eip_peers.specs.Peers.{untold_bytes, address_of, with_name, Heard, GivenUp, Called};

use eip_frames::Target;
use eip_keyed::find;
use eip_line::{Link, LinkFault};
use eip_text::{NoMemory, Text};
use eip_uri::Uri;
use std::alloc::Global;
use std::io::{Error, Read, Write};

/// What opens connections, as a system does.
pub trait Network {
    /// What a connection is read and written by.
    type Stream: Read + Write + Drop;

    /// Waits for the next peer that connects to this port.
    fn accept(&mut self, port: u16) -> Result<Self::Stream, Error>;

    /// Connects to this port of a host.
    fn connect(&mut self, host: &str, port: u16) -> Result<Self::Stream, Error>;
}

/// The printed address of a host and a port.
fn address_of(alloc: Global, host: &Text, port: u16) -> Result<Text, NoMemory>
    ensures { IfOk result (λ address. address ≡ printed (Uri.Line host.now port)) }
{
    let host = host.copy()?;
    let line = Uri::Line { host, port };
    line.print(alloc)
}

/// A link to peers (Camel's component *Netty*). What is read of a port comes of the one peer that was accepted at its
/// first reading. What is written to an address goes over the connection that was opened at the first write to it, and
/// is opened anew behind a write that failed. It tells no content.
#[derive(Drop)]
pub struct PeerLink<N, S> {
    pub alloc: Global,
    pub network: N,
    /// The connection of each port that was read from, by its printed URI.
    pub heard: Vec<(Text, S)>,
    /// The open connection of each address that was written to, by its printed URI.
    pub called: Vec<(Text, S)>,
    /// How many calls failed.
    pub faults: u64,
}

impl<S: Read + Write + Drop, N: Network<Stream = S>> PeerLink<N, S> {
    /// A link without connections. It takes no memory.
    pub fn new(alloc: Global, network: N) -> PeerLink<N, S>
        ensures network { result.network ≡ network }
        ensures heard { result.heard.items ≡ [] }
        ensures called { result.called.items ≡ [] }
        ensures faults { result.faults ≡ 0 }
    {
        PeerLink {
            alloc,
            network,
            heard: Vec::new(alloc),
            called: Vec::new(alloc),
            faults: 0,
        }
    }

    /// Counts a fault.
    fn fail(&mut self) -> LinkFault
        ensures fault { result ≡ LinkFault.Failed }
        ensures rose { Rises 1 self.old.faults self.new.faults }
        ensures heard { self.new.heard ≡ self.old.heard }
        ensures called { self.new.called ≡ self.old.called }
    {
        self.faults = self.faults.saturating_add(1);
        LinkFault::Failed
    }

    /// The index of the connection of a port, which is accepted where there is none yet.
    fn hear(&mut self, uri: Text, port: u16) -> Result<usize, LinkFault>
        ensures heard { Heard uri (keys_of self.old.heard.items) result (keys_of self.new.heard.items) }
        ensures within { IfOk result (λ place. place < vec_len self.new.heard) }
        ensures called { self.new.called ≡ self.old.called }
        ensures faults { Rises (link_failure result) self.old.faults self.new.faults }
    {
        if let Some(place) = find(self.heard.as_slice(), uri.bytes()) {
            return Ok(place);
        }
        if self.heard.reserve(1).is_err() {
            return Err(LinkFault::NoMemory);
        }
        let Ok(stream) = self.network.accept(port) else {
            return Err(self.fail());
        };
        let place = self.heard.len();
        self.heard.push((uri, stream)).unwrap();
        Ok(place)
    }

    /// Reads once from the connection with this index.
    fn read_at(&mut self, place: usize, piece: &mut [u8]) -> Result<usize, LinkFault>
        requires { place < vec_len self.old.heard }
        ensures bound { ReadsAtMost result piece.new }
        ensures heard { keys_of self.new.heard.items ≡ keys_of self.old.heard.items }
        ensures called { self.new.called ≡ self.old.called }
        ensures faults { Rises (link_failure result) self.old.faults self.new.faults }
    {
        let heard = &mut self.heard[place];
        match heard.1.read(piece) {
            Ok(count) => Ok(count),
            Err(_) => Err(self.fail()),
        }
    }

    /// The index of the open connection to an address, which is opened where there is none.
    fn call(&mut self, address: &Text, host: &Text, port: u16) -> Result<usize, LinkFault>
        ensures called { Called address.now (keys_of self.old.called.items) result (keys_of self.new.called.items) }
        ensures within { IfOk result (λ place. place < vec_len self.new.called) }
        ensures heard { self.new.heard ≡ self.old.heard }
        ensures faults { Rises (link_failure result) self.old.faults self.new.faults }
    {
        if let Some(place) = find(self.called.as_slice(), address.bytes()) {
            return Ok(place);
        }
        let Ok(key) = address.copy() else {
            return Err(LinkFault::NoMemory);
        };
        if self.called.reserve(1).is_err() {
            return Err(LinkFault::NoMemory);
        }
        let Ok(stream) = self.network.connect(host.as_str(), port) else {
            return Err(self.fail());
        };
        let place = self.called.len();
        self.called.push((key, stream)).unwrap();
        Ok(place)
    }

    /// Writes all of the bytes over the connection with this index, and tells whether it did.
    fn write_at(&mut self, place: usize, bytes: &[u8]) -> bool
        requires { place < vec_len self.old.called }
        ensures called { keys_of self.new.called.items ≡ keys_of self.old.called.items }
        ensures heard { self.new.heard ≡ self.old.heard }
        ensures faults { self.new.faults ≡ self.old.faults }
    {
        let called = &mut self.called[place];
        called.1.write_all(bytes).is_ok() && called.1.flush().is_ok()
    }

    /// Gives up the connection to an address.
    fn hang_up(&mut self, address: &Text)
        ensures called { GivenUp address.now (keys_of self.old.called.items) (keys_of self.new.called.items) }
        ensures heard { self.new.heard ≡ self.old.heard }
        ensures faults { self.new.faults ≡ self.old.faults }
    {
        self.called
            .retain(|entry| entry.0.bytes() != address.bytes());
    }

    /// Writes over the connection to an address, which is given up where that fails.
    fn write_to(
        &mut self,
        address: &Text,
        host: &Text,
        port: u16,
        bytes: &[u8],
    ) -> Result<(), LinkFault>
        ensures called { Called address.now (keys_of self.old.called.items) result (keys_of self.new.called.items) }
        ensures heard { self.new.heard ≡ self.old.heard }
        ensures faults { Rises (link_failure result) self.old.faults self.new.faults }
    {
        let place = match self.call(address, host, port) {
            Ok(place) => place,
            Err(fault) => return Err(fault),
        };
        if self.write_at(place, bytes) {
            return Ok(());
        }
        self.hang_up(address);
        Err(self.fail())
    }
}

impl<S: Read + Write + Drop, N: Network<Stream = S>> Link for PeerLink<N, S> {
    ghost unread = { λ _. untold_bytes };

    ghost written = { λ _. untold_bytes };

    ghost link_faults = { λ l. l.faults };

    /// Reads from the peer of a port, who is accepted at the first reading; the port has no other one from then on.
    /// `Failed` comes where no peer was accepted, the connection failed, or the endpoint is no port.
    fn read(&mut self, from: &Uri, piece: &mut [u8]) -> Result<usize, LinkFault>
        ensures bound { ReadsAtMost result piece.new }
        ensures bytes { ReadConsumes untold_bytes untold_bytes result piece.new }
        ensures written { untold_bytes ≡ untold_bytes }
        ensures faults { Rises (link_failure result) self.old.faults self.new.faults }
        ensures heard { Heard (printed from.now) (keys_of self.old.heard.items) result (keys_of self.new.heard.items) }
        ensures called { self.new.called ≡ self.old.called }
    {
        let Uri::Listen(port) = from else {
            return Err(self.fail());
        };
        let Ok(uri) = from.print(self.alloc) else {
            return Err(LinkFault::NoMemory);
        };
        match self.hear(uri, *port) {
            Ok(place) => self.read_at(place, piece),
            Err(fault) => Err(fault),
        }
    }

    /// Writes to the peer of an address, over the connection that is open or is opened now. `Failed` comes where it
    /// could not be opened, it failed, or the target has no address; the connection is given up then.
    fn write(&mut self, target: &Target, bytes: &[u8]) -> Result<(), LinkFault>
        ensures content { Wrote untold_bytes bytes.now result untold_bytes }
        ensures memory { IsErrOf result LinkFault.NoMemory → untold_bytes ≡ untold_bytes }
        ensures unread { untold_bytes ≡ untold_bytes }
        ensures faults { Rises (link_failure result) self.old.faults self.new.faults }
        ensures called { IfSome (address_of target.now) (λ address. Called address (keys_of self.old.called.items) result (keys_of self.new.called.items)) }
        ensures heard { self.new.heard ≡ self.old.heard }
    {
        let Target::Line { host, port } = target else {
            return Err(self.fail());
        };
        let Ok(address) = address_of(self.alloc, host, *port) else {
            return Err(LinkFault::NoMemory);
        };
        self.write_to(&address, host, *port, bytes)
    }
}
