ghost use Rattle.eip_line.specs.Lanes.{untold_calls};
ghost use Rattle.eip_line.specs.Sources.{untold_items, untold_commits};
ghost use Rattle.eip_doors.specs.Doors.{lane_faults_of, inlet_faults_of};

use eip_endpoint::{
    CommitFault, Endpoint, Files, Mover, PullFault, Pulled, SendFault, Sink, SinkFault, Source,
};
use eip_exchange::{End, Message};
use eip_file::{FileLane, FileSource};
use eip_frames::Target;
use eip_host::SharedProgress;
use eip_line::{LineLane, LineSource, Link};
use eip_load::LoadSource;
use eip_text::Text;
use eip_uri::Uri;
use std::io::Write;
use std::time::Clock;

// The host's lanes and inlets, each kind as one type.

/// A lane of the host.
#[derive(Drop)]
pub enum HostLane<F, K> {
    /// Writes files.
    Files(FileLane<F>),
    /// Sends lines to peers.
    Lines(LineLane<K>),
}

impl<F: Files + Send + Drop, K: Link + Send + Drop> Endpoint for HostLane<F, K> {
    ghost calls = { λ _. untold_calls };

    ghost lane_faults = { λ l. lane_faults_of F.files_faults K.link_faults l };

    fn send(&mut self, target: &Target, message: &Message) -> Result<(), SendFault> {
        match self {
            HostLane::Files(lane) => lane.send(target, message),
            HostLane::Lines(lane) => lane.send(target, message),
        }
    }
}

/// An inlet of the host.
#[derive(Drop)]
pub enum HostInlet<A, F, K> {
    /// Lines of standard input.
    Stream(LineSource<A>),
    /// The files of folders.
    Files(FileSource<F>),
    /// Lines of peers.
    Lines(LineSource<K>),
    /// Items of a load.
    Loads(LoadSource),
}

impl<A: Link + Send + Drop, F: Mover + Send + Drop, K: Link + Send + Drop> Source
    for HostInlet<A, F, K> {
    ghost given = { λ _ _. untold_items };

    ghost left = { λ _ _. untold_items };

    ghost commits = { λ _ _. untold_commits };

    ghost inlet_faults = { λ i. inlet_faults_of A.link_faults F.Files.files_faults K.link_faults i };

    fn pull(&mut self, from: &Uri) -> Result<Pulled, PullFault> {
        match self {
            HostInlet::Stream(source) => source.pull(from),
            HostInlet::Files(source) => source.pull(from),
            HostInlet::Lines(source) => source.pull(from),
            HostInlet::Loads(source) => source.pull(from),
        }
    }

    fn commit(&mut self, from: &Uri, item: &Text, end: &End) -> Result<(), CommitFault> {
        match self {
            HostInlet::Stream(source) => source.commit(from, item, end),
            HostInlet::Files(source) => source.commit(from, item, end),
            HostInlet::Lines(source) => source.commit(from, item, end),
            HostInlet::Loads(source) => source.commit(from, item, end),
        }
    }
}

/// An output before whose writes the count of taken items is wiped, where there is one. It writes what it writes without that.
#[derive(Drop)]
pub struct Wiping<O, C, W> {
    pub out: O,
    pub progress: Option<SharedProgress<C, W>>,
}

impl<O: Sink, C: Clock, W: Write> Sink for Wiping<O, C, W> {
    ghost bytes = { λ w. O.bytes w.out };

    ghost sink_faults = { λ w. O.sink_faults w.out };

    fn write(&mut self, piece: &[u8]) -> Result<(), SinkFault> {
        if let Some(progress) = &self.progress {
            wipe(progress);
        }
        self.out.write(piece)
    }
}

/// Wipes a count. One that is in use is left as it is.
fn wipe<C: Clock, W: Write>(progress: &SharedProgress<C, W>) {
    if let Some(mut progress) = progress.try_lock() {
        progress.wipe();
    }
}
