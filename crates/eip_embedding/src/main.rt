// A program that embeds the engine: it runs routes over a lane and a processor of its own, beside some that the shipped program has.
#![tactic(auto)]

mod answer;
mod handed;
mod kinds;
mod seal;
mod till;
mod words;

use answer::answer;
use eip_host::{
    HostFileSystem, HostFiles, HostNetwork, Output, ReaderLink, SharedProgress, words_of,
};
use eip_peers::PeerLink;
use handed::handed_in;
use std::env;
use std::io::Stderr;
use std::process::ExitCode;

fn main(rt: HostRuntime) -> ExitCode {
    let alloc = rt.alloc();
    let input = ReaderLink::new(rt.stdin());
    let written = HostFiles::new(alloc, HostFileSystem { runtime: rt });
    let taken = HostFiles::new(alloc, HostFileSystem { runtime: rt });
    let heard = PeerLink::new(alloc, HostNetwork::new(alloc, rt));
    let uncounted: Option<SharedProgress<HostRuntime, Stderr>> = None;
    answer(
        &rt,
        alloc,
        words_of(alloc, env::args(&rt)),
        handed_in(alloc, input, (written, taken), heard, &uncounted),
        &mut HostFiles::new(alloc, HostFileSystem { runtime: rt }),
        &mut Output::new(rt.stdout()),
    )
}
