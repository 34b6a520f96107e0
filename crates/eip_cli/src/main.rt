// The program: the host's objects, handed to what answers its words.
#![tactic(auto)]

mod answers;

use answers::answer;
use eip_doors::{Wiping, handed_in, patterns};
use eip_host::{
    HostFileSystem, HostFiles, HostNetwork, Output, Progress, ReaderLink, SharedProgress, words_of,
};
use eip_peers::PeerLink;
use std::env;
use std::io::{IsTerminal, Stderr};
use std::process::ExitCode;
use std::sync::{Arc, Mutex};

/// The count of items that are taken, where standard error is a terminal, and there is memory for it.
fn progress(rt: HostRuntime) -> Option<SharedProgress<HostRuntime, Stderr>> {
    let alloc = rt.alloc();
    let error = rt.stderr();
    if !error.is_terminal() {
        return None;
    }
    Arc::new(alloc, Mutex::new(Progress::new(alloc, rt, error))).ok()
}

fn main(rt: HostRuntime) -> ExitCode {
    let alloc = rt.alloc();
    let input = ReaderLink::new(rt.stdin());
    let written = HostFiles::new(alloc, HostFileSystem { runtime: rt });
    let taken = HostFiles::new(alloc, HostFileSystem { runtime: rt });
    let called = PeerLink::new(alloc, HostNetwork::new(alloc, rt));
    let heard = PeerLink::new(alloc, HostNetwork::new(alloc, rt));
    let progress = progress(rt);
    answer(
        &rt,
        alloc,
        words_of(alloc, env::args(&rt)),
        handed_in(alloc, input, (written, taken), (called, heard), &progress),
        &mut HostFiles::new(alloc, HostFileSystem { runtime: rt }),
        &mut patterns(alloc),
        &mut Wiping {
            out: Output::new(rt.stdout()),
            progress,
        },
    )
}
