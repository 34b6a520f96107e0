use eip_endpoint::{Inlet, Lane};
use eip_route::RouteSet;
use eip_shared::SharedRun;
use eip_turnstile::{Seat, Turnstile};
use std::sync::atomic::AtomicU32;

/// A worker: its seat while it is at rest, the routes whose sources it pulls and tells, and the lanes and inlets that it owns, in the
/// order in which they were handed in.
pub struct Worker<E, S> {
    pub seat: Option<Seat<SharedRun>>,
    pub sources: RouteSet,
    pub lanes: Vec<Lane<E>>,
    pub inlets: Vec<Inlet<S>>,
    /// Whether a pull, or the run itself, found no memory.
    pub lacks_memory: bool,
}

/// What all workers of a round share: the run, what is called by name, the gate, and how many of the workers are at work.
#[derive(Drop)]
pub struct Round<'a, R, G> {
    pub lock: &'a Turnstile<SharedRun>,
    pub registry: &'a R,
    pub gate: &'a G,
    pub present: &'a AtomicU32,
    pub workers: u32,
}
