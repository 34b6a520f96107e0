ghost use Rattle.std.specs.Prelude.{◌≡◌, ◌≤◌, IfSome};
ghost use Rattle.eip_core.specs.Doors.{CanRun};
ghost use Rattle.eip_core.specs.Drain.{CanDrain};
ghost use Rattle.eip_core.specs.Served as served;
ghost use Rattle.eip_outlets.specs.Outlets.{outlets};
ghost use Rattle.eip_owners.specs.Owners.{OwnersPull};

use eip_core::{Hub, names_of};
use eip_endpoint::{Inlet, Inlets, Lane, Lanes, MemoryLane, MemorySource};
use eip_processor::{Registered, Registry};
use eip_route::RouteSet;
use eip_route_json::read_routes;
use eip_samples::{SamplePredicate, SampleProcessor, registry};
use eip_simple_read::CratePatterns;
use eip_test_support::item;
use eip_text::{NoMemory, Series, Text};
use std::alloc::Global;

/// What is handed in for a run.
#[derive(Drop)]
pub struct Handed {
    pub lanes: Vec<Lane<MemoryLane>>,
    pub inlets: Vec<Inlet<MemorySource>>,
    pub registry: Registry<SampleProcessor, SamplePredicate>,
}

/// Lanes of these names, which do all that is asked.
fn lanes_of(alloc: Global, names: &[&str]) -> Result<Vec<Lane<MemoryLane>>, NoMemory> {
    let mut lanes = Vec::new(alloc);
    for name in names {
        let name = Text::of_str(alloc, name)?;
        let object = MemoryLane::new(alloc, Vec::new(alloc));
        lanes.push(Lane { name, object })?;
    }
    Ok(lanes)
}

/// An inlet of this name, which gives the one line `a,b` to who reads `stream:in`.
fn inlet_of(alloc: Global, name: &str) -> Result<Inlet<MemorySource>, NoMemory> {
    let line = item(alloc, "1", "a,b")?;
    let lines = Series::of(vec![in alloc; line]?);
    let items = vec![in alloc; (Text::of_str(alloc, "stream:in")?, lines)]?;
    let name = Text::of_str(alloc, name)?;
    let object = MemorySource::new(alloc, items, Vec::new(alloc));
    Ok(Inlet { name, object })
}

/// Lanes and inlets of these names, and the shipped processors.
pub fn hand_in(alloc: Global, lanes: &[&str], inlets: &[&str]) -> Result<Handed, NoMemory> {
    let mut all = Vec::new(alloc);
    for name in inlets {
        all.push(inlet_of(alloc, name)?)?;
    }
    Ok(Handed {
        lanes: lanes_of(alloc, lanes)?,
        inlets: all,
        registry: registry(alloc)?,
    })
}

/// The routes of a file over what is handed in. `None` is for want of memory, or where they are refused.
fn set_of<L: Lanes, I: Inlets, R: Registered>(
    alloc: Global,
    routes: &str,
    lanes: &L,
    inlets: &I,
    registry: &R,
) -> Option<RouteSet>
    ensures { IfSome result (λ s. CanRun s (served.names_of (L.views lanes.now) (I.views inlets.now) (R.view registry.now))) }
{
    let Ok(names) = names_of(alloc, registry, lanes, inlets) else {
        return None;
    };
    let mut patterns = CratePatterns::new(Vec::new(alloc));
    match read_routes(alloc, routes.as_bytes(), &names, &mut patterns) {
        Ok(set) => Some(set),
        Err(_) => None,
    }
}

/// The run of these routes over what is handed in, by two workers and at most so many turns, that has no entry. `None` is for want of
/// memory, or where the routes are refused or too many.
pub fn run_of<L: Lanes, I: Inlets, R: Registered>(
    alloc: Global,
    routes: &str,
    lanes: &L,
    inlets: &I,
    registry: &R,
    turns: u32,
) -> Option<Hub>
    requires some { 1 ≤ turns }
    requires limit { turns ≤ 1000000 }
    ensures workers { IfSome result (λ h. h.journal.workers ≡ 2) }
    ensures pulls { IfSome result (λ h. OwnersPull (outlets h.set) 2 h.journal.past) }
    ensures can_run { IfSome result (λ h. CanDrain h (L.views lanes.now) (I.views inlets.now) (R.view registry.now)) }
{
    let set = set_of(alloc, routes, lanes, inlets, registry)?;
    if set.routes.items().len() > 256 {
        return None;
    }
    let Ok(hub) = Hub::new(alloc, set, 2, turns) else {
        return None;
    };
    Some(hub)
}
