ghost use Rattle.std.specs.Prelude.{false, ◌≡◌, IfOk, [], ◌∷◌, codes};
ghost use Rattle.eip_core.specs.Doors.{CanRun};
ghost use Rattle.eip_endpoint.specs.Inlets.{inlet_names, inlet_views};
ghost use Rattle.eip_route.specs.Plain.{plain_handler};
ghost use Rattle.eip_engine_tests.specs.Rows.{logging, logging_block, circling, copying_block, stream_names};
ghost use Rattle.eip_uri.specs.declared.uri.Uri.TheVariants as uri;

use eip_core::drain_alone;
use eip_endpoint::{Inlet, Lane, MemoryLane, MemorySource, Source};
use eip_exchange::End;
use eip_hub::Hub;
use eip_ledger::{Place, Stop};
use eip_processor::{Processor, Registry, StoredPredicate};
use eip_route::{Block, Handler, Names, Route, RouteSet, Step};
use eip_test_support::{item, two_of_stream};
use eip_text::{NoMemory, Series, Text};
use eip_uri::Uri;
use std::alloc::Global;
use std::test::Fail;

/// The names of standard input alone.
fn stream_names(alloc: Global) -> Result<Names, NoMemory>
    ensures { IfOk result (λ n. n ≡ stream_names) }
{
    let stream = Text::of_str(alloc, "stream")?;
    let names = Names::none(alloc);
    Ok(Names {
        inlets: Series::of(vec![in alloc; stream]?),
        ..names
    })
}

/// A route of this name.
fn route_of(alloc: Global, id: &str, from: Uri, block: u32) -> Result<Route, NoMemory>
    ensures { IfOk result (λ r. r ≡ record { id = id.now; from = from; block = block }) }
{
    match Text::of_str(alloc, id) {
        Ok(id) => Ok(Route { id, from, block }),
        Err(refused) => {
            drop(from);
            Err(refused)
        }
    }
}

/// The set of these routes and blocks, where nothing handles a fault.
fn set_of(alloc: Global, names: Names, routes: Vec<Route>, blocks: Vec<Block>) -> RouteSet
    ensures { result ≡ record { names = names; routes = routes.items; blocks = blocks.items; handler = plain_handler; clauses = [] } }
{
    RouteSet {
        names,
        routes: Series::of(routes),
        blocks: Series::of(blocks),
        handler: Handler::plain(),
        clauses: Series::of(Vec::new(alloc)),
    }
}

/// A block of this one step.
fn block_of(alloc: Global, step: Step) -> Result<Block, NoMemory>
    ensures { IfOk result (λ b. b ≡ record { steps = step ∷ [] }) }
{
    let steps = Series::of(vec![in alloc; step]?);
    Ok(Block { steps })
}

/// A block whose one step is a log.
fn logging_block(alloc: Global) -> Result<Block, NoMemory>
    ensures { IfOk result (λ b. b ≡ logging_block) }
{
    let name = Text::of_str(alloc, "out")?;
    block_of(alloc, Step::To(Uri::Log(name)))
}

/// One route from `stream:in`, whose one step is a log.
fn logging(alloc: Global) -> Result<RouteSet, NoMemory>
    ensures { IfOk result (λ s. s ≡ logging) }
{
    let names = stream_names(alloc)?;
    let blocks = vec![in alloc; logging_block(alloc)?]?;
    let routes = vec![in alloc; route_of(alloc, "route1", Uri::StreamIn, 0)?]?;
    Ok(set_of(alloc, names, routes, blocks))
}

/// The queue `l`.
fn queue(alloc: Global) -> Result<Uri, NoMemory>
    ensures { IfOk result (λ u. u ≡ uri.Seda (codes "l") 1000 1 false) }
{
    Ok(Uri::Seda {
        name: Text::of_str(alloc, "l")?,
        size: 1000,
        consumers: 1,
        discard: false,
    })
}

/// A block whose one step puts a copy into the queue `l`.
fn copying_block(alloc: Global) -> Result<Block, NoMemory>
    ensures { IfOk result (λ b. b ≡ copying_block) }
{
    let queue = queue(alloc)?;
    block_of(alloc, Step::To(queue))
}

/// A route from `stream:in` and one from the queue `l`.
fn circling_routes(alloc: Global) -> Result<Vec<Route>, NoMemory>
    ensures { IfOk result (λ v. v.items ≡ circling.routes) }
{
    let first = route_of(alloc, "route1", Uri::StreamIn, 0)?;
    let second = route_of(alloc, "route2", queue(alloc)?, 1)?;
    Ok(vec![in alloc; first, second]?)
}

/// A route from `stream:in` and one from the queue `l`, each of which puts a copy into that queue.
fn circling(alloc: Global) -> Result<RouteSet, NoMemory>
    ensures { IfOk result (λ s. s ≡ circling) }
{
    let names = stream_names(alloc)?;
    let routes = circling_routes(alloc)?;
    let blocks = vec![in alloc; copying_block(alloc)?, copying_block(alloc)?]?;
    Ok(set_of(alloc, names, routes, blocks))
}

/// A source of the lines `a` and `b`, as the inlet of standard input.
fn one_inlet(alloc: Global) -> Result<Vec<Inlet<MemorySource>>, NoMemory>
    ensures { IfOk result (λ v. inlet_names (inlet_views ⟦<MemorySource as Source>⟧ v.items) ≡ codes "stream" ∷ []) }
{
    let lines = two_of_stream(alloc, item(alloc, "1", "a")?, item(alloc, "2", "b")?)?;
    let object = MemorySource::new(alloc, lines, Vec::new(alloc));
    let name = Text::of_str(alloc, "stream")?;
    Ok(vec![in alloc; Inlet { name, object }]?)
}

fn is_completed(place: Option<Place>) -> bool {
    let is_completed = matches!(&place, Some(Place::Ended(End::Completed)));
    drop(place);
    is_completed
}

fn is_ready(place: Option<Place>) -> bool {
    let is_ready = matches!(&place, Some(Place::Ready));
    drop(place);
    is_ready
}

fn is_queued(place: Option<Place>) -> bool {
    let is_queued = matches!(&place, Some(Place::Queue(1)));
    drop(place);
    is_queued
}

/// There is no such exchange.
fn is_unborn(place: Option<Place>) -> bool {
    let is_unborn = place.is_none();
    drop(place);
    is_unborn
}

/// The stop of a drain where these inlets, no lane and no processor are handed in.
fn stop_of(alloc: Global, hub: &mut Hub, inlets: &mut Vec<Inlet<MemorySource>>) -> Stop
    requires can_run { CanRun hub.old.set stream_names }
    requires past { hub.old.journal.past ≡ [] }
    requires inlets { inlet_names (inlet_views ⟦<MemorySource as Source>⟧ inlets.old.items) ≡ codes "stream" ∷ [] }
{
    let mut lanes: Vec<Lane<MemoryLane>> = Vec::new(alloc);
    let registry: Registry<Box<dyn Processor>, StoredPredicate> = Registry::new(alloc);
    drain_alone(hub, &mut lanes, inlets, &registry)
}

/// The stop of a drain of the two lines.
fn drained(alloc: Global, hub: &mut Hub) -> Result<Stop, NoMemory>
    requires can_run { CanRun hub.old.set stream_names }
    requires past { hub.old.journal.past ≡ [] }
{
    let mut inlets = one_inlet(alloc)?;
    let stop = stop_of(alloc, hub, &mut inlets);
    drop(inlets);
    Ok(stop)
}

/// Whether exchange 1 is completed and exchange 2 is ready.
fn is_second_ready(hub: &Hub) -> Result<bool, NoMemory> {
    Ok(is_completed(hub.place(1)?) && is_ready(hub.place(2)?))
}

/// What a drain of at most four turns stops for, and whether exchange 1 is completed then and exchange 2 is ready.
fn left_in_four_turns(alloc: Global) -> Result<(Stop, bool), NoMemory> {
    let mut hub = Hub::new(alloc, logging(alloc)?, 0, 4)?;
    let stop = drained(alloc, &mut hub);
    let is_second_ready = is_second_ready(&hub);
    drop(hub);
    Ok((stop?, is_second_ready?))
}

/// Whether exchange 25 is ready, exchange 26 waits in the queue of the second route, and there is no exchange 27.
fn is_last_queued(hub: &Hub) -> Result<bool, NoMemory> {
    let is_ready = is_ready(hub.place(25)?);
    let is_queued = is_queued(hub.place(26)?);
    let is_unborn = is_unborn(hub.place(27)?);
    Ok(is_ready && is_queued && is_unborn)
}

/// What a drain of at most fifty turns stops for, and whether the last copy waits in its queue then.
fn left_in_fifty_turns(alloc: Global) -> Result<(Stop, bool), NoMemory> {
    let mut hub = Hub::new(alloc, circling(alloc)?, 0, 50)?;
    let stop = drained(alloc, &mut hub);
    let is_last_queued = is_last_queued(&hub);
    drop(hub);
    Ok((stop?, is_last_queued?))
}

#[test]
fn a_drain_of_queues_that_spends_its_turns_leaves_who_waits(rt: HostRuntime) -> Result<(), Fail> {
    let left = left_in_fifty_turns(rt.alloc())?;
    assert!(rt; left == (Stop::Spent, true));
    Ok(())
}

#[test]
fn a_drain_that_spends_its_turns_leaves_who_is_ready(rt: HostRuntime) -> Result<(), Fail> {
    let left = left_in_four_turns(rt.alloc())?;
    assert!(rt; left == (Stop::Spent, true));
    Ok(())
}
