ghost use Rattle.std.specs.Prelude.{◌≡◌, ◌<◌, IfOk, IfSome, IsSome, Some, length, slice_get, true};
ghost use Rattle.eip_uri.specs.Printed.{printed};
ghost use Rattle.eip_exchange.specs.declared.message.Message.{Message as AMessage};
ghost use Rattle.eip_frames.specs.Fits.{fits};
ghost use Rattle.eip_route.specs.Goals.{is_among};
ghost use Rattle.eip_frames.specs.declared.request.Request.TheVariants.{Send, Process, Finish};
ghost use Rattle.eip_endpoint.specs.Pulls.{IsFair};
ghost use Rattle.eip_endpoint.specs.Lanes.{LanesGrew, first_named, lane_names};
ghost use Rattle.eip_endpoint.specs.Inlets.{InletsGrew, acts_of_pull, inlet_names};
ghost use Rattle.eip_endpoint.specs.Outside.{calls_by, lane_of};
ghost use Rattle.eip_tables.specs.Origin.{origin_seen};
ghost use Rattle.eip_core.specs.Doors.{HasInlet, inlet_at, uri_at};
ghost use Rattle.eip_core.specs.Served.{names_of};
ghost use Rattle.eip_core.specs.Outside.{Asks, HasSource, IsAskable, IsTheirs, acts_from, refusal_of, sent_by, source_told};

use eip_endpoint::{CommitFault, Inlets, Lanes, PullFault, Pulled, Refusal, SendFault, find_inlet};
use eip_exchange::{End, Message};
use eip_frames::{Answer, Request, Target};
use eip_hub::OriginView;
use eip_ledger::Refused;
use eip_outlets::serves;
use eip_processor::{ProcessFault, Registered};
use eip_route::RouteSet;
use eip_text::{Boxed, NoMemory, Text};
use eip_uri::Uri;

/// The index of the inlet that the source of a route is read by, and the URI that it reads.
fn door<'a, I: Inlets>(set: &'a RouteSet, inlets: &I, source: u32) -> (usize, &'a Uri)
    requires { HasInlet set.now (inlet_names (I.views inlets.now)) source }
    ensures inlet { inlet_at (inlet_names (I.views inlets.now)) (slice_get set.now.routes source) ≡ Some result.0 }
    ensures within { result.0 < length (I.views inlets.now) }
    ensures uri { uri_at (slice_get set.now.routes source) ≡ printed result.1.now }
{
    let Some(route) = set.routes.items().get(source as usize) else {
        unreachable!()
    };
    let Some(name) = route.from.inlet() else {
        unreachable!()
    };
    let Some(index) = find_inlet(inlets, name.as_bytes()) else {
        unreachable!()
    };
    (index, &route.from)
}

/// Pulls from the inlet of a route's source.
pub fn pull_source<I: Inlets>(
    set: &RouteSet,
    inlets: &mut I,
    source: u32,
) -> Result<Pulled, PullFault>
    requires { HasInlet set.now (inlet_names (I.views inlets.old)) source }
    ensures grew { InletsGrew 0 (acts_from set.now (inlet_names (I.views inlets.old)) source (acts_of_pull result))
        (I.views inlets.old) (I.views inlets.new) }
    ensures fair { IfOk result IsFair }
{
    let (index, from) = door(set, inlets, source);
    inlets.pull_at(index, from)
}

/// Tells the source that an exchange came from how it ended.
fn tell<I: Inlets>(
    set: &RouteSet,
    inlets: &mut I,
    origin: OriginView<'_>,
    end: &End,
) -> Result<Answer, NoMemory>
    requires { HasSource set.now (inlet_names (I.views inlets.old)) (origin_seen origin) }
    ensures grew { InletsGrew 0 (source_told set.now (inlet_names (I.views inlets.old)) (origin_seen origin.entry) end.now result)
        (I.views inlets.old) (I.views inlets.new) }
    ensures fitting { (m : AMessage) → IfOk result (λ a. fits (Finish end.now m true) a ≡ true) }
{
    let OriginView::Source { route, item } = origin else {
        unreachable!()
    };
    let (index, from) = door(set, inlets, route);
    match inlets.commit_at(index, from, item, end) {
        Ok(()) => Ok(Answer::Finished),
        Err(CommitFault::Failed) => Ok(Answer::CommitFailed),
        Err(CommitFault::NoMemory) => Err(NoMemory),
    }
}

/// The index of the first lane that a target is sent on.
fn find_lane_of<L: Lanes>(lanes: &L, target: &Target) -> Option<usize>
    ensures first { result ≡ first_named (lane_of target.now) (lane_names (L.views lanes.now)) }
    ensures within { IfSome result (λ k. k < length (L.views lanes.now)) }
{
    for index in 0..lanes.count() {
        if serves(lanes.name_at(index), target) {
            return Some(index);
        }
    }
    None
}

/// Sends a message on the first lane of the target's name.
fn send<L: Lanes>(lanes: &mut L, target: &Target, message: &Message) -> Result<Answer, NoMemory>
    requires { IsSome (first_named (lane_of target.now) (lane_names (L.views lanes.old))) }
    ensures grew { LanesGrew 0 (calls_by (first_named (lane_of target.now) (lane_names (L.views lanes.old))) (sent_by target.now message.now result))
        (L.views lanes.old) (L.views lanes.new) }
    ensures fitting { IfOk result (λ a. fits (Send target.now message.now) a ≡ true) }
{
    let Some(index) = find_lane_of(lanes, target) else {
        unreachable!()
    };
    match lanes.send_at(index, target, message) {
        Ok(()) => Ok(Answer::Done),
        Err(SendFault::Failed) => Ok(Answer::SendFailed),
        Err(SendFault::Exists) => Ok(Answer::Exists),
        Err(SendFault::NoMemory) => Err(NoMemory),
    }
}

/// Has the processor of this name work on a message.
fn process<R: Registered>(registry: &R, name: &Text, message: &Message) -> Result<Answer, NoMemory>
    requires { is_among name.now (R.view registry.now).processors ≡ true }
    ensures fitting { IfOk result (λ a. fits (Process name.now message.now) a ≡ true) }
    ensures theirs { IfOk result (λ a. IsTheirs (R.view registry.now) (Process name.now message.now) a) }
{
    let alloc = message.alloc();
    match registry.process(name.bytes(), message) {
        Ok(made) => Ok(Answer::Became(Boxed::of(alloc, made)?)),
        Err(ProcessFault::Raised(fault)) => Ok(Answer::Raised(Boxed::of(alloc, fault)?)),
        Err(ProcessFault::NoMemory) => Err(NoMemory),
    }
}

/// Asks somebody outside for an exchange that came from there: the lane of a send, the processor or the predicate of a name, or the
/// source that is told of its end. On `NoMemory` no lane and no source did anything.
pub fn ask<L: Lanes, I: Inlets, R: Registered>(
    set: &RouteSet,
    lanes: &mut L,
    inlets: &mut I,
    registry: &R,
    origin: OriginView<'_>,
    request: &Request,
) -> Result<Answer, NoMemory>
    requires { IsAskable set.now (names_of (L.views lanes.old) (I.views inlets.old) (R.view registry.now)) (origin_seen origin) request.now }
    ensures { Asks set.now (origin_seen origin.entry) request.now result (L.views lanes.old) (L.views lanes.new) (I.views inlets.old) (I.views inlets.new)
        (R.view registry.now) }
{
    match request {
        Request::Send { target, message } => send(lanes, target, message),
        Request::Process { name, message } => process(registry, name, message),
        Request::Test { name, message } => Ok(Answer::Holds(registry.test(name.bytes(), message))),
        Request::Finish { end, .. } => tell(set, inlets, origin, end),
        _ => unreachable!(),
    }
}

/// The cause of a refusal in the words of the journal.
pub fn refused(cause: Refusal) -> Refused
    ensures { refusal_of result ≡ cause }
{
    match cause {
        Refusal::NotText => Refused::NotText,
        Refusal::TooLong => Refused::TooLong,
    }
}
