ghost use Rattle.std.specs.Prelude.{◌≡◌, IfSome, IfNone, [], true};
ghost use Rattle.eip_exchange.specs.declared.birth.Origin.{Origin};
ghost use Rattle.eip_frames.specs.Fits.{is_outside};
ghost use Rattle.eip_endpoint.specs.Inlets.{InletsGrew, inlet_names, inlet_views};
ghost use Rattle.eip_endpoint.specs.Lanes.{lane_views};
ghost use Rattle.eip_core.specs.Doors.{HasInlet};
ghost use Rattle.eip_core.specs.Outside.{IsAskable};
ghost use Rattle.eip_core.specs.Served.{names_of};
ghost use Rattle.eip_shared.specs.Looks.{told_by};
ghost use Rattle.eip_tables.specs.Origin.{origin_seen};
ghost use Rattle.eip_worker.specs.Calls.{Calls, Pulls, origin_told};

use crate::gate::Gate;
use eip_core::{OriginView, Ticket, ask, pull_source, refused};
use eip_endpoint::{Endpoint, Inlet, Lane, PullFault, Pulled, Source};
use eip_frames::Request;
use eip_processor::Registered;
use eip_route::RouteSet;
use eip_shared::Outcome;
use eip_text::{NoMemory, Text};

/// The source that is to be told of an end; where none is, an origin that nobody asks for.
fn origin_told(told: &Option<(u32, Text)>) -> OriginView<'_>
    ensures { origin_seen result ≡ origin_told told.now }
{
    match told {
        Some((route, item)) => OriginView::Source {
            route: *route,
            item,
        },
        None => OriginView::Group { group: 0 },
    }
}

/// Calls, outside the lock, what an exchange in hand asks for: one of the worker's own lanes or inlets, or the registry, which all workers
/// share. `told` has the route and the item of the source that is to be told of an end.
pub(crate) fn call<E: Endpoint, S: Source, R: Registered, G: Gate>(
    sources: &RouteSet,
    lanes: &mut Vec<Lane<E>>,
    inlets: &mut Vec<Inlet<S>>,
    registry: &R,
    gate: &G,
    ticket: Ticket,
    told: Option<(u32, Text)>,
) -> Outcome
    requires outside { is_outside ticket.request ≡ true }
    requires askable { (from : Origin) × (told ≡ told_by ticket.request from)
        × IsAskable sources.now (names_of (lane_views E.Endpoint lanes.old.items) (inlet_views S.Source inlets.old.items) (R.view registry.now)) from ticket.request }
    ensures { (from : Origin) → told ≡ told_by ticket.request from
        → IsAskable sources.now (names_of (lane_views E.Endpoint lanes.old.items) (inlet_views S.Source inlets.old.items) (R.view registry.now)) from ticket.request
        → Calls sources.now from ticket result (lane_views E.Endpoint lanes.old.items) (lane_views E.Endpoint lanes.new.items)
        (inlet_views S.Source inlets.old.items) (inlet_views S.Source inlets.new.items) (R.view registry.now) }
{
    if let Request::Process { .. } | Request::Test { .. } = &ticket.request {
        gate.before_process(ticket.worker, ticket.number);
    }
    let asked = ask(
        sources,
        lanes,
        inlets,
        registry,
        origin_told(&told),
        &ticket.request,
    );
    match asked {
        Ok(answer) => Outcome::Settled { ticket, answer },
        Err(NoMemory) => Outcome::GivenUp { ticket },
    }
}

/// Pulls a source outside the lock. `None` is for want of memory: the pull stays out, and the run ends.
pub(crate) fn pull<S: Source>(
    sources: &RouteSet,
    inlets: &mut Vec<Inlet<S>>,
    source: u32,
) -> Option<Outcome>
    requires { HasInlet sources.now (inlet_names (inlet_views S.Source inlets.old.items)) source }
    ensures came { IfSome result (λ o. Pulls sources.now source o (inlet_views S.Source inlets.old.items) (inlet_views S.Source inlets.new.items)) }
    ensures none { IfNone result (InletsGrew 0 [] (inlet_views S.Source inlets.old.items) (inlet_views S.Source inlets.new.items)) }
{
    match pull_source(sources, inlets, source) {
        Ok(Pulled::Item { item, message }) => Some(Outcome::Accepted {
            source,
            item,
            message,
        }),
        Ok(Pulled::Refused { item, cause }) => Some(Outcome::Refused {
            source,
            item,
            cause: refused(cause),
        }),
        Ok(Pulled::End) => Some(Outcome::Ended { source }),
        Err(PullFault::Failed) => Some(Outcome::Faulted { source }),
        Err(PullFault::NoMemory) => None,
    }
}
