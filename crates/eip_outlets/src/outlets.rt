ghost use Rattle.std.specs.Prelude.{◌≡◌, ◌<◌, IfSome, bytes_eq, length, option_map, slice_get, unwrap_or};
ghost use Rattle.eip_endpoint.specs.Lanes.{first_named};
ghost use Rattle.eip_endpoint.specs.Outside.{lane_of};
ghost use Rattle.eip_outlets.specs.Doors.{inlet_at};
ghost use Rattle.eip_outlets.specs.Outlets as spec;

use eip_frames::{Request, Target};
use eip_route::RouteSet;
use eip_text::Text;
use eip_text::cuts::behind;

/// Whether a lane of this name is the one that a target is sent on.
pub fn serves(name: &Text, target: &Target) -> bool
    ensures { result ≡ bytes_eq name.now (lane_of target.now) }
{
    match target {
        Target::File { .. } => name.as_str() == "file",
        Target::Line { .. } => name.as_str() == "line",
        Target::Lane(lane) => is_rest(behind(name.as_str(), "lane:"), lane.as_str()),
    }
}

/// Whether what stands behind the word is this name.
fn is_rest(rest: Option<&str>, name: &str) -> bool
    ensures { result ≡ spec.is_rest (option_map (λ r. r.now) rest.entry) name.now }
{
    match rest {
        Some(rest) => rest == name,
        None => false,
    }
}

/// The index of the first name of a lane that a target is sent on.
fn lane_among(names: &[Text], target: &Target) -> Option<usize>
    ensures { result ≡ first_named (lane_of target.now) names.now }
{
    for index in 0..names.len() {
        if serves(&names[index], target) {
            return Some(index);
        }
    }
    None
}

/// The index of the first of these names.
fn name_among(names: &[Text], wanted: &str) -> Option<usize>
    ensures { result ≡ first_named wanted.now names.now }
{
    for index in 0..names.len() {
        if names[index].as_str() == wanted {
            return Some(index);
        }
    }
    None
}

/// The index, from 0, of the first lane of the set that a target is sent on; 0 where there is none.
fn target_lane(set: &RouteSet, target: &Target) -> usize
    ensures { result ≡ (spec.outlets set.now).lane target.now }
{
    match lane_among(set.names.lanes.items(), target) {
        Some(index) => index,
        None => 0,
    }
}

/// The index, from 0, of the first inlet of the set that reads the source of a route; 0 where there is none.
pub fn source_inlet(set: &RouteSet, route: u32) -> usize
    ensures { result ≡ (spec.outlets set.now).inlet route }
{
    let Some(route) = set.routes.items().get(route as usize) else {
        return 0;
    };
    let Some(wanted) = route.from.inlet() else {
        return 0;
    };
    match name_among(set.names.inlets.items(), wanted) {
        Some(index) => index,
        None => 0,
    }
}

/// The lane that a request is sent on, or the inlet that is told of an end by it, by their indices from 0; none for other requests. `route`
/// is that of the source that the exchange came from, if it came from one.
pub fn outlet_of(set: &RouteSet, route: Option<u32>, request: &Request) -> Option<usize>
    ensures { result ≡ spec.outlet_from (spec.outlets set.now) route request.now }
{
    match (request, route) {
        (Request::Send { target, .. }, _) => Some(target_lane(set, target)),
        (Request::Finish { commit: true, .. }, Some(route)) => Some(source_inlet(set, route)),
        _ => None,
    }
}

/// Whether a lane or inlet belongs to a worker: of so many workers, numbered from 1, the one with the number of its index modulo the
/// workers, plus 1. What is no lane and no inlet belongs to everybody.
pub fn is_owner(workers: u32, worker: u32, outlet: Option<usize>) -> bool
    requires { 0 < workers }
    ensures { result ≡ spec.is_owner workers worker outlet }
{
    match outlet {
        Some(index) => worker as usize == index % workers as usize + 1,
        None => true,
    }
}
