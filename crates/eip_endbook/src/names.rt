ghost use Rattle.std.specs.Prelude.{◌≡◌};
ghost use Rattle.eip_endbook.specs.Names.{route_names, queue_of};

use eip_route::{Route, RouteSet};
use eip_uri::Uri;

/// The id of a route, by its index; empty beyond the routes.
#[tactic(auto, unfolding(crate::specs::Names::route_names))]
pub fn route_id(set: &RouteSet, route: u32) -> &str
    ensures { result.now ≡ (route_names set.now).route_id route }
{
    match set.routes.items().get(route as usize) {
        Some(route) => route.id.as_str(),
        None => "",
    }
}

/// The name of the queue that a route takes its messages from; empty where it has no queue.
fn queue_of(route: &Route) -> &str
    ensures { result.now ≡ queue_of route.now.from }
{
    match &route.from {
        Uri::Seda { name, .. } => name.as_str(),
        _ => "",
    }
}

/// The name of the queue of a route, by the route's index; empty beyond the routes and where a route has no queue.
#[tactic(auto, unfolding(crate::specs::Names::route_names))]
pub fn queue_name(set: &RouteSet, route: u32) -> &str
    ensures { result.now ≡ (route_names set.now).queue_name route }
{
    match set.routes.items().get(route as usize) {
        Some(route) => queue_of(route),
        None => "",
    }
}
