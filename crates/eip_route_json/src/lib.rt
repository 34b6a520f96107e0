// Reads route files: the first fault of their bytes, or the set of routes that they say.
#![tactic(auto)]

mod read;
mod sets;

pub use eip_route_grammar::{Cause, RouteFault};
pub use read::{RouteRefusal, read_routes};
