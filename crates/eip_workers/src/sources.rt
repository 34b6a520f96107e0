ghost use Rattle.std.specs.Prelude.{◌≡◌, All, vec_len, IfOk};

use eip_exchange::Policy;
use eip_route::{Handler, Names, Route, RouteSet};
use eip_text::{NoMemory, Series};
use std::alloc::Global;

/// What of a set is read outside the lock: its routes, by whose URIs sources are pulled and told of ends. It has no steps.
fn sources_of(alloc: Global, set: &RouteSet) -> Result<RouteSet, NoMemory>
    ensures { IfOk result (λ s. s.routes ≡ set.now.routes) }
{
    let mut routes = Vec::with_capacity(alloc, set.routes.items().len())?;
    for route in set.routes.items() {
        routes.push(Route {
            id: route.id.copy()?,
            from: route.from.copy(alloc)?,
            block: route.block,
        })?;
    }
    Ok(RouteSet {
        names: Names {
            lanes: Series::of(Vec::new(alloc)),
            inlets: Series::of(Vec::new(alloc)),
            processors: Series::of(Vec::new(alloc)),
            predicates: Series::of(Vec::new(alloc)),
        },
        routes: Series::of(routes),
        blocks: Series::of(Vec::new(alloc)),
        handler: Handler {
            dead: None,
            policy: Policy {
                maximum: None,
                delay: None,
                multiplier: None,
                backing_off: None,
                greatest: None,
            },
        },
        clauses: Series::of(Vec::new(alloc)),
    })
}

/// The same for each of so many workers.
pub(crate) fn sources_of_all(
    alloc: Global,
    set: &RouteSet,
    workers: u32,
) -> Result<Vec<RouteSet>, NoMemory>
    ensures count { IfOk result (λ v. vec_len v ≡ workers) }
    ensures routes { IfOk result (λ v. All (λ s. s.routes ≡ set.now.routes) v.items) }
{
    let mut all = Vec::new(alloc);
    for _ in 0..workers {
        all.push(sources_of(alloc, set)?)?;
    }
    Ok(all)
}
