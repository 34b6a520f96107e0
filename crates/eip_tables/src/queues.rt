ghost use Rattle.std.specs.Prelude.{◌≡◌, [], IfOk, length};
ghost use Rattle.eip_seda.specs.Consuming as seda;
ghost use Rattle.eip_plan.specs.Plan.{queue_rule};
ghost use Rattle.eip_tables.specs.Queues.{limit_of, limits, MayLeave, Leaves};

use crate::row::Born;
use eip_route::{Route, RouteSet};
use eip_seda::Queues;
use eip_text::NoMemory;
use eip_uri::Uri;
use std::alloc::Global;

/// How many copies may wait in the queue of a route, and by how many they are consumed, one at least; of a route that reads from
/// no queue nobody asks.
fn limit_of(route: &Route) -> (u32, u32)
    ensures { result ≡ limit_of (queue_rule route.now.from) }
{
    match &route.from {
        Uri::Seda {
            size,
            consumers,
            ..
        } => (*size, (*consumers).max(1)),
        _ => (1000, 1),
    }
}

/// The limits of the queues of a set, by the index of the route.
fn limits_of(alloc: Global, set: &RouteSet) -> Result<Vec<(u32, u32)>, NoMemory>
    ensures { IfOk result (λ found. found.items ≡ limits set.now) }
{
    let mut found = Vec::new(alloc);
    for route in set.routes.items() {
        found.push(limit_of(route))?;
    }
    Ok(found)
}

/// The empty queues of a set.
pub fn empty_queues(alloc: Global, set: &RouteSet) -> Result<Queues, NoMemory>
    ensures { IfOk result (λ queues. seda.Stands (limits set.now) [] queues) }
{
    let found = limits_of(alloc, set)?;
    Queues::new(alloc, found)
}

/// A consumer of the queue through which an exchange came is free again.
pub fn leave(queues: &mut Queues, born: Born)
    requires { MayLeave born queues.old }
    ensures leaves { Leaves born queues.old queues.new }
    ensures as_many { length queues.new ≡ length queues.old }
{
    if let Born::Copy(queue) = born {
        queues.ended(queue);
    }
}
