ghost use Rattle.std.specs.Prelude.{◌≤◌};

use eip_hub::Hub;
use eip_route::{Handler, Names, RouteSet};
use eip_text::{NoMemory, Series};
use std::alloc::Global;

/// The hub of a run of no routes, of at most so many turns, that has no entry.
pub fn run_of_no_routes(alloc: Global, turns: u32) -> Result<Hub, NoMemory>
    requires some { 1 ≤ turns }
    requires limit { turns ≤ 1000000 }
{
    let set = RouteSet {
        names: Names::none(alloc),
        routes: Series::of(Vec::new(alloc)),
        blocks: Series::of(Vec::new(alloc)),
        handler: Handler::plain(),
        clauses: Series::of(Vec::new(alloc)),
    };
    Hub::new(alloc, set, 0, turns)
}
