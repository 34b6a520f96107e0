ghost use Rattle.std.specs.Prelude.{◌≡◌};
ghost use Rattle.eip_route.specs.Plain as spec;

use crate::route::{Handler, Names};
use eip_exchange::Policy;
use eip_text::Series;
use std::alloc::Global;

impl Names {
    /// No names, without memory.
    pub fn none(alloc: Global) -> Names
        ensures { result ≡ spec.no_names }
    {
        Names {
            lanes: Series::of(Vec::new(alloc)),
            inlets: Series::of(Vec::new(alloc)),
            processors: Series::of(Vec::new(alloc)),
            predicates: Series::of(Vec::new(alloc)),
        }
    }
}

impl Handler {
    /// The default error handler (Camel manual, *DefaultErrorHandler*) without attributes: nothing is tried again, and a
    /// fault ends its exchange as failed. It takes no memory.
    pub fn plain() -> Handler
        ensures { result ≡ spec.plain_handler }
    {
        Handler {
            dead: None,
            policy: Policy {
                maximum: None,
                delay: None,
                multiplier: None,
                backing_off: None,
                greatest: None,
            },
        }
    }
}
