ghost use Rattle.std.specs.Prelude.{◌≡◌, ◌<◌};
ghost use Rattle.eip_meaning.specs.Contexts as spec;

use eip_exchange::{Birth, Care};
use eip_frames::At;

/// For whom and where steps run.
#[derive(Clone, Copy)]
pub struct Context {
    /// The exchange's number, from 1.
    pub number: u64,
    /// How many queues its lineage has passed.
    pub hops: u32,
    /// What is done about its faults.
    pub care: Care,
    /// The steps of a clause or the send to the dead letter endpoint run.
    pub handling: bool,
    /// The index of the route whose block runs.
    pub route: u32,
    /// How many direct calls are open.
    pub depth: u32,
}

impl Context {
    /// That of the steps which an exchange is born with.
    pub fn of(birth: &Birth) -> Context
        ensures { result ≡ spec.context_of birth.now }
    {
        Context {
            number: birth.number,
            hops: birth.hops,
            care: birth.care,
            handling: false,
            route: birth.route,
            depth: birth.depth,
        }
    }

    /// The place of a request; parts are asked for with the index of the first one, all else with 0.
    pub fn place(&self, index: u32) -> At
        ensures { result ≡ spec.place_in self.now index }
    {
        At {
            route: self.route,
            depth: self.depth,
            index,
        }
    }

    /// That of the steps of a route that is called directly from here.
    pub fn called(&self, route: u32) -> Context
        requires { self.now.depth < 32 }
        ensures { result ≡ spec.called self.now route }
    {
        Context {
            number: self.number,
            hops: self.hops,
            care: self.care,
            handling: self.handling,
            route,
            depth: self.depth + 1,
        }
    }

    /// That of what is done here about a fault.
    pub fn in_handler(&self) -> Context
        ensures { result ≡ spec.in_handler self.now }
    {
        Context {
            number: self.number,
            hops: self.hops,
            care: self.care,
            handling: true,
            route: self.route,
            depth: self.depth,
        }
    }

    /// Whether steps are tried again here.
    pub fn has_attempts(&self) -> bool
        ensures { result ≡ spec.has_attempts self.now }
    {
        !self.handling && self.care != Care::Bare
    }

    /// Whether a fault here has clauses and a dead letter endpoint.
    pub fn has_handlers(&self) -> bool
        ensures { result ≡ spec.has_handlers self.now }
    {
        !self.handling && self.care == Care::Full
    }

    /// The care of parts that are born here; `share` is the step's `shareUnitOfWork`.
    pub fn care_of_parts(&self, share: bool) -> Care
        ensures { result ≡ spec.care_of_parts self.now share }
    {
        if !self.has_attempts() {
            Care::Bare
        } else if share || self.care == Care::Shared {
            Care::Shared
        } else {
            Care::Full
        }
    }
}
