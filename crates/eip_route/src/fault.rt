ghost use Rattle.std.specs.Prelude.{◌≡◌, ◌≤◌, ◌<◌, None, Some, [], length, IfOk, IfErr, IfSome};
ghost use Rattle.eip_route.specs.Faults as spec;

use crate::nesting::{bad_block, too_nested};
use crate::route::{Route, RouteSet};
use eip_exchange::Clause;
use eip_uri::Uri;
use thiserror::Error;

/// How many routes a set may have.
pub const ROUTES: usize = 256;

/// What is wrong with a set of routes.
#[derive(Clone, Copy, Debug, PartialEq, Eq, Error)]
pub enum SetFault {
    /// There are more than 256 routes.
    #[error("TooManyRoutes")]
    TooManyRoutes,
    /// There is no block of this number, or a step of a block that doesn't come before it names it.
    #[error("BadBlock {0}")]
    BadBlock(u32),
    /// This block would be nested more than 16 deep, the route's own block included.
    #[error("TooNested {0}")]
    TooNested(u32),
    /// The route of this index, from 0, begins where an earlier route does.
    #[error("SecondConsumer {0}")]
    SecondConsumer(u32),
    /// The route of this index, from 0, has the id of an earlier route.
    #[error("DoubleRouteId {0}")]
    DoubleRouteId(u32),
    /// The clause of this index, from 0, is both handled and continued. All indices behind 4,294,967,294 are given as
    /// 4,294,967,295.
    #[error("BothHandledAndContinued {0}")]
    BothHandledAndContinued(u32),
}

impl RouteSet {
    /// Whether the set can be run: the first fault, in the order of `SetFault`. Block numbers are looked at in the
    /// clauses, then in the routes, then in the steps of the blocks; nesting from the clauses' and then the routes' blocks
    /// inwards, where a block that stands in several places is walked once for each. It takes no memory.
    #[tactic(auto, unfolding(crate::specs::Faults::set_fault))]
    pub fn check(&self) -> Result<(), SetFault>
        ensures ok { IfOk result (λ _. spec.set_fault self.now ≡ None) }
        ensures fault { IfErr result (λ f. spec.set_fault self.now ≡ Some f) }
    {
        let routes = self.routes.items();
        if routes.len() > ROUTES {
            return Err(SetFault::TooManyRoutes);
        }
        if let Some(block) = bad_block(self) {
            return Err(SetFault::BadBlock(block));
        }
        if let Some(block) = too_nested(self) {
            return Err(SetFault::TooNested(block));
        }
        if let Some(route) = second_consumer(routes) {
            return Err(SetFault::SecondConsumer(route));
        }
        if let Some(route) = double_id(routes) {
            return Err(SetFault::DoubleRouteId(route));
        }
        match handled_and_continued(self.clauses.items()) {
            Some(clause) => Err(SetFault::BothHandledAndContinued(clause)),
            None => Ok(()),
        }
    }
}

/// Whether both are one consumer.
pub fn is_same_consumer(one: &Uri, other: &Uri) -> bool
    ensures { result ≡ spec.same_consumer one.now other.now }
{
    match (one, other) {
        (Uri::Direct(one), Uri::Direct(other)) => one.as_str() == other.as_str(),
        (Uri::Seda { name: one, .. }, Uri::Seda { name: other, .. }) => one.as_str()
            == other.as_str(),
        (Uri::File { folder: one, .. }, Uri::File { folder: other, .. }) => one.as_str()
            == other.as_str(),
        (Uri::StreamIn, Uri::StreamIn) => true,
        (Uri::Listen(one), Uri::Listen(other)) => one == other,
        (Uri::Load(_), Uri::Load(_)) => true,
        _ => false,
    }
}

/// Whether one of these routes has the consumer.
fn is_consumed(from: &Uri, routes: &[Route]) -> bool
    ensures { result ≡ spec.is_consumed from.now routes.now }
{
    for route in routes {
        if is_same_consumer(&route.from, from) {
            return true;
        }
    }
    false
}

/// Whether one of these routes has the id.
fn is_id(id: &str, routes: &[Route]) -> bool
    ensures { result ≡ spec.is_id id.now routes.now }
{
    for route in routes {
        if route.id.as_str() == id {
            return true;
        }
    }
    false
}

fn second_consumer(routes: &[Route]) -> Option<u32>
    requires { length routes.now ≤ 256 }
    ensures { result ≡ spec.second_consumer [] 0 routes.now }
{
    for k in 0..routes.len() {
        if is_consumed(&routes[k].from, &routes[..k]) {
            return Some(k as u32);
        }
    }
    None
}

fn double_id(routes: &[Route]) -> Option<u32>
    requires { length routes.now ≤ 256 }
    ensures { result ≡ spec.double_id [] 0 routes.now }
{
    for k in 0..routes.len() {
        if is_id(routes[k].id.as_str(), &routes[..k]) {
            return Some(k as u32);
        }
    }
    None
}

fn handled_and_continued(clauses: &[Clause]) -> Option<u32>
    ensures { result ≡ spec.both 0 clauses.now }
{
    let mut index: u32 = 0;
    for clause in clauses {
        if clause.handled && clause.continued {
            return Some(index);
        }
        index = index.saturating_add(1);
    }
    None
}
