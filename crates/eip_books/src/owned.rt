ghost use Rattle.std.specs.Prelude.{◌≡◌, ◌<◌, ◌↔◌, ℕ, All, IfSome, IfNone, IsTrue, Some, length, filter, option_map, true, false};
ghost use Rattle.eip_exchange.specs.declared.birth.Origin.{Origin};
ghost use Rattle.eip_history.specs.Births.{asked};
ghost use Rattle.eip_history.specs.Owner.{outlet_by, IsOwner};
ghost use Rattle.eip_history.specs.Rules.{first};
ghost use Rattle.eip_outlets.specs.Outlets.{outlets, route_from};
ghost use Rattle.eip_tables.specs.Origin.{origin_seen};
ghost use Rattle.eip_tables.specs.Outside.{is_among};
ghost use Rattle.eip_books.specs.View.{plan, IsLegalRun};
ghost use Rattle.eip_books.specs.Owned.{IsNumber, IsOwnedSource, is_takeable};

use crate::books::Books;
use eip_outlets::{is_owner, outlet_of, source_inlet};
use eip_tables::OriginView;

// What belongs to one of several workers: the requests on its lanes and inlets, those of nobody's, and the sources of its inlets.

/// The route whose source an exchange came from, if it came from one.
fn route_of(origin: Option<OriginView<'_>>) -> Option<u32>
    ensures { (o : Origin) → option_map origin_seen origin.entry ≡ Some o → result ≡ route_from o }
{
    match origin {
        Some(OriginView::Source { route, .. }) => Some(route),
        Some(OriginView::Queue { .. }) => None,
        Some(OriginView::Part { .. }) => None,
        Some(OriginView::Group { .. }) => None,
        None => None,
    }
}

impl Books {
    /// Whether an exchange is known as Outside.
    fn is_outside(&self, number: u64) -> bool
        requires { IsNumber self.now number }
        ensures { result ≡ is_among number self.now.outside }
    {
        self.rows.get(number).asks_outside()
    }

    /// The index of the lane or the inlet that an exchange known as Outside asks for; none where it asks a processor or a predicate.
    fn outlet(&self, number: u64) -> Option<usize>
        requires { is_among number self.now.outside ≡ true }
        ensures { result ≡ outlet_by (outlets self.now.set) (asked (plan self.now) self.now.journal.past number) }
    {
        let route = route_of(self.origin(number));
        let Some(request) = self.rows.get(number).request() else {
            unreachable!()
        };
        outlet_of(&self.set, route, request)
    }

    /// Whether an exchange is known as Outside, and this worker may take it.
    fn is_takeable(&self, worker: u32, number: u64) -> bool
        requires workers { 0 < self.now.journal.workers }
        requires number { IsNumber self.now number }
        ensures { result ≡ is_takeable self.now worker number }
    {
        self.is_outside(number) && is_owner(self.journal.workers(), worker, self.outlet(number))
    }

    /// The first of these numbers that is known as Outside and that this worker may take.
    fn first_takeable(&self, worker: u32, numbers: &[u64]) -> Option<u64>
        requires workers { 0 < self.now.journal.workers }
        requires numbers { All (IsNumber self.now) numbers.now }
        ensures { result ≡ first (filter (is_takeable self.now worker) numbers.now) }
    {
        for number in numbers {
            if self.is_takeable(worker, *number) {
                return Some(*number);
            }
        }
        None
    }

    /// The least number that is known as Outside and asks a lane or an inlet of this worker, a processor or a predicate.
    pub fn owned_outside(&self, worker: u32) -> Option<u64>
        requires { 0 < self.now.journal.workers }
        ensures known { IfSome result (λ x. is_among x self.now.outside ≡ true) }
        ensures owner { IfSome result (λ x. IsOwner self.now.journal.workers worker (outlet_by (outlets self.now.set) (asked (plan self.now) self.now.journal.past x))) }
        ensures least { IfSome result (λ x. (y : ℕ) → y < x → is_takeable self.now worker y ≡ false) }
        ensures none { IfNone result ((y : ℕ) → is_takeable self.now worker y ≡ false) }
        ensures legal { IsLegalRun self.now }
    {
        let (front, rest) = self.ready.runs();
        match self.first_takeable(worker, front) {
            Some(number) => Some(number),
            None => self.first_takeable(worker, rest),
        }
    }

    /// Whether the source of a route may be pulled, but for the limit, and its inlet belongs to this worker.
    fn is_owned_source(&self, worker: u32, route: u32) -> bool
        requires workers { 0 < self.now.journal.workers }
        requires route { route < length self.now.set.routes }
        ensures { IsTrue result ↔ IsOwnedSource self.now worker route }
    {
        if !self.sources.is_idle(route) {
            return false;
        }
        is_owner(
            self.journal.workers(),
            worker,
            Some(source_inlet(&self.set, route)),
        )
    }

    /// The first route whose source may be pulled, but for the limit, and whose inlet belongs to this worker.
    pub fn owned_source(&self, worker: u32) -> Option<u32>
        requires { 0 < self.now.journal.workers }
        ensures some { IfSome result (λ t. IsOwnedSource self.now worker t) }
        ensures least { IfSome result (λ t. (r : ℕ) → r < t → IsOwnedSource self.now worker r → ⊥) }
        ensures none { IfNone result ((r : ℕ) → IsOwnedSource self.now worker r → ⊥) }
        ensures legal { IsLegalRun self.now }
    {
        for route in 0..self.set.routes.items().len() as u32 {
            if self.is_owned_source(worker, route) {
                return Some(route);
            }
        }
        None
    }
}
