ghost use Rattle.std.specs.Prelude.{◌≡◌, ◌≤◌, ◌<◌, ℕ, List, length, vec_len, vec_capacity, slice_index_or, IfOk};
ghost use Rattle.eip_shares.specs.Shares.{share};
ghost use Rattle.eip_crew.specs.Team.{items_at};

use crate::dealing::{deal_to, gather_from};
use eip_endpoint::{Endpoint, Inlet, Lane, Source};
use eip_route::RouteSet;
use eip_shares::with_room;
use eip_text::NoMemory;
use eip_worker::Worker;
use std::alloc::Global;

/// A crew at rest: for each of its workers the routes of the sources, a list of lanes and a list of inlets, and room for the workers.
pub struct Crew<E, S> {
    pub workers: Vec<Worker<E, S>>,
    pub sources: Vec<RouteSet>,
    pub lanes: Vec<Vec<Lane<E>>>,
    pub inlets: Vec<Vec<Inlet<S>>>,
}

impl<E: Endpoint, S: Source> Crew<E, S> {
    /// A crew of a worker for each of these sets, with room for so many lanes and inlets, and none of them so far.
    pub fn new(
        alloc: Global,
        sources: Vec<RouteSet>,
        lanes: usize,
        inlets: usize,
    ) -> Result<Crew<E, S>, NoMemory>
        ensures sources { IfOk result (λ c. c.sources ≡ sources) }
        ensures count { IfOk result (λ c. (vec_len c.lanes ≡ vec_len sources) × (vec_len c.inlets ≡ vec_len sources)) }
        ensures workers { IfOk result (λ c. (vec_len c.workers ≡ 0) × (vec_len sources ≤ vec_capacity c.workers)) }
        ensures lanes { IfOk result (λ c. (k : ℕ) (d : _) → k < vec_len sources
            → (vec_len (slice_index_or c.lanes.items k d) ≡ 0) × (lanes ≤ vec_capacity (slice_index_or c.lanes.items k d))) }
        ensures inlets { IfOk result (λ c. (k : ℕ) (d : _) → k < vec_len sources
            → (vec_len (slice_index_or c.inlets.items k d) ≡ 0) × (inlets ≤ vec_capacity (slice_index_or c.inlets.items k d))) }
    {
        let count = sources.len();
        let lanes = with_room(alloc, count, lanes)?;
        let inlets = with_room(alloc, count, inlets)?;
        let mut workers = Vec::new(alloc);
        if workers.reserve(count).is_err() {
            workers.destroy_empty();
            return Err(NoMemory);
        }
        Ok(Crew {
            workers,
            sources,
            lanes,
            inlets,
        })
    }

    /// Deals lanes and inlets out in turn to the workers' lists, which are empty and have room for all of them. It takes no memory.
    pub fn deal(&mut self, lanes: &mut Vec<Lane<E>>, inlets: &mut Vec<Inlet<S>>)
        requires some { (0 < vec_len self.old.lanes) × (vec_len self.old.inlets ≡ vec_len self.old.lanes) }
        requires lanes { (k : ℕ) (d : _) → k < vec_len self.old.lanes
            → (vec_len (slice_index_or self.old.lanes.items k d) ≡ 0) × (vec_len lanes.old ≤ vec_capacity (slice_index_or self.old.lanes.items k d)) }
        requires inlets { (k : ℕ) (d : _) → k < vec_len self.old.lanes
            → (vec_len (slice_index_or self.old.inlets.items k d) ≡ 0) × (vec_len inlets.old ≤ vec_capacity (slice_index_or self.old.inlets.items k d)) }
        ensures lanes { (k : ℕ) → k < vec_len self.old.lanes → items_at self.new.lanes.items k ≡ share (vec_len self.old.lanes) k 0 lanes.old.items }
        ensures inlets { (k : ℕ) → k < vec_len self.old.lanes → items_at self.new.inlets.items k ≡ share (vec_len self.old.lanes) k 0 inlets.old.items }
        ensures count { (vec_len self.new.lanes ≡ vec_len self.old.lanes) × (vec_len self.new.inlets ≡ vec_len self.old.lanes) }
        ensures workers { self.new.workers ≡ self.old.workers }
        ensures sources { self.new.sources ≡ self.old.sources }
        ensures taken { (vec_len lanes.new ≡ 0) × (vec_len inlets.new ≡ 0) }
        ensures room { (vec_capacity lanes.new ≡ vec_capacity lanes.old) × (vec_capacity inlets.new ≡ vec_capacity inlets.old) }
    {
        deal_to(lanes, &mut self.lanes);
        deal_to(inlets, &mut self.inlets);
    }

    /// Gathers lanes and inlets from the workers' lists, which are the shares of so many lanes and inlets, in their order. It takes no
    /// memory.
    pub fn gather(
        &mut self,
        lanes: &mut Vec<Lane<E>>,
        inlets: &mut Vec<Inlet<S>>,
        counts: (usize, usize),
    )
        requires some { (0 < vec_len self.old.lanes) × (vec_len self.old.inlets ≡ vec_len self.old.lanes) }
        requires empty { (vec_len lanes.old ≡ 0) × (vec_len inlets.old ≡ 0) }
        requires room { (counts.0 ≤ vec_capacity lanes.old) × (counts.1 ≤ vec_capacity inlets.old) }
        requires lanes { (xs : List _) × (length xs ≡ counts.0)
            × ((k : ℕ) → k < vec_len self.old.lanes → items_at self.old.lanes.items k ≡ share (vec_len self.old.lanes) k 0 xs) }
        requires inlets { (xs : List _) × (length xs ≡ counts.1)
            × ((k : ℕ) → k < vec_len self.old.lanes → items_at self.old.inlets.items k ≡ share (vec_len self.old.lanes) k 0 xs) }
        ensures lanes { (xs : List _) → length xs ≡ counts.0
            → ((k : ℕ) → k < vec_len self.old.lanes → items_at self.old.lanes.items k ≡ share (vec_len self.old.lanes) k 0 xs) → lanes.new.items ≡ xs }
        ensures inlets { (xs : List _) → length xs ≡ counts.1
            → ((k : ℕ) → k < vec_len self.old.lanes → items_at self.old.inlets.items k ≡ share (vec_len self.old.lanes) k 0 xs) → inlets.new.items ≡ xs }
        ensures room { (vec_capacity lanes.new ≡ vec_capacity lanes.old) × (vec_capacity inlets.new ≡ vec_capacity inlets.old) }
        ensures workers { self.new.workers ≡ self.old.workers }
    {
        gather_from(lanes, &mut self.lanes, counts.0);
        gather_from(inlets, &mut self.inlets, counts.1);
    }

    /// Ends a crew whose workers are gone.
    pub fn free(self)
        requires { vec_len self.workers ≡ 0 }
    {
        let Crew {
            workers,
            sources: _,
            lanes: _,
            inlets: _,
        } = self;
        workers.destroy_empty();
    }
}
