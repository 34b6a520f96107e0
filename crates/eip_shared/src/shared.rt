ghost use Rattle.std.specs.Prelude.{◌≡◌, ◌≤◌, ◌++◌, ◌∷◌, [], ℕ};
ghost use Rattle.eip_exchange.specs.declared.birth.Origin.{Origin};
ghost use Rattle.eip_hub.specs.View.{plan, IsLegalRun};
ghost use Rattle.eip_shared.specs.Deeds.{deed};
ghost use Rattle.eip_shared.specs.Looks.{Looks};
ghost use Rattle.eip_shared.specs.Shared.{SharedFacts, beginning_of, log, beginning, since, Makes, MayEnter, Part, kind_of};

use crate::beginning::Beginning;
use crate::deed::Deed;
use crate::looks::Look;
use crate::next::next;
use crate::outcome::Outcome;
use eip_hub::Hub;
use eip_turnstile::Chronicle;
use std::marker::Model;

/// A hub that workers share: they alone make entries behind those that there were, and each lane and each inlet is its owner's.
pub struct SharedRun {
    hub: Hub,
    began: usize,
    /// How many exchanges wait for a call, as far as the looks told. It decides how early a source is pulled, and no contract speaks
    /// of it.
    waiting: u32,
}

impl Drop for SharedRun {
    fn drop(self) {
        let SharedRun {
            hub,
            began: _,
            waiting: _,
        } = self;
        drop(hub);
    }
}

impl Model for SharedRun {
    ghost use Rattle.eip_shared.specs.Shared.{SharedView, SharedFacts};

    ghost Value = { SharedView };

    ghost view = { λ r. record { hub = r.hub; began = r.began } };

    ghost invariant = { λ r. SharedFacts (record { hub = r.hub; began = r.began }) };
}

impl Chronicle for SharedRun {
    type Entry = Deed;

    type Base = Beginning;

    ghost entries = { log };

    ghost base = { beginning };

    fn length(&self) -> u64 {
        (self.hub.journal().entries().len() - self.began) as u64
    }
}

impl SharedRun {
    /// Shares a run. What its journal has so far is its beginning.
    pub fn new(hub: Hub) -> SharedRun
        ensures hub { result.hub ≡ hub }
        ensures log { log result ≡ [] }
        ensures beginning { beginning result ≡ beginning_of hub }
    {
        let began = hub.journal().entries().len();
        SharedRun {
            hub,
            began,
            waiting: 0,
        }
    }

    /// The run, which is shared no longer. Each worker's part of what was done since it was shared is what its deeds say.
    pub fn into_hub(self) -> Hub
        ensures hub { result ≡ self.hub }
        ensures legal { IsLegalRun result }
        ensures past { result.journal.past ≡ since self ++ (beginning self).past }
        ensures facts { SharedFacts self }
        ensures parts { (w : ℕ) → Part self w }
    {
        let SharedRun {
            hub,
            began: _,
            waiting: _,
        } = self;
        let _ = hub.journal();
        hub
    }

    /// The run as it is.
    pub fn hub(&self) -> &Hub
        ensures hub { result.now ≡ self.now.hub }
        ensures legal { IsLegalRun self.now.hub }
        ensures facts { SharedFacts self.now }
    {
        let _ = self.hub.journal();
        &self.hub
    }

    /// Enters what came of a call that a worker made outside the lock. It takes no memory.
    pub fn enter(&mut self, worker: u32, outcome: Outcome)
        requires worker { worker ≤ self.old.hub.journal.workers }
        requires may { (from : Origin) × MayEnter self.old worker from outcome }
        ensures makes { Makes self.old self.new worker (deed (plan self.old.hub) self.old.hub.journal.past (kind_of outcome) ∷ []) }
        ensures legal { IsLegalRun self.new.hub }
    {
        match outcome {
            Outcome::Settled { ticket, answer } => self.hub.settle(ticket, answer),
            Outcome::GivenUp { ticket } => self.hub.give_up(ticket),
            Outcome::Accepted {
                source,
                item,
                message,
            } => self.hub.accept(worker, source, item, message),
            Outcome::Refused {
                source,
                item,
                cause,
            } => self.hub.refuse(worker, source, item, cause),
            Outcome::Ended { source } => self.hub.source_end(worker, source),
            Outcome::Faulted { source } => self.hub.source_fault(worker, source),
        }
    }

    /// What a worker does next: it makes the entries of that, if there are any. Of the lanes and inlets it uses its own alone.
    pub fn look(&mut self, worker: u32) -> Look
        requires worker { (1 ≤ worker) × (worker ≤ self.old.hub.journal.workers) }
        ensures looks { Looks self.old self.new worker result }
        ensures legal { IsLegalRun self.new.hub }
    {
        next(&mut self.hub, worker, &mut self.waiting)
    }
}
