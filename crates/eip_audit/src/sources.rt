ghost use Rattle.std.specs.Prelude.{◌≡◌, ◌≤◌, ◌↔◌, [], IfOk, IsTrue};
ghost use Rattle.eip_ledger.specs.declared.entry.Kind.TheVariants.{Pull, Accept, Refuse, SourceEnd, SourceFault};
ghost use Rattle.eip_plan.specs.Plan.{plan_of};
ghost use Rattle.eip_tables.specs.declared.row.SourceState.TheVariants.{Idle, Out};
ghost use Rattle.eip_tables.specs.Rows.{SourcesStand};
ghost use Rattle.eip_audit.specs.Judging.{Holds, Judges, state_at};

use crate::auditor::Auditor;
use eip_exchange::Message;
use eip_hub::SourceState;
use eip_ledger::Refused;
use eip_route::RouteSet;
use eip_text::{NoMemory, Text};
use std::alloc::Global;

// The entries of sources.

/// Where the sources of a set stand before the first entry.
pub fn first_states(alloc: Global, set: &RouteSet) -> Result<Vec<SourceState>, NoMemory>
    ensures { IfOk result (λ v. SourcesStand (plan_of set.now) [] v.items) }
{
    let mut states = Vec::new(alloc);
    for route in set.routes.items() {
        let state = match route.from.inlet() {
            Some(_) => SourceState::Idle,
            None => SourceState::Unused,
        };
        states.push(state)?;
    }
    Ok(states)
}

/// Where the source of a route stands; a route that is not there has none.
fn state_of(states: &[SourceState], source: u32) -> SourceState
    ensures { result ≡ state_at states.now source }
{
    match states.get(source as usize) {
        Some(state) => *state,
        None => SourceState::Unused,
    }
}

impl Auditor {
    /// Whether the source of a route may be pulled.
    fn is_idle(&self, source: u32) -> bool
        ensures { IsTrue result ↔ state_at self.now.sources.items source ≡ Idle }
    {
        state_of(self.sources.as_slice(), source) == SourceState::Idle
    }

    /// Whether the worker has pulled the source of a route and has no answer yet.
    fn is_out(&self, worker: u32, source: u32) -> bool
        ensures { IsTrue result ↔ state_at self.now.sources.items source ≡ Out worker }
    {
        state_of(self.sources.as_slice(), source) == SourceState::Out(worker)
    }

    /// A pull: of a source that may be pulled, where turns are left.
    pub(crate) fn pull(&mut self, worker: u32, source: u32) -> Result<bool, NoMemory>
        requires holds { Holds self.old }
        requires worker { worker ≤ self.old.books.journal.workers }
        ensures { IfOk result (λ b. Judges self.old self.new worker (Pull source) b) }
    {
        if !self.is_idle(source) {
            return Ok(false);
        }
        if !self.books.is_below() {
            return Ok(false);
        }
        self.books.reserve()?;
        self.books.pull(worker, source);
        self.sources[source as usize] = SourceState::Out(worker);
        Ok(true)
    }

    /// An item: of a source that the worker has pulled, without properties.
    pub(crate) fn accept(
        &mut self,
        worker: u32,
        source: u32,
        item: &Text,
        message: &Message,
    ) -> Result<bool, NoMemory>
        requires holds { Holds self.old }
        requires worker { worker ≤ self.old.books.journal.workers }
        ensures { IfOk result (λ b. Judges self.old self.new worker (Accept source item.now message.now) b) }
    {
        if !self.is_out(worker, source) {
            return Ok(false);
        }
        if message.properties.len() > 0 {
            return Ok(false);
        }
        let item = item.copy()?;
        let message = message.copy(self.alloc)?;
        self.books.accept(worker, source, item, message);
        self.sources[source as usize] = SourceState::Idle;
        Ok(true)
    }

    /// A refused item: of a source that the worker has pulled.
    pub(crate) fn refuse(
        &mut self,
        worker: u32,
        source: u32,
        item: &Text,
        cause: Refused,
    ) -> Result<bool, NoMemory>
        requires holds { Holds self.old }
        requires worker { worker ≤ self.old.books.journal.workers }
        ensures { IfOk result (λ b. Judges self.old self.new worker (Refuse source item.now cause) b) }
    {
        if !self.is_out(worker, source) {
            return Ok(false);
        }
        let item = item.copy()?;
        self.books.refuse(worker, source, item, cause);
        self.sources[source as usize] = SourceState::Idle;
        Ok(true)
    }

    /// An end: of a source that the worker has pulled.
    pub(crate) fn source_end(&mut self, worker: u32, source: u32) -> Result<bool, NoMemory>
        requires holds { Holds self.old }
        requires worker { worker ≤ self.old.books.journal.workers }
        ensures { IfOk result (λ b. Judges self.old self.new worker (SourceEnd source) b) }
    {
        if !self.is_out(worker, source) {
            return Ok(false);
        }
        self.books.source_end(worker, source);
        self.sources[source as usize] = SourceState::Done;
        Ok(true)
    }

    /// A fault: of a source that the worker has pulled.
    pub(crate) fn source_fault(&mut self, worker: u32, source: u32) -> Result<bool, NoMemory>
        requires holds { Holds self.old }
        requires worker { worker ≤ self.old.books.journal.workers }
        ensures { IfOk result (λ b. Judges self.old self.new worker (SourceFault source) b) }
    {
        if !self.is_out(worker, source) {
            return Ok(false);
        }
        self.books.source_fault(worker, source);
        self.sources[source as usize] = SourceState::Done;
        Ok(true)
    }
}
