ghost use Rattle.std.specs.Prelude.{◌≡◌, ◌<◌, ◌≤◌, ◌↔◌, IsTrue, IfOk, Some, is_some, length, true, false};
ghost use Rattle.eip_ordered.specs.Numbered.{value_at};
ghost use Rattle.eip_ledger.specs.declared.entry.Kind.TheVariants.{Start, Take, Starve};
ghost use Rattle.eip_ledger.specs.declared.place.Place.TheVariants.{Ready};
ghost use Rattle.eip_history.specs.Place.{place};
ghost use Rattle.eip_hub.specs.View.{plan};
ghost use Rattle.eip_audit.specs.Judging.{Holds, Judges};

use crate::auditor::Auditor;
use eip_hub::{Books, Inner, Ticket};
use eip_ledger::Place;
use eip_ordered::{put, take};
use eip_text::NoMemory;
use std::alloc::Global;
use std::collections::BTreeMap;

// How exchanges leave their queues, come into hands, and are ended for want of memory.

/// Whether an exchange may act.
pub(crate) fn is_ready(books: &Books, alloc: Global, number: u64) -> Result<bool, NoMemory>
    ensures { IfOk result (λ b. IsTrue b ↔ place (plan books.now) books.now.journal.past number ≡ Some Ready) }
{
    match books.place(alloc, number)? {
        Some(Place::Ready) => Ok(true),
        other => {
            drop(other);
            Ok(false)
        }
    }
}

/// Whether somebody has an exchange in hand.
pub(crate) fn is_held(hands: &BTreeMap<u64, Ticket>, number: u64) -> bool
    ensures { result ≡ is_some (value_at hands.now.entries number) }
{
    match hands.get(&number) {
        Some(_) => true,
        None => false,
    }
}

impl Auditor {
    /// Whether the set has a route with this index.
    fn is_route(&self, index: u32) -> bool
        ensures { IsTrue result ↔ index < length self.now.books.set.routes }
    {
        (index as usize) < self.books.set().routes.items().len()
    }

    /// A start: of the first exchange that waits in a queue one of whose consumers is free, where turns are left.
    pub(crate) fn start(&mut self, worker: u32, queue: u32, number: u64) -> Result<bool, NoMemory>
        requires holds { Holds self.old }
        requires worker { worker ≤ self.old.books.journal.workers }
        ensures { IfOk result (λ b. Judges self.old self.new worker (Start queue number) b) }
    {
        if !self.is_route(queue) {
            return Ok(false);
        }
        if !self.books.is_below() {
            return Ok(false);
        }
        self.books.reserve()?;
        let Some(first) = self.books.start_in(worker, queue) else {
            return Ok(false);
        };
        if first != number {
            return Ok(false);
        }
        Ok(true)
    }

    /// A take: of a Ready exchange that asks for somebody outside, where turns are left.
    pub(crate) fn take(&mut self, worker: u32, number: u64) -> Result<bool, NoMemory>
        requires holds { Holds self.old }
        requires worker { worker ≤ self.old.books.journal.workers }
        ensures { IfOk result (λ b. Judges self.old self.new worker (Take number) b) }
    {
        if !self.books.is_below() {
            return Ok(false);
        }
        let ready = is_ready(&self.books, self.alloc, number)?;
        if !ready {
            return Ok(false);
        }
        let looked = self.books.inner(worker, number)?;
        match looked {
            // what it asks is none of the outside, and was answered
            Inner::Did => Ok(false),
            Inner::Outside => {
                self.books.reserve()?;
                let ticket = self.books.take(worker, number);
                put(&mut self.hands, number, ticket)?;
                Ok(true)
            }
        }
    }

    /// An end for want of memory: of an exchange in the worker's hand, or a Ready one.
    pub(crate) fn starve(&mut self, worker: u32, number: u64) -> Result<bool, NoMemory>
        requires holds { Holds self.old }
        requires worker { worker ≤ self.old.books.journal.workers }
        ensures { IfOk result (λ b. Judges self.old self.new worker (Starve number) b) }
    {
        if is_held(&self.hands, number) {
            Ok(self.give_up(worker, number))
        } else {
            self.starve_ready(worker, number)
        }
    }

    /// An end for want of memory of an exchange that somebody has in hand.
    fn give_up(&mut self, worker: u32, number: u64) -> bool
        requires holds { Holds self.old }
        requires worker { worker ≤ self.old.books.journal.workers }
        requires held { is_some (value_at self.old.hands.entries number) ≡ true }
        ensures { Judges self.old self.new worker (Starve number) result }
    {
        let Some(ticket) = take(&mut self.hands, number) else {
            unreachable!()
        };
        let holder = ticket.worker;
        if holder != worker {
            drop(ticket);
            return false;
        }
        self.books.give_up(ticket);
        true
    }

    /// An end for want of memory of an exchange that nobody has in hand.
    fn starve_ready(&mut self, worker: u32, number: u64) -> Result<bool, NoMemory>
        requires holds { Holds self.old }
        requires worker { worker ≤ self.old.books.journal.workers }
        requires free { is_some (value_at self.old.hands.entries number) ≡ false }
        ensures { IfOk result (λ b. Judges self.old self.new worker (Starve number) b) }
    {
        let ready = is_ready(&self.books, self.alloc, number)?;
        if !ready {
            return Ok(false);
        }
        self.books.reserve()?;
        self.books.starve(worker, number);
        Ok(true)
    }
}
