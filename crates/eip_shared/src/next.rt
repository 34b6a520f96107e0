ghost use Rattle.std.specs.Prelude.{◌≡◌, ◌≤◌, Some, IfOk, IfSome, IfNone};
ghost use Rattle.eip_ledger.specs.declared.place.Place.TheVariants.{Ready};
ghost use Rattle.eip_history.specs.Births.{Asked, asked};
ghost use Rattle.eip_hub.specs.View.{plan, IsLegalRun};
ghost use Rattle.eip_hub.specs.Events.{IsBelowLimit, place_in};
ghost use Rattle.eip_shared.specs.Looks.{LooksIn, told_by};
ghost use Rattle.eip_shared.specs.declared.looks.Look.TheVariants.{Did};

use crate::looks::Look;
use eip_frames::Request;
use eip_hub::{Hub, Inner, OriginView, Ticket};
use eip_text::{NoMemory, Text};

/// So many steps are made in one turn at most, so that others come to their turns.
const STEPS_A_TURN: u32 = 64;

/// What a worker does next, behind steps for which nobody outside is needed: it makes the entries of all that, if there are any. Of the
/// lanes and inlets it uses its own alone. `waiting` counts who waits for a call.
pub(crate) fn next(hub: &mut Hub, worker: u32, waiting: &mut u32) -> Look
    requires worker { (1 ≤ worker) × (worker ≤ hub.old.journal.workers) }
    ensures looks { LooksIn hub.old hub.new worker result }
    ensures legal { IsLegalRun hub.new }
{
    for _ in 1..STEPS_A_TURN {
        match step(hub, worker, waiting) {
            Look::Did => {}
            what => return what,
        }
    }
    step(hub, worker, waiting)
}

/// One step: what a Ready exchange asks for, or else the start of the next one in a queue, or else a pull or a call; or else the clock
/// moves on. A source is pulled only where no queue has one that may start and fewer exchanges wait for a call than there are workers,
/// so that calls find workers and workers find calls; a queue whose consumers are all busy may still get full.
fn step(hub: &mut Hub, worker: u32, waiting: &mut u32) -> Look
    requires worker { (1 ≤ worker) × (worker ≤ hub.old.journal.workers) }
    ensures looks { LooksIn hub.old hub.new worker result }
    ensures legal { IsLegalRun hub.new }
{
    if hub.stop().is_some() {
        return Look::Stopped;
    }
    if hub.reserve().is_err() {
        return Look::NoMemory;
    }
    if !hub.below_limit() {
        return Look::Nothing;
    }
    if let Some(number) = hub.unlooked() {
        run_inner(hub, worker, number, waiting);
        return Look::Did;
    }
    if hub.start(worker).is_some() {
        return Look::Did;
    }
    if *waiting < hub.journal().workers() {
        if let Some(source) = hub.pull_owned(worker) {
            return Look::Pull(source);
        }
    }
    if let Some(what) = take_call(hub, worker, waiting) {
        return what;
    }
    move_on(hub, worker)
}

/// Does what a Ready exchange asks for where nobody outside is needed, or ends it for want of memory. Where it waits for a call, it is
/// counted.
fn run_inner(hub: &mut Hub, worker: u32, number: u64, waiting: &mut u32)
    requires worker { worker ≤ hub.old.journal.workers }
    requires ready { place_in hub.old number ≡ Some Ready }
    requires below { IsBelowLimit hub.old }
    requires room { 1 ≤ hub.old.room }
    ensures looks { LooksIn hub.old hub.new worker Did }
    ensures legal { IsLegalRun hub.new }
{
    match hub.inner(worker, number) {
        Ok(Inner::Did) => {}
        Ok(Inner::Outside) => *waiting = waiting.saturating_add(1),
        Err(NoMemory) => hub.starve(worker, number),
    }
}

/// Takes an exchange in hand, if there is one for this worker. What is read of the journal outside the lock stands beside the ticket;
/// where there is no memory for that, the exchange is given up.
fn take_call(hub: &mut Hub, worker: u32, waiting: &mut u32) -> Option<Look>
    requires worker { (1 ≤ worker) × (worker ≤ hub.old.journal.workers) }
    requires room { 1 ≤ hub.old.room }
    ensures some { IfSome result (λ what. LooksIn hub.old hub.new worker what) }
    ensures none { IfNone result (hub.new ≡ hub.old) }
    ensures legal { IsLegalRun hub.new }
{
    let ticket = hub.take_owned(worker)?;
    *waiting = waiting.saturating_sub(1);
    match told(hub, &ticket) {
        Ok(told) => Some(Look::Call { ticket, told }),
        Err(NoMemory) => {
            hub.give_up(ticket);
            Some(Look::Did)
        }
    }
}

/// Whom an exchange in hand may have to tell of its end: the source that it came from, by its route, and the item.
fn told(hub: &Hub, ticket: &Ticket) -> Result<Option<(u32, Text)>, NoMemory>
    ensures { (k : Asked) → asked (plan hub.now) hub.now.journal.past ticket.now.number ≡ Some k
        → IfOk result (λ told. told ≡ told_by ticket.now.request k.birth.origin) }
{
    let Request::Finish { .. } = &ticket.request else {
        return Ok(None);
    };
    match hub.origin(ticket.number) {
        Some(OriginView::Source { route, item }) => Ok(Some((route, item.copy()?))),
        _ => Ok(None),
    }
}

/// Moves the clock on, or closes groups by force, where nobody may act.
fn move_on(hub: &mut Hub, worker: u32) -> Look
    requires worker { worker ≤ hub.old.journal.workers }
    ensures looks { LooksIn hub.old hub.new worker result }
    ensures legal { IsLegalRun hub.new }
{
    let Ok(ticked) = hub.tick(worker) else {
        return Look::NoMemory;
    };
    if ticked {
        return Look::Did;
    }
    match hub.force(worker) {
        Ok(true) => Look::Did,
        Ok(false) => Look::Nothing,
        Err(_) => Look::NoMemory,
    }
}
