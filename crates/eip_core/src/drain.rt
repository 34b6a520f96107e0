ghost use Rattle.std.specs.Prelude.{◌≡◌, ◌≤◌, ◌<◌, true, None, Some, OnOk, IfOk, IfSome, IfNone};
ghost use Rattle.eip_frames.specs.Fits.{is_outside};
ghost use Rattle.eip_history.specs.Own.{turns};
ghost use Rattle.eip_history.specs.Place.{hands, ready_numbers};
ghost use Rattle.std.specs.Prelude.{ℕ};
ghost use Rattle.eip_ledger.specs.declared.entry.Kind.TheVariants.{Pull};
ghost use Rattle.eip_history.specs.Rules.{May, first, startable};
ghost use Rattle.eip_history.specs.Stop.{stop_of};
ghost use Rattle.eip_hub.specs.View.{plan, IsLegalRun};
ghost use Rattle.eip_tables.specs.Outside.{is_among, IsAsked};
ghost use Rattle.eip_core.specs.Drain.{Acts, AsksFor, CanDrain, Chosen, Drains, IsStop, Rests};

use crate::outside::{ask, pull_source, refused};
use eip_endpoint::{Inlets, Lanes, PullFault, Pulled};
use eip_frames::Answer;
use eip_hub::{Hub, Inner, Ticket};
use eip_ledger::Stop;
use eip_processor::Registered;
use eip_text::NoMemory;

/// The clock moves on to the least moment at which somebody is due, or else, where nobody is, the open groups are closed that may be
/// closed by force. Where a run goes on, and neither an exchange nor a queue nor a source may act, one of the two comes.
fn move_on<L: Lanes, I: Inlets, R: Registered>(
    hub: &mut Hub,
    lanes: &mut L,
    inlets: &mut I,
    registry: &R,
) -> Result<(), NoMemory>
    requires rests { Rests hub.old }
    requires nobody { first (ready_numbers (plan hub.old) hub.old.journal.past) ≡ None }
    requires no_queue { first (startable (plan hub.old) hub.old.journal.past) ≡ None }
    requires no_source { (t : ℕ) → May (plan hub.old) hub.old.journal.turns hub.old.journal.past 0 (Pull t) → ⊥ }
    ensures legal { IsLegalRun hub.new }
    ensures drains { Drains hub.old hub.new (L.views lanes.old) (L.views lanes.new) (I.views inlets.old) (I.views inlets.new) (R.view registry.now) }
    ensures acts { OnOk result (Acts hub.old hub.new) }
{
    let _ = lanes.count();
    let _ = inlets.count();
    if hub.tick(0)? {
        return Ok(());
    }
    if hub.force(0)? {
        Ok(())
    } else {
        unreachable!()
    }
}

/// Pulls the first source that has not ended, and enters what came of it; where all have ended, the clock moves on, or groups are
/// closed by force.
fn pull_once<L: Lanes, I: Inlets, R: Registered>(
    hub: &mut Hub,
    lanes: &mut L,
    inlets: &mut I,
    registry: &R,
) -> Result<(), NoMemory>
    requires rests { Rests hub.old }
    requires nobody { first (ready_numbers (plan hub.old) hub.old.journal.past) ≡ None }
    requires no_queue { first (startable (plan hub.old) hub.old.journal.past) ≡ None }
    requires room { 1 ≤ hub.old.room }
    requires can_run { CanDrain hub.old (L.views lanes.old) (I.views inlets.old) (R.view registry.now) }
    ensures legal { IsLegalRun hub.new }
    ensures drains { Drains hub.old hub.new (L.views lanes.old) (L.views lanes.new) (I.views inlets.old) (I.views inlets.new) (R.view registry.now) }
    ensures acts { OnOk result (Acts hub.old hub.new) }
{
    let _ = lanes.count();
    let Some(source) = hub.pull(0) else {
        return move_on(hub, lanes, inlets, registry);
    };
    match pull_source(hub.set(), inlets, source) {
        Ok(Pulled::Item { item, message }) => hub.accept(0, source, item, message),
        Ok(Pulled::Refused { item, cause }) => hub.refuse(0, source, item, refused(cause)),
        Ok(Pulled::End) => hub.source_end(0, source),
        Err(PullFault::Failed) => hub.source_fault(0, source),
        Err(PullFault::NoMemory) => return Err(NoMemory),
    }
    Ok(())
}

/// Has the request of the least Ready exchange, which is one of the outside, answered there, or gives the exchange up where nobody
/// answers. The exchange is in hand for the time of the call, which takes no memory from the hub, so the answer of a call that was
/// made is always entered.
fn serve<L: Lanes, I: Inlets, R: Registered>(
    hub: &mut Hub,
    lanes: &mut L,
    inlets: &mut I,
    registry: &R,
    number: u64,
)
    requires chosen { Chosen hub.old number }
    requires known { is_among number hub.old.outside ≡ true }
    requires room { 1 ≤ hub.old.room }
    requires can_run { CanDrain hub.old (L.views lanes.old) (I.views inlets.old) (R.view registry.now) }
    ensures legal { IsLegalRun hub.new }
    ensures drains { Drains hub.old hub.new (L.views lanes.old) (L.views lanes.new) (I.views inlets.old) (I.views inlets.new) (R.view registry.now) }
    ensures acts { Acts hub.old hub.new }
{
    let Some(ticket) = hub.take(0) else {
        unreachable!()
    };
    match answer_of(hub, lanes, inlets, registry, &ticket) {
        Ok(answer) => hub.settle(ticket, answer),
        Err(NoMemory) => hub.give_up(ticket),
    }
}

/// What somebody outside answers to the request of a ticket.
fn answer_of<L: Lanes, I: Inlets, R: Registered>(
    hub: &Hub,
    lanes: &mut L,
    inlets: &mut I,
    registry: &R,
    ticket: &Ticket,
) -> Result<Answer, NoMemory>
    requires asked { IsAsked (plan hub.now) hub.now.journal.past ticket.now.number ticket.now.request }
    requires of_outside { is_outside ticket.now.request ≡ true }
    requires can_run { CanDrain hub.now (L.views lanes.old) (I.views inlets.old) (R.view registry.now) }
    ensures { AsksFor hub.now ticket.now.number ticket.now.request result (L.views lanes.old) (L.views lanes.new) (I.views inlets.old) (I.views inlets.new) (R.view registry.now) }
{
    let Some(origin) = hub.origin(ticket.number) else {
        unreachable!()
    };
    ask(hub.set(), lanes, inlets, registry, origin, &ticket.request)
}

/// Does what the least Ready exchange asks for, or ends it for want of memory.
fn run_ready<L: Lanes, I: Inlets, R: Registered>(
    hub: &mut Hub,
    lanes: &mut L,
    inlets: &mut I,
    registry: &R,
    number: u64,
)
    requires chosen { Chosen hub.old number }
    requires can_run { CanDrain hub.old (L.views lanes.old) (I.views inlets.old) (R.view registry.now) }
    requires room { 1 ≤ hub.old.room }
    ensures legal { IsLegalRun hub.new }
    ensures drains { Drains hub.old hub.new (L.views lanes.old) (L.views lanes.new) (I.views inlets.old) (I.views inlets.new) (R.view registry.now) }
    ensures acts { Acts hub.old hub.new }
{
    match hub.inner(0, number) {
        Ok(Inner::Did) => {}
        Ok(Inner::Outside) => serve(hub, lanes, inlets, registry, number),
        Err(NoMemory) => hub.starve(0, number),
    }
}

/// One act of the plain schedule: of the least Ready exchange, or else of the first startable queue, or else of the first source
/// that has not ended, or else of the clock, or else of force.
fn act<L: Lanes, I: Inlets, R: Registered>(
    hub: &mut Hub,
    lanes: &mut L,
    inlets: &mut I,
    registry: &R,
) -> Result<(), NoMemory>
    requires rests { Rests hub.old }
    requires can_run { CanDrain hub.old (L.views lanes.old) (I.views inlets.old) (R.view registry.now) }
    ensures legal { IsLegalRun hub.new }
    ensures drains { Drains hub.old hub.new (L.views lanes.old) (L.views lanes.new) (I.views inlets.old) (I.views inlets.new) (R.view registry.now) }
    ensures acts { OnOk result (Acts hub.old hub.new) }
{
    hub.reserve()?;
    match hub.ready() {
        Some(number) => {
            run_ready(hub, lanes, inlets, registry, number);
            Ok(())
        }
        None => match hub.start(0) {
            Some(_) => Ok(()),
            None => pull_once(hub, lanes, inlets, registry),
        },
    }
}

/// Acts until a turn is taken, or until the run stops, which it answers then.
fn take_turn<L: Lanes, I: Inlets, R: Registered>(
    hub: &mut Hub,
    lanes: &mut L,
    inlets: &mut I,
    registry: &R,
) -> Result<Option<Stop>, NoMemory>
    requires home { hands (plan hub.old) hub.old.journal.past ≡ 0 }
    requires can_run { CanDrain hub.old (L.views lanes.old) (I.views inlets.old) (R.view registry.now) }
    ensures legal { IsLegalRun hub.new }
    ensures drains { Drains hub.old hub.new (L.views lanes.old) (L.views lanes.new) (I.views inlets.old) (I.views inlets.new) (R.view registry.now) }
    ensures home { IfOk result (λ s. IfNone s (hands (plan hub.new) hub.new.journal.past ≡ 0)) }
    ensures turn { IfOk result (λ s. IfNone s (turns hub.old.journal.past < turns hub.new.journal.past)) }
    ensures stop { IfOk result (λ s. IfSome s (λ t. stop_of (plan hub.new) hub.new.journal.turns hub.new.journal.past ≡ Some t)) }
{
    let before = hub.turns_taken();
    loop {
        if let Some(stop) = hub.stop() {
            return Ok(Some(stop));
        }
        act(hub, lanes, inlets, registry)?;
        if hub.turns_taken() > before {
            return Ok(None);
        }
    }
}

/// Drains the sources of a run through the hub, by the plain schedule of one worker: the least Ready exchange acts, or else
/// the first startable queue starts the first exchange that waits in it, or else the first source that has not ended is
/// pulled, or else the clock moves on to the least moment at which somebody is due, or else the open groups are closed that may be
/// closed by force. What a step has processed or tested by name is asked of the registry. It always returns: the stop of the
/// journal, or `NoMemory`.
pub fn drain_alone<L: Lanes, I: Inlets, R: Registered>(
    hub: &mut Hub,
    lanes: &mut L,
    inlets: &mut I,
    registry: &R,
) -> Stop
    requires home { hands (plan hub.old) hub.old.journal.past ≡ 0 }
    requires can_run { CanDrain hub.old (L.views lanes.old) (I.views inlets.old) (R.view registry.now) }
    ensures stop { IsStop hub.new result }
    ensures legal { IsLegalRun hub.new }
    ensures drains { Drains hub.old hub.new (L.views lanes.old) (L.views lanes.new) (I.views inlets.old) (I.views inlets.new) (R.view registry.now) }
{
    loop {
        match take_turn(hub, lanes, inlets, registry) {
            Ok(Some(stop)) => return stop,
            Ok(None) => {}
            Err(NoMemory) => return Stop::NoMemory,
        }
    }
}
