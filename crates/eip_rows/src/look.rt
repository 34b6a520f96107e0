ghost use Rattle.std.specs.Prelude.{◌≡◌, ◌<◌, Option, IsSome, IfOk, OnOk, OnErr, option_map};
ghost use Rattle.eip_exchange.specs.declared.birth.Birth.{Birth as ABirth};
ghost use Rattle.eip_plan.specs.Plan.{plan_of};
ghost use Rattle.eip_rows.specs.First.{CanBegin, MayBegin, MayStep, SteppedOn, BegunOn, with_message};
ghost use Rattle.eip_tables.specs.Look.{HasCursor, LookedAt, birth_at, birth_by, FirstSeen};
ghost use Rattle.eip_tables.specs.Offers.{copy_birth as offered_copy};
ghost use Rattle.eip_tables.specs.Groups.{completed};
ghost use Rattle.eip_history.specs.Births.{name_of};

use eip_cursor::{begin, go_on};
use eip_exchange::{Birth, Care, Message, Origin, Work};
use eip_frames::{Answer, Completion};
use eip_ledger::{Entry, Kind};
use eip_meaning::Context;
use eip_route::RouteSet;
use eip_tables::live::Live;
use eip_tables::row::{self, Born, Row};
use eip_text::{Boxed, NoMemory, Text};
use std::alloc::Global;

/// Gives the cursor of a live exchange an answer, behind which it goes on and asks again. On `NoMemory` all is as before.
fn step_on(live: &mut Live, alloc: Global, set: &RouteSet, answer: &Answer) -> Result<(), NoMemory>
    requires { MayStep set.now answer.now live.old }
    ensures ok { OnOk result (SteppedOn set.now answer.now live.old live.new) }
    ensures err { OnErr result (live.new ≡ live.old) }
{
    match &mut live.cursor {
        Some(cursor) => go_on(cursor, &mut live.request, alloc, set, answer),
        None => unreachable!(),
    }
}

/// Gives the cursor of a row an answer, behind which it goes on. On `NoMemory` the row is as before.
pub fn look_at(
    row: &mut Row,
    alloc: Global,
    set: &RouteSet,
    answer: &Answer,
) -> Result<(), NoMemory>
    requires { HasCursor set.now answer.now row.old }
    ensures ok { OnOk result (LookedAt set.now answer.now row.old row.new) }
    ensures err { OnErr result (row.new ≡ row.old) }
{
    let Some(mut live) = row::take_live(row) else {
        unreachable!()
    };
    match step_on(live.get_mut(), alloc, set, answer) {
        Ok(()) => {
            row::ask(row, live);
            Ok(())
        }
        Err(NoMemory) => {
            row::put_live(row, live);
            Err(NoMemory)
        }
    }
}

/// The number of the block of a route's steps.
#[tactic(auto, unfolding(eip_plan::specs::Plan::plan_of))]
fn block_of(set: &RouteSet, route: u32) -> u32
    ensures { result ≡ (plan_of set.now).block_of route }
{
    match set.routes.items().get(route as usize) {
        Some(route) => route.block,
        None => 0,
    }
}

/// The exchange whose item an entry accepted begins, and asks for the first time. On `NoMemory` all is as before.
fn begin_item(
    live: &mut Live,
    alloc: Global,
    set: &RouteSet,
    number: u64,
    kind: &Kind,
) -> Result<(), NoMemory>
    requires { MayBegin set.now (birth_at set.now number kind.now) }
    ensures ok { OnOk result (BegunOn set.now (birth_at set.now number kind.now) live.old live.new) }
    ensures err { OnErr result (live.new ≡ live.old) }
{
    match kind {
        Kind::Accept {
            source,
            item,
            message,
        } => {
            let context = Context {
                number,
                hops: 0,
                care: Care::Full,
                handling: false,
                route: *source,
                depth: 0,
            };
            let origin = Origin::Source {
                route: *source,
                item: item.copy()?,
            };
            let work = Work::Block(block_of(set, *source));
            let message = message.get().copy(alloc)?;
            begin(
                &mut live.cursor,
                &mut live.request,
                alloc,
                set,
                context,
                origin,
                &work,
                message,
            )
        }
        _ => unreachable!(),
    }
}

fn copy_origin(origin: &Origin) -> Result<Origin, NoMemory>
    ensures { IfOk result (λ o. o ≡ origin.now) }
{
    match origin {
        Origin::Source { route, item } => Ok(Origin::Source {
            route: *route,
            item: item.copy()?,
        }),
        Origin::Queue { route } => Ok(Origin::Queue { route: *route }),
        Origin::Part { parent, index } => Ok(Origin::Part {
            parent: *parent,
            index: *index,
        }),
        Origin::Group { group } => Ok(Origin::Group { group: *group }),
    }
}

/// The exchange of a birth that is kept begins, with this copy of its message. On `NoMemory` all is as before.
fn begin_birth(
    live: &mut Live,
    alloc: Global,
    set: &RouteSet,
    message: Message,
) -> Result<(), NoMemory>
    requires { MayBegin set.now (with_message message live.old.birth) }
    ensures ok { OnOk result (BegunOn set.now (with_message message live.old.birth) live.old live.new) }
    ensures err { OnErr result (live.new ≡ live.old) }
{
    let Some(birth) = &live.birth else {
        unreachable!()
    };
    let context = Context::of(birth);
    let origin = copy_origin(&birth.origin)?;
    begin(
        &mut live.cursor,
        &mut live.request,
        alloc,
        set,
        context,
        origin,
        &birth.work,
        message,
    )
}

/// A copy of the message of a birth that is kept.
fn born_message(alloc: Global, birth: &Option<Birth>) -> Result<Message, NoMemory>
    requires { IsSome birth.now }
    ensures { IfOk result (λ m. with_message m birth.now ≡ birth.now) }
{
    match birth {
        Some(birth) => Ok(birth.message.copy(alloc)?),
        None => unreachable!(),
    }
}

/// The copy that an exchange with so many hops puts into a queue, as the exchange with this number.
pub fn offered_birth(set: &RouteSet, number: u64, queue: u32, hops: u32, message: Message) -> Birth
    requires { hops < 1000000 }
    ensures { result ≡ offered_copy set.now number queue hops message }
{
    Birth {
        number,
        origin: Origin::Queue { route: queue },
        work: Work::Block(block_of(set, queue)),
        hops: hops + 1,
        depth: 0,
        route: queue,
        care: Care::Full,
        message,
    }
}

/// What closed a group, as its message says it.
fn cause_name(cause: Completion) -> &'static str
    ensures { result.now ≡ name_of cause }
{
    match cause {
        Completion::Size => "size",
        Completion::Predicate => "predicate",
        Completion::Timeout => "timeout",
        Completion::Force => "force",
    }
}

/// The message of a closed group's exchange says what closed it.
fn tell_cause(alloc: Global, cause: Completion, message: &mut Message) -> Result<(), NoMemory>
    ensures { OnOk result ((o : Option ABirth) → with_message message.old o ≡ o → with_message message.new o ≡ option_map (completed cause) o) }
{
    let name = Text::of_str(alloc, "CamelAggregatedCompletedBy")?;
    let value = Text::of_str(alloc, cause_name(cause))?;
    message.properties.set(name, value)?;
    Ok(())
}

/// An exchange begins that was born so, in the room that it was given, and asks for the first time. On `NoMemory` all is as before.
fn begin_on(
    live: &mut Live,
    alloc: Global,
    set: &RouteSet,
    entries: &[Entry],
    number: u64,
    born: Born,
) -> Result<(), NoMemory>
    requires { MayBegin set.now (birth_by set.now entries.now number born live.old.birth) }
    ensures ok { OnOk result (BegunOn set.now (birth_by set.now entries.now number born live.old.birth) live.old live.new) }
    ensures err { OnErr result (live.new ≡ live.old) }
{
    match born {
        Born::Item(entry) => match entries.get(entry) {
            Some(entry) => begin_item(live, alloc, set, number, &entry.kind),
            None => unreachable!(),
        },
        Born::Copy(_) | Born::Part { .. } => {
            let message = born_message(alloc, &live.birth)?;
            begin_birth(live, alloc, set, message)
        }
        Born::Group { cause, .. } => {
            let mut message = born_message(alloc, &live.birth)?;
            tell_cause(alloc, cause, &mut message)?;
            begin_birth(live, alloc, set, message)
        }
    }
}

/// Looks for the first time at the exchange with this number and row. On `NoMemory` the row is as before.
pub fn look_first(
    row: &mut Row,
    alloc: Global,
    vacant: &mut Option<Boxed<Live>>,
    set: &RouteSet,
    entries: &[Entry],
    number: u64,
) -> Result<(), NoMemory>
    requires { CanBegin set.now entries.now number row.old }
    ensures ok { OnOk result (FirstSeen set.now entries.now number row.old row.new) }
    ensures err { OnErr result (row.new ≡ row.old) }
{
    let born = row.born();
    let mut room = row::take_room(row, alloc, vacant)?;
    match begin_on(room.live.get_mut(), alloc, set, entries, number, born) {
        Ok(()) => {
            row::ask(row, room.live);
            Ok(())
        }
        Err(NoMemory) => {
            row::leave_room(row, room);
            Err(NoMemory)
        }
    }
}
