ghost use Rattle.std.specs.Prelude.{◌≡◌, ◌<◌, ◌≤◌, ◌+◌, ◌++◌, ◌∷◌, [], Some, None, IfOk, OnOk, OnErr, IsSome, MatchOption, length, option_map, vec_len, vec_capacity};
ghost use Rattle.eip_tables.specs.declared.row.Stage.TheVariants.{Asks};
ghost use Rattle.eip_tables.specs.Row.{Row as ARow, with_live, WasRow};
ghost use Rattle.eip_tables.specs.Moves.{new_row, copy_row, part_row, grouped_row, starving, started, answered, held, joining, sleeping, woken, closed, starved_end, stage_of, fault_of, finished, end_asked, last_message, part_end, ended_with, ticks_asked, line_asked, finished_asked, ended_by};
ghost use Rattle.eip_tables.specs.State.{row_outside};
ghost use Rattle.eip_tables.specs.Offers.{hops_by, offer_asked, offered_message};
ghost use Rattle.eip_tables.specs.Parts.{at_by, seeds_asked, count_asked};

use crate::live::{Kept, Live, Room, left_failed, left_vacant, room_for};
use eip_exchange::{Birth, End, Ended, Fault, Message};
use eip_frames::{Answer, At, Completion, Request, Seed, is_outside};
use eip_text::{Boxed, NoMemory, Text};
use std::alloc::Global;
use std::marker::Model;
use std::mem;

/// What made an exchange.
#[derive(Clone, Copy, Debug, PartialEq, Eq)]
pub enum Born {
    /// The item that the journal entry with this index accepted.
    Item(usize),
    /// An offer to the queue of this route.
    Copy(u32),
    /// A fan-out of a parent, of which it is the part with this index.
    Part { parent: u64, index: u32 },
    /// The closing of the group with this number, by this cause.
    Group { group: u64, cause: Completion },
}

/// How far an exchange is.
#[derive(Clone, Copy, Debug, PartialEq, Eq)]
pub enum Stage {
    /// It waits in the queue that it was born into.
    Queued,
    /// It was born, has left its queue where it had one, and nobody has looked at what it asks.
    New,
    /// It asks the request of its row.
    Asks,
    /// This worker has it in hand.
    Held(u32),
    /// Its parts were born by the journal entry with this index, and some of them have not ended.
    Joining(usize),
    /// It sleeps until this moment, by the answer of the journal entry with this index.
    Asleep { entry: usize, due: u64 },
    /// The answer of this journal entry, by its index, has not reached the cursor yet.
    Answered(usize),
    Completed,
    Handled,
    /// It failed with the fault of its row.
    Failed,
    /// It was ended for want of memory.
    Starved,
    /// Its source did not take its end.
    NotCommitted,
}

/// What the books keep of one exchange. It is small; what a live exchange has lies in an allocation of its own, which is given up at
/// its end.
pub struct Row {
    born: Born,
    stage: Stage,
    kept: Kept,
}

impl Drop for Row {
    fn drop(self) {
        let Row { born, stage, kept } = self;
        drop(born);
        drop(stage);
        drop(kept);
    }
}

impl Model for Row {
    ghost use Rattle.eip_tables.specs.Row.{Row as Known, row_of};

    ghost Value = { Known };

    ghost view = { λ r. row_of r.born r.stage r.kept };
}

/// An exchange that is born, as its row will show it.
#[derive(Drop)]
pub struct Newborn {
    born: Born,
    stage: Stage,
    birth: Option<Birth>,
    fault: Option<Fault>,
}

impl Model for Newborn {
    ghost use Rattle.std.specs.Prelude.{None};
    ghost use Rattle.eip_tables.specs.Row.{Row as Known};

    ghost Value = { Known };

    ghost view = { λ n. record { born = n.born; stage = n.stage; birth = n.birth; cursor = None; request = None; fault = n.fault } };
}

/// Where the source of a route stands.
#[derive(Clone, Copy, Debug, PartialEq, Eq)]
pub enum SourceState {
    /// The route has no source.
    Unused,
    /// It may be pulled.
    Idle,
    /// This worker has pulled it and has no answer yet.
    Out(u32),
    /// It ended or failed.
    Done,
}

impl Newborn {
    /// An exchange whose item this journal entry accepted.
    pub fn of_item(entry: usize) -> Newborn
        ensures { result ≡ new_row entry }
    {
        Newborn {
            born: Born::Item(entry),
            stage: Stage::New,
            birth: None,
            fault: None,
        }
    }

    /// A copy that waits in the queue of this route.
    pub fn queued(queue: u32, birth: Birth) -> Newborn
        ensures { result ≡ copy_row queue birth }
    {
        Newborn {
            born: Born::Copy(queue),
            stage: Stage::Queued,
            birth: Some(birth),
            fault: None,
        }
    }

    /// A part with this birth, and with a fault for the case that it is starved.
    pub fn part(parent: u64, index: u32, birth: Birth, fault: Fault) -> Newborn
        requires { fault ≡ starving }
        ensures { result ≡ part_row parent index birth }
    {
        Newborn {
            born: Born::Part { parent, index },
            stage: Stage::New,
            birth: Some(birth),
            fault: Some(fault),
        }
    }

    /// The exchange of a group that closed by this cause, with this birth.
    pub fn grouped(group: u64, cause: Completion, birth: Birth) -> Newborn
        ensures { result ≡ grouped_row group cause birth }
    {
        Newborn {
            born: Born::Group { group, cause },
            stage: Stage::New,
            birth: Some(birth),
            fault: None,
        }
    }

    /// Its row. What it was born as goes into one of the rooms; an item, of whose birth nothing is kept, needs none.
    fn into_row(self, rooms: &mut Vec<Boxed<Live>>) -> Row
        requires { 0 < length rooms.old.items }
        ensures row { result ≡ self }
        ensures rooms { length rooms.old.items ≤ length rooms.new.items + 1 }
    {
        let Newborn {
            born,
            stage,
            birth,
            fault,
        } = self;
        let kept = match (birth, fault) {
            (None, None) => Kept::Nothing,
            (birth, fault) => {
                let Some(room) = rooms.pop() else {
                    unreachable!()
                };
                Kept::born(room, birth, fault)
            }
        };
        Row { born, stage, kept }
    }
}

impl Row {
    /// What made it.
    pub fn born(&self) -> Born
        ensures { result ≡ self.now.born }
    {
        self.born
    }

    /// How far it is.
    pub fn stage(&self) -> Stage
        ensures { result ≡ self.now.stage }
    {
        self.stage
    }

    /// What is kept of its birth.
    pub fn birth(&self) -> Option<&Birth>
        ensures { MatchOption result (self.now.birth ≡ None) (λ b. self.now.birth ≡ Some b.now) }
    {
        self.kept.birth()
    }

    /// What it asks, while it asks.
    pub fn request(&self) -> Option<&Request>
        ensures { MatchOption result (self.now.request ≡ None) (λ q. self.now.request ≡ Some q.now) }
    {
        self.kept.request()
    }

    /// What it failed with, or would fail with if it were starved.
    pub fn fault(&self) -> Option<&Fault>
        ensures { MatchOption result (self.now.fault ≡ None) (λ f. self.now.fault ≡ Some f.now) }
    {
        self.kept.fault()
    }

    /// How many queues its lineage has passed.
    pub fn hops(&self) -> u32
        ensures { result ≡ hops_by self.now.born self.now.birth }
    {
        match (self.born, self.kept.birth()) {
            (Born::Copy(_) | Born::Part { .. } | Born::Group { .. }, Some(birth)) => birth.hops,
            _ => 0,
        }
    }

    /// Where its last request was asked.
    pub fn at(&self) -> At
        ensures { result ≡ at_by self.now.cursor }
    {
        match self.kept.cursor() {
            Some(cursor) => cursor.at(),
            None => At {
                route: 0,
                depth: 0,
                index: 0,
            },
        }
    }

    /// Whether it is known to ask somebody outside.
    pub fn asks_outside(&self) -> bool
        ensures { result ≡ row_outside self.now }
    {
        match (self.stage, self.kept.request()) {
            (Stage::Asks, Some(request)) => is_outside(request),
            _ => false,
        }
    }
}

/// An item goes behind the others, into room that was reserved. For items of every type, since what a row is would be looked at
/// here for nothing.
pub fn put_behind<T: Drop>(items: &mut Vec<T>, item: T)
    requires { vec_len items.old < vec_capacity items.old }
    ensures items { items.new.items ≡ items.old.items ++ item ∷ [] }
    ensures room { vec_capacity items.old ≤ vec_capacity items.new }
{
    items.push_reserved(item);
}

/// The row of a newborn goes behind the others, into room that was reserved.
pub fn put_newborn(rows: &mut Vec<Row>, rooms: &mut Vec<Boxed<Live>>, newborn: Newborn)
    requires rows { vec_len rows.old < vec_capacity rows.old }
    requires rooms { 0 < length rooms.old.items }
    ensures items { rows.new.items ≡ rows.old.items ++ newborn ∷ [] }
    ensures room { vec_capacity rows.old ≤ vec_capacity rows.new }
    ensures rooms { length rooms.old.items ≤ length rooms.new.items + 1 }
{
    let row = newborn.into_row(rooms);
    put_behind(rows, row);
}

/// Rooms for so many exchanges that are to be born, with those that are there.
pub fn make_rooms(
    alloc: Global,
    vacant: &mut Option<Boxed<Live>>,
    rooms: &mut Vec<Boxed<Live>>,
    count: usize,
) -> Result<(), NoMemory>
    ensures more { length rooms.old.items ≤ length rooms.new.items }
    ensures ok { OnOk result (count ≤ length rooms.new.items) }
{
    for _index in rooms.len()..count {
        rooms.push(room_for(alloc, vacant)?)?;
    }
    Ok(())
}

/// A copy leaves its queue.
pub fn start(row: &mut Row)
    ensures { row.new ≡ started row.old }
{
    row.stage = Stage::New;
}

/// What an exchange has while it lives is taken out, to be put back; where it has nothing yet, room for that. On `NoMemory` the row is
/// as before.
pub fn take_room(
    row: &mut Row,
    alloc: Global,
    vacant: &mut Option<Boxed<Live>>,
) -> Result<Room, NoMemory>
    ensures was { IfOk result (λ r. WasRow r.is_own r.live row.old row.new) }
    ensures known { IfOk result (λ r. row.old ≡ record row.new { birth = r.live.birth; cursor = row.old.cursor; request = row.old.request; fault = r.live.fault }) }
    ensures err { OnErr result (row.new ≡ row.old) }
{
    row.kept.take_room(alloc, vacant)
}

/// The room that was taken from a row isn't needed: the row is as before it was.
pub fn leave_room(row: &mut Row, room: Room)
    ensures { (old : ARow) → WasRow room.is_own room.live old row.old → row.new ≡ old }
{
    if room.is_own {
        put_live(row, room.live);
    }
}

/// What an exchange has while it lives is taken out, to be put back.
pub fn take_live(row: &mut Row) -> Option<Boxed<Live>>
    ensures { MatchOption result (row.old.cursor ≡ None) (λ l. row.old ≡ with_live l row.new) }
{
    match mem::replace(&mut row.kept, Kept::Nothing) {
        Kept::Live(live) => Some(live),
        other => {
            row.kept = other;
            None
        }
    }
}

/// What an exchange has while it lives is put back.
pub fn put_live(row: &mut Row, live: Boxed<Live>)
    ensures { row.new ≡ with_live live row.old }
{
    row.kept = Kept::Live(live);
}

/// The exchange goes on, and asks what is put back with what it has.
pub fn ask(row: &mut Row, live: Boxed<Live>)
    ensures { row.new ≡ record (with_live live row.old) { stage = Asks } }
{
    row.kept = Kept::Live(live);
    row.stage = Stage::Asks;
}

/// The request is answered by this journal entry; it is handed out.
pub fn answer(row: &mut Row, entry: usize) -> Option<Request>
    ensures row { row.new ≡ answered entry row.old }
    ensures request { result ≡ row.old.request }
{
    row.stage = Stage::Answered(entry);
    row.kept.take_request()
}

/// The worker takes the exchange in hand; its request is handed out.
pub fn hold(row: &mut Row, worker: u32) -> Option<Request>
    ensures row { row.new ≡ held worker row.old }
    ensures request { result ≡ row.old.request }
{
    row.stage = Stage::Held(worker);
    row.kept.take_request()
}

/// The exchange waits until its parts, which this journal entry made, have ended; its request is handed out.
pub fn join(row: &mut Row, entry: usize) -> Option<Request>
    ensures row { row.new ≡ joining entry row.old }
    ensures request { result ≡ row.old.request }
{
    row.stage = Stage::Joining(entry);
    row.kept.take_request()
}

/// The exchange sleeps until this moment, by the answer of this journal entry; its request is handed out.
pub fn sleep(row: &mut Row, entry: usize, due: u64) -> Option<Request>
    ensures row { row.new ≡ sleeping entry due row.old }
    ensures request { result ≡ row.old.request }
{
    row.stage = Stage::Asleep { entry, due };
    row.kept.take_request()
}

/// What it has waited for has come: the last of its parts has ended, or its moment is there.
pub fn wake(row: &mut Row)
    ensures { row.new ≡ woken row.old }
{
    match row.stage {
        Stage::Joining(entry) | Stage::Asleep { entry, .. } => row.stage = Stage::Answered(entry),
        _ => {}
    }
}

/// The exchange ends so.
pub fn close(row: &mut Row, stage: Stage)
    ensures { row.new ≡ closed stage row.old }
{
    row.stage = stage;
    row.kept = Kept::Nothing;
}

/// The exchange is ended for want of memory; the end of a part is handed out, with the message that it was born with. It takes no
/// memory.
pub fn starve(row: &mut Row) -> Option<Ended>
    ensures row { row.new ≡ closed (Stage.Starved) row.old }
    ensures ended { result ≡ starved_end row.old.birth row.old.fault }
{
    row.stage = Stage::Starved;
    mem::replace(&mut row.kept, Kept::Nothing).starved()
}

/// The stage of an end.
fn stage_of(end: &End) -> Stage
    ensures { result ≡ stage_of end.now }
{
    match end {
        End::Completed => Stage::Completed,
        End::Handled => Stage::Handled,
        End::Failed(_) => Stage::Failed,
    }
}

/// A live exchange ends by this end, and gives up what it had.
fn finish(
    row: &mut Row,
    alloc: Global,
    vacant: &mut Option<Boxed<Live>>,
    live: Boxed<Live>,
    end: End,
)
    ensures { row.new ≡ finished end row.old }
{
    row.stage = stage_of(&end);
    row.kept = match end {
        End::Completed | End::Handled => left_vacant(vacant, live),
        End::Failed(fault) => left_failed(alloc, live, fault),
    };
}

/// The end that an exchange asks for, handed out; any other request is dropped.
pub fn end_asked(request: Option<Request>) -> Option<End>
    ensures { result ≡ end_asked request }
{
    match request {
        Some(Request::Finish { end, message, .. }) => {
            drop(message);
            Some(end)
        }
        other => {
            drop(other);
            None
        }
    }
}

/// The line of the log that an exchange asks for, handed out; any other request is dropped.
pub fn line_asked(request: Option<Request>) -> Option<(Text, Text)>
    ensures { result ≡ line_asked request }
{
    match request {
        Some(Request::Log { name, text }) => Some((name, text)),
        other => {
            drop(other);
            None
        }
    }
}

/// How many ticks an exchange asks to wait; None for any other request.
pub fn ticks_asked(row: &Row) -> Option<u64>
    ensures { result ≡ ticks_asked row.now.request }
{
    match row.kept.request() {
        Some(Request::Wait { ticks }) => Some(*ticks),
        _ => None,
    }
}

/// The queue that is offered to, and whether the copy is dropped where the queue is full; None for any other request.
pub fn offer_asked(row: &Row) -> Option<(u32, bool)>
    ensures { result ≡ offer_asked row.now.request }
{
    match row.kept.request() {
        Some(Request::Offer { queue, discard, .. }) => Some((*queue, *discard)),
        _ => None,
    }
}

/// The message that is offered to a queue, handed out; any other request is dropped.
pub fn offered_message(request: Option<Request>) -> Option<Message>
    ensures { result ≡ offered_message request }
{
    match request {
        Some(Request::Offer { message, .. }) => Some(message),
        other => {
            drop(other);
            None
        }
    }
}

/// A copy of the end that a part asks for, which its parent is told; None for any other exchange.
pub fn part_end(row: &Row) -> Result<Option<End>, NoMemory>
    ensures { IfOk result (λ e. e ≡ part_end row.now.born row.now.request) }
{
    match (row.born, row.kept.request()) {
        (Born::Part { .. }, Some(Request::Finish { end, .. })) => Ok(Some(end.copy()?)),
        _ => Ok(None),
    }
}

/// The end and the message that an exchange asks to end with, handed out; any other request is dropped.
fn finish_parts(request: Option<Request>) -> (Option<End>, Option<Message>)
    ensures end { result.0 ≡ end_asked request }
    ensures message { result.1 ≡ last_message request }
{
    match request {
        Some(Request::Finish { end, message, .. }) => (Some(end), Some(message)),
        other => {
            drop(other);
            (None, None)
        }
    }
}

/// An end with its message, where that is there.
fn ended_with(end: End, message: Option<Message>) -> Option<Ended>
    ensures { result ≡ ended_with (Some end) message }
{
    let message = message?;
    Some(Ended { end, message })
}

/// The exchange ends by the end that it asks for; its message is handed out with this end, which its parent is told.
pub fn finish_told(
    row: &mut Row,
    alloc: Global,
    vacant: &mut Option<Boxed<Live>>,
    told: End,
) -> Option<Ended>
    ensures row { row.new ≡ finished_asked row.old }
    ensures ended { result ≡ ended_with (Some told) (last_message row.old.request) }
{
    match mem::replace(&mut row.kept, Kept::Nothing) {
        Kept::Live(mut live) => {
            let (end, message) = finish_parts(live.get_mut().take_request());
            match end {
                Some(end) => finish(row, alloc, vacant, live, end),
                None => row.kept = Kept::Live(live),
            }
            ended_with(told, message)
        }
        other => {
            row.kept = other;
            drop(told);
            None
        }
    }
}

/// The exchange ends by the end that it asks for, and nobody is told.
pub fn finish_alone(row: &mut Row, alloc: Global, vacant: &mut Option<Boxed<Live>>)
    ensures { row.new ≡ finished_asked row.old }
{
    match mem::replace(&mut row.kept, Kept::Nothing) {
        Kept::Live(mut live) => match live.get_mut().take_end() {
            Some(end) => finish(row, alloc, vacant, live, end),
            None => row.kept = Kept::Live(live),
        },
        other => row.kept = other,
    }
}

/// How many parts are asked for.
pub fn count_asked(row: &Row) -> usize
    ensures { result ≡ count_asked row.now.request }
{
    match row.kept.request() {
        Some(Request::Spawn { parts }) => parts.items().len(),
        _ => 0,
    }
}

/// The seeds of the parts that are asked for, handed out; any other request is dropped.
pub fn seeds_asked(request: Option<Request>) -> Option<Vec<Seed>>
    ensures { option_map (λ s. s.items) result ≡ seeds_asked request }
{
    match request {
        Some(Request::Spawn { parts }) => Some(parts.into_vec()),
        other => {
            drop(other);
            None
        }
    }
}

/// The exchange ends by this end, as its source took it.
pub fn end_by(
    row: &mut Row,
    alloc: Global,
    vacant: &mut Option<Boxed<Live>>,
    end: End,
    answer: &Answer,
)
    requires { IsSome row.old.cursor }
    ensures { row.new ≡ ended_by end answer.now row.old }
{
    match answer {
        Answer::CommitFailed => close(row, Stage::NotCommitted),
        _ => match mem::replace(&mut row.kept, Kept::Nothing) {
            Kept::Live(live) => finish(row, alloc, vacant, live, end),
            Kept::Nothing | Kept::Failed(_) => unreachable!(),
        },
    }
}
