ghost use Rattle.std.specs.Prelude.{◌≡◌, ◌+◌, ◌<◌, ◌≤◌, ◌-◌, ◌++◌, ◌∷◌, [], OnOk, length, slice_set, slice_get, Some, IsSome, All, filter};
ghost use Rattle.eip_tables.specs.Row.{Row as ARow};
ghost use Rattle.std.specs.Prelude.{OnErr};
ghost use Rattle.eip_tables.specs.declared.row.Stage.TheVariants.{Starved};
ghost use Rattle.eip_tables.specs.Moves.{started, answered, held, joining, sleeping, closed, starved_end, last_message, ended_with, finished_asked, ended_by};
ghost use Rattle.eip_tables.specs.Joins.{MayTell, Tells, Wakes};
ghost use Rattle.eip_tables.specs.Parts.{seed_rows, starving_faults, rows_behind};
ghost use Rattle.eip_tables.specs.Groups.{group_rows};
ghost use Rattle.eip_tables.specs.State.{outside_at, is_wanted};
ghost use Rattle.eip_tables.specs.Numbers.{IsNumberOf};
ghost use Rattle.eip_history.specs.Rules.{first};
ghost use Rattle.eip_rows.specs.First.{CanBegin};
ghost use Rattle.eip_tables.specs.Look.{HasCursor, LookedAt, FirstSeen};

use crate::look::{look_at, look_first};
use eip_aggregator::Closed;
use eip_exchange::{End, Ended, Fault};
use eip_frames::{Answer, Request, Seed};
use eip_join::Joins;
use eip_ledger::Entry;
use eip_route::RouteSet;
use eip_tables::groups;
use eip_tables::joins::finish;
use eip_tables::live::Live;
use eip_tables::parts::{self, Parent};
use eip_tables::rising::RisingNumbers;
use eip_tables::row::{self, Newborn, Row, make_rooms, put_newborn};
use eip_tables::wanted::first_wanted;
use eip_text::{Boxed, NoMemory};
use std::alloc::Global;
use std::marker::Model;

/// The rows of all exchanges, by number from 1, with room that is reserved before rows are added: a place for each row, and an
/// allocation for what its exchange has.
pub struct Rows {
    alloc: Global,
    rows: Vec<Row>,
    // Where exchanges that are born find room for what they have.
    rooms: Vec<Boxed<Live>>,
    // The room of the exchange that ended last, until another one needs it.
    vacant: Option<Boxed<Live>>,
}

impl Drop for Rows {
    fn drop(self) {
        let Rows {
            alloc: _,
            rows,
            rooms,
            vacant,
        } = self;
        drop(rows);
        drop(rooms);
        drop(vacant);
    }
}

impl Model for Rows {
    ghost use Rattle.std.specs.Prelude.{vec_capacity, vec_len, ◌-◌, length, min};
    ghost use Rattle.eip_tables.specs.Numbers.{TableView};
    ghost use Rattle.eip_tables.specs.Row.{Row as TheRow};

    ghost Value = { TableView TheRow };

    ghost view = { λ r. record { items = r.rows.items; spare = min (vec_capacity r.rows - vec_len r.rows) (length r.rooms.items) } };
}

impl Rows {
    /// No rows, without memory.
    pub fn new(alloc: Global) -> Rows
        ensures { result.items ≡ [] }
    {
        Rows {
            alloc,
            rows: Vec::new(alloc),
            rooms: Vec::new(alloc),
            vacant: None,
        }
    }

    /// How many exchanges there are.
    pub fn len(&self) -> usize
        ensures { result ≡ length self.now.items }
    {
        self.rows.len()
    }

    /// Room for `count` more rows.
    pub fn reserve(&mut self, count: usize) -> Result<(), NoMemory>
        ensures items { self.new.items ≡ self.old.items }
        ensures ok { OnOk result (count ≤ self.new.spare) }
        ensures spare { self.old.spare ≤ self.new.spare }
    {
        self.rows.reserve(count)?;
        make_rooms(self.alloc, &mut self.vacant, &mut self.rooms, count)
    }

    /// The row of a newborn goes behind the others, into room that was reserved.
    pub fn put_last(&mut self, newborn: Newborn)
        requires { 0 < self.old.spare }
        ensures items { self.new.items ≡ self.old.items ++ newborn ∷ [] }
        ensures spare { self.old.spare ≤ self.new.spare + 1 }
    {
        put_newborn(&mut self.rows, &mut self.rooms, newborn);
    }

    /// The row of an exchange.
    pub fn get(&self, number: u64) -> &Row
        requires above { 0 < number }
        requires within { number ≤ length self.now.items }
        ensures { slice_get self.now.items (number - 1) ≡ Some result.now }
    {
        &self.rows[(number - 1) as usize]
    }

    /// The exchange leaves its queue.
    pub fn start(&mut self, number: u64)
        requires above { 0 < number }
        requires within { number ≤ length self.old.items }
        ensures items { (r : ARow) → slice_get self.old.items (number - 1) ≡ Some r → self.new.items ≡ slice_set self.old.items (number - 1) (started r) }
        ensures spare { self.old.spare ≤ self.new.spare }
    {
        row::start(&mut self.rows[(number - 1) as usize]);
    }

    /// Looks for the first time at what the exchange asks; these are the entries of the journal. On `NoMemory` the rows are as before.
    pub fn begin(
        &mut self,
        number: u64,
        alloc: Global,
        set: &RouteSet,
        entries: &[Entry],
    ) -> Result<(), NoMemory>
        requires above { 0 < number }
        requires within { number ≤ length self.old.items }
        requires birth { (r : ARow) → slice_get self.old.items (number - 1) ≡ Some r → CanBegin set.now entries.now number r }
        ensures ok { OnOk result ((r : ARow) → slice_get self.old.items (number - 1) ≡ Some r → (new : ARow) × (self.new.items ≡ slice_set self.old.items (number - 1) new) × FirstSeen set.now entries.now number r new) }
        ensures err { OnErr result (self.new.items ≡ self.old.items) }
        ensures spare { self.old.spare ≤ self.new.spare }
    {
        look_first(
            &mut self.rows[(number - 1) as usize],
            alloc,
            &mut self.vacant,
            set,
            entries,
            number,
        )
    }

    /// Gives the exchange's cursor an answer, behind which it goes on. On `NoMemory` the rows are as before.
    pub fn look(
        &mut self,
        number: u64,
        alloc: Global,
        set: &RouteSet,
        answer: &Answer,
    ) -> Result<(), NoMemory>
        requires above { 0 < number }
        requires within { number ≤ length self.old.items }
        requires cursor { (r : ARow) → slice_get self.old.items (number - 1) ≡ Some r → HasCursor set.now answer.now r }
        ensures ok { OnOk result ((r : ARow) → slice_get self.old.items (number - 1) ≡ Some r → (new : ARow) × (self.new.items ≡ slice_set self.old.items (number - 1) new) × LookedAt set.now answer.now r new) }
        ensures err { OnErr result (self.new.items ≡ self.old.items) }
        ensures spare { self.old.spare ≤ self.new.spare }
    {
        look_at(&mut self.rows[(number - 1) as usize], alloc, set, answer)
    }

    /// What the exchange asks is answered by this journal entry; it is handed out.
    pub fn answer(&mut self, number: u64, entry: usize) -> Option<Request>
        requires above { 0 < number }
        requires within { number ≤ length self.old.items }
        ensures items { (r : ARow) → slice_get self.old.items (number - 1) ≡ Some r → self.new.items ≡ slice_set self.old.items (number - 1) (answered entry r) }
        ensures request { (r : ARow) → slice_get self.old.items (number - 1) ≡ Some r → result ≡ r.request }
        ensures spare { self.old.spare ≤ self.new.spare }
    {
        row::answer(&mut self.rows[(number - 1) as usize], entry)
    }

    /// The worker has the exchange in hand; what it asks is handed out.
    pub fn hold(&mut self, number: u64, worker: u32) -> Option<Request>
        requires above { 0 < number }
        requires within { number ≤ length self.old.items }
        ensures items { (r : ARow) → slice_get self.old.items (number - 1) ≡ Some r → self.new.items ≡ slice_set self.old.items (number - 1) (held worker r) }
        ensures request { (r : ARow) → slice_get self.old.items (number - 1) ≡ Some r → result ≡ r.request }
        ensures spare { self.old.spare ≤ self.new.spare }
    {
        row::hold(&mut self.rows[(number - 1) as usize], worker)
    }

    /// The exchange waits until its parts, which this journal entry made, have ended; what it asked is handed out.
    pub fn join(&mut self, number: u64, entry: usize) -> Option<Request>
        requires above { 0 < number }
        requires within { number ≤ length self.old.items }
        ensures items { (r : ARow) → slice_get self.old.items (number - 1) ≡ Some r → self.new.items ≡ slice_set self.old.items (number - 1) (joining entry r) }
        ensures request { (r : ARow) → slice_get self.old.items (number - 1) ≡ Some r → result ≡ r.request }
        ensures spare { self.old.spare ≤ self.new.spare }
    {
        row::join(&mut self.rows[(number - 1) as usize], entry)
    }

    /// The exchange sleeps until this moment, by the answer of this journal entry; what it asked is handed out.
    pub fn sleep(&mut self, number: u64, entry: usize, due: u64) -> Option<Request>
        requires above { 0 < number }
        requires within { number ≤ length self.old.items }
        ensures items { (r : ARow) → slice_get self.old.items (number - 1) ≡ Some r → self.new.items ≡ slice_set self.old.items (number - 1) (sleeping entry due r) }
        ensures request { (r : ARow) → slice_get self.old.items (number - 1) ≡ Some r → result ≡ r.request }
        ensures spare { self.old.spare ≤ self.new.spare }
    {
        row::sleep(&mut self.rows[(number - 1) as usize], entry, due)
    }

    /// The rows of the parts that these seeds make go behind the others, into room that was reserved, each with a fault for the case
    /// that it is starved.
    pub fn put_parts(&mut self, parent: Parent, seeds: Vec<Seed>, faults: Vec<Fault>)
        requires room { length seeds.items ≤ self.old.spare }
        requires indexes { parent.at.index + length seeds.items ≤ 4294967296 }
        requires faults { faults.items ≡ starving_faults (length seeds.items) }
        ensures items { self.new.items ≡ self.old.items ++ seed_rows parent (length self.old.items + 1) parent.at.index seeds.items }
        ensures spare { self.old.spare ≤ self.new.spare + length seeds.items }
    {
        parts::put_parts(&mut self.rows, &mut self.rooms, parent, seeds, faults);
    }

    /// The rows of the exchanges of groups that close together go behind the others, into room that was reserved.
    pub fn put_groups(&mut self, set: &RouteSet, closed: Vec<Closed>)
        requires few { length set.now.routes ≤ 256 }
        requires room { length closed.items ≤ self.old.spare }
        ensures items { self.new.items ≡ self.old.items ++ group_rows set.now (length self.old.items + 1) closed.items }
        ensures spare { self.old.spare ≤ self.new.spare + length closed.items }
    {
        groups::put_groups(&mut self.rows, &mut self.rooms, set, closed);
    }

    /// What the exchange has waited for has come: the last of its parts has ended, or its moment is there.
    pub fn wake(&mut self, number: u64)
        requires above { 0 < number }
        requires within { number ≤ length self.old.items }
        ensures items { self.new.items ≡ rows_behind (Some number) self.old.items }
        ensures spare { self.old.spare ≤ self.new.spare }
    {
        row::wake(&mut self.rows[(number - 1) as usize]);
    }

    /// The exchange is ended for want of memory; the end of a part is handed out, with the message that it was born with.
    pub fn starve(&mut self, number: u64) -> Option<Ended>
        requires above { 0 < number }
        requires within { number ≤ length self.old.items }
        ensures items { (r : ARow) → slice_get self.old.items (number - 1) ≡ Some r → self.new.items ≡ slice_set self.old.items (number - 1) (closed Starved r) }
        ensures ended { (r : ARow) → slice_get self.old.items (number - 1) ≡ Some r → result ≡ starved_end r.birth r.fault }
        ensures spare { self.old.spare ≤ self.new.spare }
    {
        row::starve(&mut self.rows[(number - 1) as usize])
    }

    /// The exchange ends by the end that it asks for, and the join of its parent is told, where this end is for one. The parent, where
    /// this was the last of its parts.
    pub fn finish_asked(&mut self, joins: &mut Joins, number: u64, told: Option<End>) -> Option<u64>
        requires above { 0 < number }
        requires within { number ≤ length self.old.items }
        requires may { (r : ARow) → slice_get self.old.items (number - 1) ≡ Some r → MayTell r.born number (ended_with told (last_message r.request)) joins.old }
        ensures items { (r : ARow) → slice_get self.old.items (number - 1) ≡ Some r → self.new.items ≡ slice_set self.old.items (number - 1) (finished_asked r) }
        ensures tells { (r : ARow) → slice_get self.old.items (number - 1) ≡ Some r → Tells r.born number (ended_with told (last_message r.request)) joins.old joins.new }
        ensures woken { (r : ARow) → slice_get self.old.items (number - 1) ≡ Some r → Wakes r.born joins.new result }
        ensures spare { self.old.spare ≤ self.new.spare }
    {
        finish(
            &mut self.rows[(number - 1) as usize],
            self.alloc,
            &mut self.vacant,
            joins,
            number,
            told,
        )
    }

    /// The exchange ends by this end, as its source took it.
    pub fn end_by(&mut self, number: u64, end: End, answer: &Answer)
        requires above { 0 < number }
        requires within { number ≤ length self.old.items }
        requires lives { (r : ARow) → slice_get self.old.items (number - 1) ≡ Some r → IsSome r.cursor }
        ensures items { (r : ARow) → slice_get self.old.items (number - 1) ≡ Some r → self.new.items ≡ slice_set self.old.items (number - 1) (ended_by end answer.now r) }
        ensures spare { self.old.spare ≤ self.new.spare }
    {
        row::end_by(
            &mut self.rows[(number - 1) as usize],
            self.alloc,
            &mut self.vacant,
            end,
            answer,
        );
    }

    /// The first of these numbers whose exchange is known to ask somebody outside, or is not, as it is wanted.
    pub fn first_wanted(&self, numbers: &RisingNumbers, outside: bool) -> Option<u64>
        requires { All (IsNumberOf self.now.items) numbers.now.numbers }
        ensures { result ≡ first (filter (λ x. is_wanted outside (outside_at self.now.items x)) numbers.now.numbers) }
    {
        first_wanted(self.rows.as_slice(), numbers, outside)
    }
}
