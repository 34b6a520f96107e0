ghost use Rattle.std.specs.Prelude.{◌≡◌, ◌+◌, ◌-◌, ◌<◌, ◌≤◌, [], ℕ, length, IfOk, OnOk, OnErr, Some, slice_get, IfSome, IfNone, IsTrue, ◌↔◌, ◌≢◌, ◌==◌, None, true, false};
ghost use Rattle.eip_ledger.specs.declared.entry.Kind.TheVariants.{Pull, Accept, Refuse, SourceEnd, SourceFault, Start, Take, Answer as Answered};
ghost use Rattle.eip_history.specs.Births.{births, groups, asked};
ghost use Rattle.eip_history.specs.Own.{turns};
ghost use Rattle.eip_ledger.specs.declared.place.Place.TheVariants.{Ready, InHand};
ghost use Rattle.eip_history.specs.Place.{ready_numbers, place, is_startable};
ghost use Rattle.eip_history.specs.Rules.{May, first, startable, IsBelow, outside_asked, any_group};
ghost use Rattle.eip_history.specs.Stop.{stop_of, is_over, will_close};
ghost use Rattle.eip_plan.specs.Simple.{AnswersSimply};
ghost use Rattle.eip_tables.specs.declared.asking.Asked.TheVariants.{Unknown};
ghost use Rattle.eip_history.specs.Texts.{notes};
ghost use Rattle.eip_history.specs.Tables.{without};
ghost use Rattle.eip_frames.specs.declared.answer.Answer.TheVariants.{Noted, Entered};
ghost use Rattle.eip_frames.specs.declared.request.Request.{Request as ARequest};
ghost use Rattle.eip_frames.specs.Fits.{fits, is_outside};
ghost use Rattle.eip_tables.specs.Moves.{end_asked};
ghost use Rattle.eip_tables.specs.Outside.{is_among, outside_after, outside_looked, unlooked_numbers, IsAsked};
ghost use Rattle.eip_tables.specs.Asking.{asked_kind, is_outside_kind, AsksLine};
ghost use Rattle.eip_tables.specs.Offers.{AsksOffer, AsksCall};
ghost use Rattle.eip_tables.specs.Rows.{IsIdleSource};
ghost use Rattle.eip_books.specs.View.{plan, IsLegalRun, Adds, AddsNone, AddsAnswer, StartsFirst, IsSame, IsKnown};
ghost use Rattle.eip_tables.specs.declared.asking.Inner.TheVariants.{Did, Outside};
ghost use Rattle.eip_tables.specs.Places.{inner_of};
ghost use Rattle.std.specs.Prelude.{option_map};
ghost use Rattle.eip_history.specs.BookText.{origin_at};
ghost use Rattle.eip_tables.specs.Origin.{origin_seen, ending_at};

use crate::ticket::Ticket;
use eip_aggregator::Groups;
use eip_exchange::{End, Ending, Message};
use eip_frames::Answer;
use eip_idempotent::Repo;
use eip_join::Joins;
use eip_ledger::{Entry, Journal, Kind, Note, Place, Refused, Stop};
use eip_redelivery::Retries;
use eip_route::RouteSet;
use eip_rows::look::offered_birth;
use eip_rows::rows::Rows;
use eip_seda::{OfferFault, Queues};
use eip_tables::asking::{Asked, Inner, asked_of};
use eip_tables::keys::ending_by;
use eip_tables::notes::{append_answer, keep_line, make_room, refusal};
use eip_tables::origin::{OriginView, ending_of, origin_born};
use eip_tables::places::place_of;
use eip_tables::queues::{empty_queues, leave};
use eip_tables::rising::RisingNumbers;
use eip_tables::row::{Newborn, SourceState, Stage, end_asked, offer_asked, offered_message};
use eip_tables::sources::Sources;
use eip_tables::stop::{first_fault, stop_by};
use eip_tables::table::Table;
use eip_text::{NoMemory, Text};
use std::alloc::Global;
use std::marker::Model;

/// The journal of a run with the tables that stand for it.
#[derive(Drop)]
pub struct Books {
    pub(crate) alloc: Global,
    pub(crate) set: RouteSet,
    pub(crate) journal: Journal,
    pub(crate) rows: Rows,
    pub(crate) ready: RisingNumbers,
    pub(crate) sources: Sources,
    pub(crate) turns: u64,
    pub(crate) fault: Option<u32>,
    pub(crate) notes: Table<Note>,
    pub(crate) taken: u64,
    pub(crate) pulled: u64,
    pub(crate) live: u64,
    pub(crate) queues: Queues,
    pub(crate) joins: Joins,
    pub(crate) clock: u64,
    pub(crate) sleepers: Retries,
    pub(crate) groups: Groups,
    pub(crate) keys: Repo,
    pub(crate) room: u64,
}

impl Model for Books {
    ghost use Rattle.std.specs.Prelude.{map};
    ghost use Rattle.eip_books.specs.View.{BooksView};

    ghost Value = { BooksView };

    ghost use Rattle.eip_tables.specs.Numbers.{row_numbers};
    ghost use Rattle.eip_tables.specs.State.{known_of, row_outside};

    ghost view = { λ b. record { set = b.set; journal = b.journal; room = b.room; known = map known_of b.rows.items; outside = row_numbers row_outside 1 b.rows.items } };

    ghost use Rattle.eip_books.specs.Facts.{BooksFacts};

    ghost invariant = { BooksFacts };
}

impl Books {
    /// The books of a run that has no entry yet.
    pub fn new(alloc: Global, set: RouteSet, workers: u32, turns: u32) -> Result<Books, NoMemory>
        requires few { length set.routes ≤ 256 }
        requires workers { workers ≤ 16 }
        requires some { 1 ≤ turns }
        requires limit { turns ≤ 1000000 }
        ensures set { IfOk result (λ b. b.set ≡ set) }
        ensures workers { IfOk result (λ b. b.journal.workers ≡ workers) }
        ensures turns { IfOk result (λ b. b.journal.turns ≡ turns) }
        ensures past { IfOk result (λ b. b.journal.past ≡ []) }
        ensures room { IfOk result (λ b. b.room ≡ 0) }
        ensures known { IfOk result (λ b. b.known ≡ []) }
        ensures outside { IfOk result (λ b. b.outside ≡ []) }
    {
        let sources = Sources::new(alloc, &set)?;
        let queues = empty_queues(alloc, &set)?;
        Ok(Books {
            alloc,
            set,
            journal: Journal::new(alloc, workers, turns),
            rows: Rows::new(alloc),
            ready: RisingNumbers::new(alloc),
            sources,
            turns: 0,
            fault: None,
            notes: Table::new(alloc),
            taken: 0,
            pulled: 0,
            live: 0,
            queues,
            joins: Joins::new(alloc),
            clock: 0,
            sleepers: Retries::new(alloc),
            groups: Groups::new(alloc),
            keys: Repo::new(alloc),
            room: 0,
        })
    }

    /// The set whose run this is.
    pub fn set(&self) -> &RouteSet
        ensures { result.now ≡ self.now.set }
    {
        &self.set
    }

    /// The journal so far.
    pub fn journal(&self) -> &Journal
        ensures journal { result.now ≡ self.now.journal }
        ensures legal { IsLegalRun self.now }
        ensures simple { AnswersSimply self.now.journal.past }
    {
        &self.journal
    }

    /// The journal, and nothing else, without memory.
    pub fn into_journal(self) -> Journal
        ensures { result ≡ self.journal }
    {
        let Books { journal, .. } = self;
        journal
    }

    /// The source of a route is pulled.
    pub fn pull(&mut self, worker: u32, source: u32)
        requires worker { worker ≤ self.old.journal.workers }
        requires may { May (plan self.old) self.old.journal.turns self.old.journal.past worker (Pull source) }
        requires room { 1 ≤ self.old.room }
        ensures adds { Adds self.old self.new worker (Pull source) }
        ensures legal { IsLegalRun self.new }
        ensures room { self.new.room + 1 ≡ self.old.room }
        ensures known { self.new.known ≡ self.old.known }
        ensures outside { self.new.outside ≡ self.old.outside }
    {
        self.journal.append_reserved(Entry {
            worker,
            kind: Kind::Pull(source),
        });
        self.sources.set(source, SourceState::Out(worker));
        self.pulled += 1;
        self.room -= 1;
    }

    /// The pulled source gave an item, which is a new exchange.
    pub fn accept(&mut self, worker: u32, source: u32, item: Text, message: Message)
        requires worker { worker ≤ self.old.journal.workers }
        requires may { May (plan self.old) self.old.journal.turns self.old.journal.past worker (Accept source item message) }
        ensures adds { Adds self.old self.new worker (Accept source item message) }
        ensures legal { IsLegalRun self.new }
        ensures room { self.new.room ≡ self.old.room }
        ensures outside { self.new.outside ≡ self.old.outside }
    {
        let born = self.journal.entries().len();
        self.journal.accept_reserved(worker, source, item, message);
        self.rows.put_last(Newborn::of_item(born));
        let number = self.rows.len() as u64;
        self.ready.put_last(number);
        self.sources.set(source, SourceState::Idle);
        self.turns += 1;
        self.pulled -= 1;
        self.live += 1;
    }

    /// The pulled source gave an item that is no exchange.
    pub fn refuse(&mut self, worker: u32, source: u32, item: Text, cause: Refused)
        requires worker { worker ≤ self.old.journal.workers }
        requires may { May (plan self.old) self.old.journal.turns self.old.journal.past worker (Refuse source item cause) }
        ensures adds { Adds self.old self.new worker (Refuse source item cause) }
        ensures legal { IsLegalRun self.new }
        ensures room { self.new.room ≡ self.old.room }
        ensures known { self.new.known ≡ self.old.known }
        ensures outside { self.new.outside ≡ self.old.outside }
    {
        self.journal.append_reserved(Entry {
            worker,
            kind: Kind::Refuse {
                source,
                item,
                cause,
            },
        });
        self.sources.set(source, SourceState::Idle);
        self.turns += 1;
        self.pulled -= 1;
    }

    /// The pulled source has no more.
    pub fn source_end(&mut self, worker: u32, source: u32)
        requires worker { worker ≤ self.old.journal.workers }
        requires may { May (plan self.old) self.old.journal.turns self.old.journal.past worker (SourceEnd source) }
        ensures adds { Adds self.old self.new worker (SourceEnd source) }
        ensures legal { IsLegalRun self.new }
        ensures room { self.new.room ≡ self.old.room }
        ensures known { self.new.known ≡ self.old.known }
        ensures outside { self.new.outside ≡ self.old.outside }
    {
        self.journal.append_reserved(Entry {
            worker,
            kind: Kind::SourceEnd(source),
        });
        self.sources.set(source, SourceState::Done);
        self.pulled -= 1;
    }

    /// The pulled source failed and is pulled no more.
    pub fn source_fault(&mut self, worker: u32, source: u32)
        requires worker { worker ≤ self.old.journal.workers }
        requires may { May (plan self.old) self.old.journal.turns self.old.journal.past worker (SourceFault source) }
        ensures adds { Adds self.old self.new worker (SourceFault source) }
        ensures legal { IsLegalRun self.new }
        ensures room { self.new.room ≡ self.old.room }
        ensures known { self.new.known ≡ self.old.known }
        ensures outside { self.new.outside ≡ self.old.outside }
    {
        self.journal.append_reserved(Entry {
            worker,
            kind: Kind::SourceFault(source),
        });
        self.sources.set(source, SourceState::Done);
        let first = first_fault(self.fault, source);
        self.fault = first;
        self.pulled -= 1;
    }

    /// Afterwards one pull, start, take or starve needs no memory, and neither does the call that ends such a pull or take.
    pub fn reserve(&mut self) -> Result<(), NoMemory>
        ensures ok { OnOk result (1 ≤ self.new.room) }
        ensures none { AddsNone self.old self.new }
        ensures legal { IsLegalRun self.new }
        ensures room { self.old.room ≤ self.new.room }
        ensures known { self.new.known ≡ self.old.known }
        ensures outside { self.new.outside ≡ self.old.outside }
    {
        if self.room == 0 {
            let hands = (self.pulled + self.taken) as usize;
            self.journal.reserve(hands + 2)?;
            self.rows.reserve(hands + 1)?;
            self.ready.reserve(hands + 1)?;
            self.room = 1;
        }
        Ok(())
    }

    /// Looks at what a Ready exchange asks. On `NoMemory` the books are as before.
    fn look(&mut self, number: u64) -> Result<(), NoMemory>
        requires { place (plan self.old) self.old.journal.past number ≡ Some Ready }
        ensures none { AddsNone self.old self.new }
        ensures legal { IsLegalRun self.new }
        ensures room { self.new.room ≡ self.old.room }
        ensures known { OnOk result (IsKnown self.new.known number) }
        ensures outside { OnOk result (self.new.outside ≡ outside_looked (outside_asked (asked (plan self.old) self.old.journal.past number)) number self.old.outside) }
        ensures err { OnErr result (IsSame self.old self.new) }
    {
        let row = self.rows.get(number);
        match row.stage() {
            Stage::New => {
                self.rows
                    .begin(number, self.alloc, &self.set, self.journal.entries())
            }
            Stage::Answered(entry) => match &self.journal.entries()[entry].kind {
                Kind::Answer { answer, .. } => {
                    self.rows.look(number, self.alloc, &self.set, answer)
                }
                _ => unreachable!(),
            },
            _ => Ok(()),
        }
    }

    /// What a Ready exchange that was looked at asks for.
    fn asked(&self, number: u64) -> Asked
        requires ready { place (plan self.now) self.now.journal.past number ≡ Some Ready }
        requires known { IsKnown self.now.known number }
        ensures kind { (q : ARequest) → slice_get self.now.known (number - 1) ≡ Some (Some q) → result ≡ asked_kind q }
        ensures outside { is_outside_kind result ≡ outside_asked (asked (plan self.now) self.now.journal.past number) }
        ensures some { result ≢ Unknown }
    {
        asked_of(self.rows.get(number))
    }

    /// The line of the log that the exchange asks for is written.
    fn note(&mut self, worker: u32, number: u64) -> Result<(), NoMemory>
        requires worker { worker ≤ self.old.journal.workers }
        requires ready { place (plan self.old) self.old.journal.past number ≡ Some Ready }
        requires below { IsBelow (plan self.old) self.old.journal.turns self.old.journal.past }
        requires line { AsksLine self.old.known number }
        ensures adds { OnOk result (Adds self.old self.new worker (Answered number Noted)) }
        ensures outside { OnOk result (self.new.outside ≡ without number self.old.outside) }
        ensures err { OnErr result (IsSame self.old self.new) }
        ensures legal { IsLegalRun self.new }
        ensures room { self.new.room ≡ self.old.room }
    {
        let needed = 2 * self.room + self.pulled + self.taken + 1;
        make_room(&mut self.journal, &mut self.notes, needed)?;
        let entry = self.journal.entries().len();
        let request = self.rows.answer(number, entry);
        keep_line(&mut self.notes, number, request);
        append_answer(&mut self.journal, worker, number, Answer::Noted);
        self.turns += 1;
        Ok(())
    }

    /// The block of the route that the exchange calls is to run.
    fn enter(&mut self, worker: u32, number: u64) -> Result<(), NoMemory>
        requires worker { worker ≤ self.old.journal.workers }
        requires ready { place (plan self.old) self.old.journal.past number ≡ Some Ready }
        requires below { IsBelow (plan self.old) self.old.journal.turns self.old.journal.past }
        requires call { AsksCall self.old.known number }
        ensures adds { OnOk result (Adds self.old self.new worker (Answered number Entered)) }
        ensures outside { OnOk result (self.new.outside ≡ without number self.old.outside) }
        ensures err { OnErr result (IsSame self.old self.new) }
        ensures legal { IsLegalRun self.new }
        ensures room { self.new.room ≡ self.old.room }
    {
        let needed = 2 * self.room + self.pulled + self.taken + 1;
        make_room(&mut self.journal, &mut self.notes, needed)?;
        let entry = self.journal.entries().len();
        drop(self.rows.answer(number, entry));
        append_answer(&mut self.journal, worker, number, Answer::Entered);
        self.turns += 1;
        Ok(())
    }

    /// A copy of the message that the exchange offers comes into its queue, or the queue is full.
    fn offer(&mut self, worker: u32, number: u64) -> Result<(), NoMemory>
        requires worker { worker ≤ self.old.journal.workers }
        requires ready { place (plan self.old) self.old.journal.past number ≡ Some Ready }
        requires below { IsBelow (plan self.old) self.old.journal.turns self.old.journal.past }
        requires copy { AsksOffer self.old.known number }
        ensures adds { OnOk result (AddsAnswer self.old self.new worker number) }
        ensures outside { OnOk result (self.new.outside ≡ without number self.old.outside) }
        ensures err { OnErr result (IsSame self.old self.new) }
        ensures legal { IsLegalRun self.new }
        ensures room { self.new.room ≡ self.old.room }
    {
        let needed = 2 * self.room + self.pulled + self.taken + 1;
        make_room(&mut self.journal, &mut self.notes, needed)?;
        self.rows.reserve((self.room + self.pulled + 1) as usize)?;
        let next = self.rows.len() as u64 + 1;
        let entry = self.journal.entries().len();
        let row = self.rows.get(number);
        let hops = row.hops();
        let Some((queue, discard)) = offer_asked(row) else {
            unreachable!()
        };
        match self.queues.offer(queue, next) {
            Ok(()) => {
                let Some(message) = offered_message(self.rows.answer(number, entry)) else {
                    unreachable!()
                };
                let birth = offered_birth(&self.set, next, queue, hops, message);
                self.rows.put_last(Newborn::queued(queue, birth));
                append_answer(&mut self.journal, worker, number, Answer::Queued(next));
                self.live += 1;
                self.turns += 1;
                Ok(())
            }
            Err(OfferFault::QueueFull(size)) => {
                drop(self.rows.answer(number, entry));
                append_answer(&mut self.journal, worker, number, refusal(discard, size));
                self.turns += 1;
                Ok(())
            }
            Err(OfferFault::NoMemory) => Err(NoMemory),
        }
    }

    /// Does what a Ready exchange asks for, where no one outside is needed. On `NoMemory` no entry is made.
    pub fn inner(&mut self, worker: u32, number: u64) -> Result<Inner, NoMemory>
        requires worker { worker ≤ self.old.journal.workers }
        requires ready { place (plan self.old) self.old.journal.past number ≡ Some Ready }
        requires below { IsBelow (plan self.old) self.old.journal.turns self.old.journal.past }
        ensures did { IfOk result (λ i. i ≡ Did → AddsAnswer self.old self.new worker number) }
        ensures outside { IfOk result (λ i. i ≡ Outside → AddsNone self.old self.new) }
        ensures exact { IfOk result (λ i. i ≡ inner_of (outside_asked (asked (plan self.old) self.old.journal.past number))) }
        ensures listed { IfOk result (λ i. self.new.outside ≡ outside_after i number self.old.outside) }
        ensures err { OnErr result (AddsNone self.old self.new) }
        ensures kept { OnErr result (self.new.outside ≡ self.old.outside) }
        ensures legal { IsLegalRun self.new }
        ensures room { self.new.room ≡ self.old.room }
    {
        self.look(number)?;
        match self.asked(number) {
            Asked::Line => {
                self.note(worker, number)?;
                Ok(Inner::Did)
            }
            Asked::Route => {
                self.enter(worker, number)?;
                Ok(Inner::Did)
            }
            Asked::Copy => {
                self.offer(worker, number)?;
                Ok(Inner::Did)
            }
            Asked::Parts => {
                self.spawn(worker, number)?;
                Ok(Inner::Did)
            }
            Asked::Ends => {
                self.join(worker, number)?;
                Ok(Inner::Did)
            }
            Asked::Group => {
                self.arrive(worker, number)?;
                Ok(Inner::Did)
            }
            Asked::Key => {
                self.claim(worker, number)?;
                Ok(Inner::Did)
            }
            Asked::Moment => {
                self.wait(worker, number)?;
                Ok(Inner::Did)
            }
            Asked::End => {
                self.finish(worker, number)?;
                Ok(Inner::Did)
            }
            Asked::Outside => Ok(Inner::Outside),
            Asked::Unknown => unreachable!(),
        }
    }

    /// The first exchange of the first queue, by route, in which somebody waits and a consumer is free leaves it. None exactly where
    /// there is no such queue.
    pub fn start(&mut self, worker: u32) -> Option<u64>
        requires worker { worker ≤ self.old.journal.workers }
        requires below { IsBelow (plan self.old) self.old.journal.turns self.old.journal.past }
        requires room { 1 ≤ self.old.room }
        ensures starts { IfSome result (λ x. StartsFirst self.old self.new worker x) }
        ensures room { IfSome result (λ _. self.new.room + 1 ≡ self.old.room) }
        ensures none { IfNone result (self.new ≡ self.old) }
        ensures exact { IfNone result (startable (plan self.old) self.old.journal.past ≡ []) }
        ensures outside { self.new.outside ≡ self.old.outside }
        ensures legal { IsLegalRun self.new }
    {
        let queue = self.queues.first_startable()? as u32;
        let Some(number) = self.queues.start(queue) else {
            unreachable!()
        };
        self.rows.start(number);
        self.ready.put_in(number);
        self.journal.append_reserved(Entry {
            worker,
            kind: Kind::Start { queue, number },
        });
        self.room -= 1;
        Some(number)
    }

    /// The first exchange that waits in this queue leaves it. None exactly where nobody waits there or each of its consumers is at work.
    pub fn start_in(&mut self, worker: u32, queue: u32) -> Option<u64>
        requires worker { worker ≤ self.old.journal.workers }
        requires queue { queue < length self.old.set.routes }
        requires below { IsBelow (plan self.old) self.old.journal.turns self.old.journal.past }
        requires room { 1 ≤ self.old.room }
        ensures may { IfSome result (λ x. May (plan self.old) self.old.journal.turns self.old.journal.past worker (Start queue x)) }
        ensures adds { IfSome result (λ x. Adds self.old self.new worker (Start queue x)) }
        ensures room { IfSome result (λ _. self.new.room + 1 ≡ self.old.room) }
        ensures none { IfNone result (self.new ≡ self.old) }
        ensures exact { IfNone result (is_startable (plan self.old) self.old.journal.past queue ≡ false) }
        ensures outside { self.new.outside ≡ self.old.outside }
        ensures legal { IsLegalRun self.new }
    {
        let Some(number) = self.queues.start(queue) else {
            return None;
        };
        self.rows.start(number);
        self.ready.put_in(number);
        self.journal.append_reserved(Entry {
            worker,
            kind: Kind::Start { queue, number },
        });
        self.room -= 1;
        Some(number)
    }

    /// The least number known as Outside.
    pub fn known_outside(&self) -> Option<u64>
        ensures known { IfSome result (λ x. is_among x self.now.outside ≡ true) }
        ensures least { IfSome result (λ x. (y : ℕ) → y < x → is_among y self.now.outside ≡ false) }
        ensures none { IfNone result (self.now.outside ≡ []) }
        ensures legal { IsLegalRun self.now }
    {
        self.rows.first_wanted(&self.ready, true)
    }

    /// The least number of a Ready exchange that is not known as Outside.
    pub fn unlooked(&self) -> Option<u64>
        ensures { result ≡ first (unlooked_numbers self.now.outside (ready_numbers (plan self.now) self.now.journal.past)) }
    {
        self.rows.first_wanted(&self.ready, false)
    }

    /// A worker takes an exchange that is known as Outside in hand.
    pub fn take(&mut self, worker: u32, number: u64) -> Ticket
        requires worker { worker ≤ self.old.journal.workers }
        requires known { is_among number self.old.outside ≡ true }
        requires below { IsBelow (plan self.old) self.old.journal.turns self.old.journal.past }
        requires room { 1 ≤ self.old.room }
        ensures worker { result.worker ≡ worker }
        ensures number { result.number ≡ number }
        ensures may { May (plan self.old) self.old.journal.turns self.old.journal.past worker (Take number) }
        ensures adds { Adds self.old self.new worker (Take number) }
        ensures asked { IsAsked (plan self.new) self.new.journal.past number result.request }
        ensures of_outside { is_outside result.request ≡ true }
        ensures place { place (plan self.new) self.new.journal.past number ≡ Some (InHand worker) }
        ensures outside { self.new.outside ≡ without number self.old.outside }
        ensures legal { IsLegalRun self.new }
        ensures room { self.new.room + 1 ≡ self.old.room }
    {
        let Some(request) = self.rows.hold(number, worker) else {
            unreachable!()
        };
        self.ready.remove(number);
        self.journal.append_reserved(Entry {
            worker,
            kind: Kind::Take(number),
        });
        self.taken += 1;
        self.room -= 1;
        Ticket {
            worker,
            number,
            request,
        }
    }

    /// An exchange in hand, which did not ask to end, has its answer.
    fn settle_step(&mut self, worker: u32, number: u64, answer: Answer)
        requires worker { worker ≤ self.old.journal.workers }
        requires hand { place (plan self.old) self.old.journal.past number ≡ Some (InHand worker) }
        requires asked { (q : ARequest) × IsAsked (plan self.old) self.old.journal.past number q × (fits q answer ≡ true) × (end_asked (Some q) ≡ None) }
        ensures adds { Adds self.old self.new worker (Answered number answer) }
        ensures legal { IsLegalRun self.new }
        ensures room { self.new.room ≡ self.old.room }
        ensures outside { self.new.outside ≡ self.old.outside }
    {
        let entry = self.journal.entries().len();
        drop(self.rows.answer(number, entry));
        self.ready.put_in(number);
        append_answer(&mut self.journal, worker, number, answer);
        self.turns += 1;
        self.taken -= 1;
    }

    /// An exchange in hand, which asked to end so, ends as its source took it.
    fn settle_end(&mut self, worker: u32, number: u64, end: End, answer: Answer)
        requires worker { worker ≤ self.old.journal.workers }
        requires hand { place (plan self.old) self.old.journal.past number ≡ Some (InHand worker) }
        requires asked { (q : ARequest) × IsAsked (plan self.old) self.old.journal.past number q × (fits q answer ≡ true) × (end_asked (Some q) ≡ Some end) }
        ensures adds { Adds self.old self.new worker (Answered number answer) }
        ensures legal { IsLegalRun self.new }
        ensures room { self.new.room ≡ self.old.room }
        ensures outside { self.new.outside ≡ self.old.outside }
    {
        leave(&mut self.queues, self.rows.get(number).born());
        self.keys.settle(number, ending_by(&end, &answer));
        self.rows.end_by(number, end, &answer);
        append_answer(&mut self.journal, worker, number, answer);
        self.turns += 1;
        self.taken -= 1;
        self.live -= 1;
    }

    /// An exchange in hand has the answer to what it asked.
    pub fn settle(&mut self, ticket: Ticket, answer: Answer)
        requires worker { ticket.worker ≤ self.old.journal.workers }
        requires fits { fits ticket.request answer ≡ true }
        requires place { place (plan self.old) self.old.journal.past ticket.number ≡ Some (InHand ticket.worker) }
        requires asked { IsAsked (plan self.old) self.old.journal.past ticket.number ticket.request }
        ensures adds { Adds self.old self.new ticket.worker (Answered ticket.number answer) }
        ensures legal { IsLegalRun self.new }
        ensures room { self.new.room ≡ self.old.room }
        ensures outside { self.new.outside ≡ self.old.outside }
    {
        let Ticket {
            worker,
            number,
            request,
        } = ticket;
        match end_asked(Some(request)) {
            Some(end) => self.settle_end(worker, number, end, answer),
            None => self.settle_step(worker, number, answer),
        }
    }

    /// The first route whose source may be pulled but for the limit.
    pub fn idle_source(&self) -> Option<u32>
        ensures some { IfSome result (λ t. IsIdleSource (plan self.now) self.now.journal.past t) }
        ensures least { IfSome result (λ t. (r : ℕ) → r < t → IsIdleSource (plan self.now) self.now.journal.past r → ⊥) }
        ensures none { IfNone result ((r : ℕ) → IsIdleSource (plan self.now) self.now.journal.past r → ⊥) }
        ensures legal { IsLegalRun self.now }
    {
        match self.sources.first_idle() {
            Some(route) => Some(route as u32),
            None => None,
        }
    }

    /// Whether the turns taken and the hands out are below the limit.
    pub fn is_below(&self) -> bool
        ensures below { IsTrue result ↔ IsBelow (plan self.now) self.now.journal.turns self.now.journal.past }
        ensures legal { IsLegalRun self.now }
    {
        self.turns + self.pulled + self.taken < u64::from(self.journal.turns())
    }

    /// Whether a timeout or a force will close an open group.
    fn will_close(&self) -> bool
        ensures { result ≡ any_group (will_close (plan self.now)) (groups (plan self.now) self.now.journal.past) }
    {
        if self.groups.open_groups() == 0 {
            return false;
        }
        if self.groups.due().is_some() {
            return true;
        }
        self.groups.may_force()
    }

    /// Whether nothing waits.
    fn is_over(&self) -> bool
        ensures { result ≡ is_over (plan self.now) self.now.journal.past }
    {
        if self.live > 0 {
            return false;
        }
        if !self.sources.are_done() {
            return false;
        }
        !self.will_close()
    }

    /// Why the run stops here; None where it goes on.
    pub fn stop(&self) -> Option<Stop>
        ensures stop { result ≡ stop_of (plan self.now) self.now.journal.turns self.now.journal.past }
        ensures legal { IsLegalRun self.now }
        ensures simple { AnswersSimply self.now.journal.past }
    {
        let over = self.is_over();
        let limit = u64::from(self.journal.turns());
        stop_by(
            over,
            self.groups.open_groups() as u64,
            self.turns,
            limit,
            self.pulled + self.taken,
            self.fault,
        )
    }

    /// Where an exchange stands; None for a number that is not born.
    pub fn place(&self, alloc: Global, number: u64) -> Result<Option<Place>, NoMemory>
        ensures { IfOk result (λ p. p ≡ place (plan self.now) self.now.journal.past number) }
    {
        if number == 0 {
            return Ok(None);
        }
        if number > self.rows.len() as u64 {
            return Ok(None);
        }
        let place = place_of(alloc, self.rows.get(number), self.journal.entries())?;
        Ok(Some(place))
    }

    /// Where an exchange comes from; None exactly for a number that is not born.
    pub fn origin(&self, number: u64) -> Option<OriginView<'_>>
        ensures { option_map origin_seen result ≡ origin_at (plan self.now) self.now.journal.past number }
    {
        if number == 0 {
            return None;
        }
        if number > self.rows.len() as u64 {
            return None;
        }
        origin_born(self.journal.entries(), self.rows.get(number).born())
    }

    /// How an exchange ended; None exactly where it is not born or has not ended.
    pub fn ended(&self, number: u64) -> Option<Ending>
        ensures { result ≡ ending_at (place (plan self.now) self.now.journal.past number) }
    {
        if number == 0 {
            return None;
        }
        if number > self.rows.len() as u64 {
            return None;
        }
        ending_of(self.rows.get(number).stage())
    }

    /// The least number of a Ready exchange.
    pub fn ready(&self) -> Option<u64>
        ensures { result ≡ first (ready_numbers (plan self.now) self.now.journal.past) }
    {
        self.ready.least()
    }

    /// The lines of the log, the oldest first.
    pub fn notes(&self) -> &[Note]
        ensures { result.now ≡ notes (plan self.now) self.now.journal.past }
    {
        self.notes.items()
    }

    /// How many exchanges there are.
    pub fn total(&self) -> u64
        ensures { result ≡ length (births (plan self.now) self.now.journal.past) }
    {
        self.rows.len() as u64
    }

    /// How many turns have been taken.
    pub fn turns_taken(&self) -> u64
        ensures { result ≡ turns self.now.journal.past }
    {
        self.turns
    }
}
