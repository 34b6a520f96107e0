ghost use Rattle.std.specs.Prelude.{◌≡◌, ◌+◌, ◌<◌, ◌≤◌, ◌↔◌, [], ℕ, length, slice_get, IfOk, OnOk, OnErr, Some, IfSome, IfNone, IsTrue, true, false};
ghost use Rattle.eip_ledger.specs.declared.entry.Kind.TheVariants.{Pull, Accept, Refuse, SourceEnd, SourceFault, Take, Tick, Force, Starve, Answer as Answered};
ghost use Rattle.eip_ledger.specs.declared.place.Place.TheVariants.{Ready, InHand};
ghost use Rattle.eip_history.specs.Own.{turns};
ghost use Rattle.eip_history.specs.Births.{births, asked};
ghost use Rattle.eip_history.specs.Place.{ready_numbers, place};
ghost use Rattle.eip_history.specs.Rules.{first, startable, outside_asked};
ghost use Rattle.eip_history.specs.Stop.{open_groups, stop_of};
ghost use Rattle.eip_history.specs.Texts.{notes};
ghost use Rattle.eip_history.specs.Tables.{without};
ghost use Rattle.eip_frames.specs.Fits.{fits, is_outside};
ghost use Rattle.eip_tables.specs.declared.asking.Inner.TheVariants.{Did, Outside};
ghost use Rattle.eip_books.specs.View.{plan, IsLegalRun, Adds, AddsNone, AddsAnswer, StartsFirst};
ghost use Rattle.eip_tables.specs.Places.{inner_of};
ghost use Rattle.eip_books.specs.Owned.{is_takeable};
ghost use Rattle.eip_hub.specs.Events.{Allows, Enters, IsBelowLimit, IsNewRun, MayAsk, Owns, UsesRoom, place_in};
ghost use Rattle.eip_tables.specs.Groups.{seen_group, shown_group};
ghost use Rattle.eip_tables.specs.Outside.{is_among, outside_after, unlooked_numbers, IsAsked};
ghost use Rattle.std.specs.Prelude.{option_map};
ghost use Rattle.eip_history.specs.BookText.{origin_at};
ghost use Rattle.eip_tables.specs.Origin.{origin_seen, ending_at};

use eip_aggregator::OpenGroup;
use eip_books::{Books, Inner, OriginView, Ticket};
use eip_exchange::{Ending, Message};
use eip_frames::Answer;
use eip_ledger::{Journal, Note, Place, Refused, Stop};
use eip_route::RouteSet;
use eip_text::{NoMemory, Text};
use std::alloc::Global;
use std::marker::Model;

/// The state of a run: a legal journal of its route set, and what is known of it.
pub struct Hub {
    alloc: Global,
    books: Books,
}

impl Drop for Hub {
    fn drop(self) {
        let Hub { alloc: _, books } = self;
        drop(books);
    }
}

impl Model for Hub {
    ghost use Rattle.eip_books.specs.View.{BooksView};

    ghost Value = { BooksView };

    ghost view = { λ h. h.books };
}

impl Hub {
    /// The hub of a run that has no entry yet, for workers with the numbers 0 to `workers` and at most `turns` turns.
    pub fn new(alloc: Global, set: RouteSet, workers: u32, turns: u32) -> Result<Hub, NoMemory>
        requires few { length set.routes ≤ 256 }
        requires workers { workers ≤ 16 }
        requires some { 1 ≤ turns }
        requires limit { turns ≤ 1000000 }
        ensures { IfOk result (λ h. IsNewRun set workers turns h) }
    {
        let books = Books::new(alloc, set, workers, turns)?;
        Ok(Hub { alloc, books })
    }

    /// The set whose run this is.
    pub fn set(&self) -> &RouteSet
        ensures { result.now ≡ self.now.set }
    {
        self.books.set()
    }

    /// The journal so far.
    pub fn journal(&self) -> &Journal
        ensures journal { result.now ≡ self.now.journal }
        ensures legal { IsLegalRun self.now }
    {
        self.books.journal()
    }

    /// The journal, and nothing else, without memory.
    pub fn into_journal(self) -> Journal
        ensures { result ≡ self.journal }
    {
        let Hub { alloc: _, books } = self;
        books.into_journal()
    }

    /// Where an exchange stands; None exactly for a number that is not born.
    pub fn place(&self, number: u64) -> Result<Option<Place>, NoMemory>
        ensures { IfOk result (λ p. p ≡ place_in self.now number) }
    {
        self.books.place(self.alloc, number)
    }

    /// Where an exchange comes from, with an item lent from the journal; None exactly for a number that is not born.
    pub fn origin(&self, number: u64) -> Option<OriginView<'_>>
        ensures { option_map origin_seen result ≡ origin_at (plan self.now) self.now.journal.past number }
    {
        self.books.origin(number)
    }

    /// How an exchange ended; None exactly where it is not born or has not ended.
    pub fn ended(&self, number: u64) -> Option<Ending>
        ensures { result ≡ ending_at (place_in self.now number) }
    {
        self.books.ended(number)
    }

    /// The k-th of the open groups, from 0 and by number, as the book shows it; None exactly beyond them.
    pub fn open_group(&self, k: usize) -> Option<OpenGroup<'_>>
        ensures { option_map seen_group result ≡ option_map shown_group (slice_get (open_groups (plan self.now) self.now.journal.past) k) }
    {
        self.books.open_group(k)
    }

    /// The lines of the log, the oldest first.
    pub fn notes(&self) -> &[Note]
        ensures { result.now ≡ notes (plan self.now) self.now.journal.past }
    {
        self.books.notes()
    }

    /// How many exchanges there are.
    pub fn total(&self) -> u64
        ensures { result ≡ length (births (plan self.now) self.now.journal.past) }
    {
        self.books.total()
    }

    /// How many turns have been taken.
    pub fn turns_taken(&self) -> u64
        ensures { result ≡ turns self.now.journal.past }
    {
        self.books.turns_taken()
    }

    /// Why the run stops here; None exactly where it goes on.
    pub fn stop(&self) -> Option<Stop>
        ensures stop { result ≡ stop_of (plan self.now) self.now.journal.turns self.now.journal.past }
        ensures legal { IsLegalRun self.now }
    {
        self.books.stop()
    }

    /// Whether turns and hands are below the limit.
    pub fn below_limit(&self) -> bool
        ensures below { IsTrue result ↔ IsBelowLimit self.now }
        ensures legal { IsLegalRun self.now }
    {
        self.books.is_below()
    }

    /// The least number of a Ready exchange.
    pub fn ready(&self) -> Option<u64>
        ensures { result ≡ first (ready_numbers (plan self.now) self.now.journal.past) }
    {
        self.books.ready()
    }

    /// The least number of a Ready exchange for which `inner` has not answered `Outside` since its last entry.
    pub fn unlooked(&self) -> Option<u64>
        ensures { result ≡ first (unlooked_numbers self.now.outside (ready_numbers (plan self.now) self.now.journal.past)) }
    {
        self.books.unlooked()
    }

    /// Afterwards one `pull`, `start`, `take` or `starve` needs no memory, and neither does the call that ends such a pull or take.
    pub fn reserve(&mut self) -> Result<(), NoMemory>
        ensures ok { OnOk result (1 ≤ self.new.room) }
        ensures none { AddsNone self.old self.new }
        ensures legal { IsLegalRun self.new }
        ensures room { self.old.room ≤ self.new.room }
        ensures outside { self.new.outside ≡ self.old.outside }
    {
        self.books.reserve()
    }

    /// Pulls the first source, by route, that may be pulled. None exactly where no source may be pulled.
    pub fn pull(&mut self, worker: u32) -> Option<u32>
        requires worker { worker ≤ self.old.journal.workers }
        requires room { 1 ≤ self.old.room }
        ensures may { IfSome result (λ t. Allows self.old worker (Pull t)) }
        ensures enters { IfSome result (λ t. UsesRoom self.old self.new worker (Pull t) self.old.outside) }
        ensures least { IfSome result (λ t. (r : ℕ) → r < t → Allows self.old worker (Pull r) → ⊥) }
        ensures none { IfNone result (self.new ≡ self.old) }
        ensures exact { IfNone result ((r : ℕ) → Allows self.old worker (Pull r) → ⊥) }
        ensures legal { IsLegalRun self.new }
    {
        let source = self.books.idle_source()?;
        if self.books.is_below() {
            self.books.pull(worker, source);
            Some(source)
        } else {
            None
        }
    }

    /// Pulls the first source, by route, that may be pulled and whose inlet belongs to this worker, from 1 on: that of the index e, from 0,
    /// where e modulo the number of workers is one less than the worker. None exactly where there is no such source, or the limit is met.
    pub fn pull_owned(&mut self, worker: u32) -> Option<u32>
        requires worker { (1 ≤ worker) × (worker ≤ self.old.journal.workers) }
        requires room { 1 ≤ self.old.room }
        ensures may { IfSome result (λ t. Allows self.old worker (Pull t)) }
        ensures owner { IfSome result (λ t. Owns self.old worker t) }
        ensures enters { IfSome result (λ t. UsesRoom self.old self.new worker (Pull t) self.old.outside) }
        ensures least { IfSome result (λ t. (r : ℕ) → r < t → Allows self.old worker (Pull r) → Owns self.old worker r → ⊥) }
        ensures none { IfNone result (self.new ≡ self.old) }
        ensures exact { IfNone result ((r : ℕ) → Allows self.old worker (Pull r) → Owns self.old worker r → ⊥) }
        ensures legal { IsLegalRun self.new }
    {
        let source = self.books.owned_source(worker)?;
        if !self.books.is_below() {
            return None;
        }
        self.books.pull(worker, source);
        Some(source)
    }

    /// The pulled source gave an item, which is a new exchange.
    pub fn accept(&mut self, worker: u32, source: u32, item: Text, message: Message)
        requires worker { worker ≤ self.old.journal.workers }
        requires may { Allows self.old worker (Accept source item message) }
        ensures { Enters self.old self.new worker (Accept source item message) }
    {
        self.books.accept(worker, source, item, message);
    }

    /// The pulled source gave an item that is no exchange.
    pub fn refuse(&mut self, worker: u32, source: u32, item: Text, cause: Refused)
        requires worker { worker ≤ self.old.journal.workers }
        requires may { Allows self.old worker (Refuse source item cause) }
        ensures { Enters self.old self.new worker (Refuse source item cause) }
    {
        self.books.refuse(worker, source, item, cause);
    }

    /// The pulled source has no more.
    pub fn source_end(&mut self, worker: u32, source: u32)
        requires worker { worker ≤ self.old.journal.workers }
        requires may { Allows self.old worker (SourceEnd source) }
        ensures { Enters self.old self.new worker (SourceEnd source) }
    {
        self.books.source_end(worker, source);
    }

    /// The pulled source failed and is pulled no more.
    pub fn source_fault(&mut self, worker: u32, source: u32)
        requires worker { worker ≤ self.old.journal.workers }
        requires may { Allows self.old worker (SourceFault source) }
        ensures { Enters self.old self.new worker (SourceFault source) }
    {
        self.books.source_fault(worker, source);
    }

    /// Starts the first exchange of the first queue, by route, that is startable: somebody waits in it and a consumer is free. None
    /// exactly where no queue is startable, or the limit is met.
    pub fn start(&mut self, worker: u32) -> Option<u64>
        requires worker { worker ≤ self.old.journal.workers }
        requires room { 1 ≤ self.old.room }
        ensures starts { IfSome result (λ x. StartsFirst self.old self.new worker x) }
        ensures room { IfSome result (λ _. self.new.room + 1 ≡ self.old.room) }
        ensures none { IfNone result (self.new ≡ self.old) }
        ensures exact { IfNone result (IsBelowLimit self.old → startable (plan self.old) self.old.journal.past ≡ []) }
        ensures outside { self.new.outside ≡ self.old.outside }
        ensures legal { IsLegalRun self.new }
    {
        if !self.books.is_below() {
            return None;
        }
        self.books.start(worker)
    }

    /// Moves the clock on to the least moment at which somebody is due: whoever sleeps until then may act again, and each group that is due
    /// then is closed and goes on as an exchange. False exactly where somebody may act, nobody is due, or the limit is met. On `NoMemory` no
    /// entry is made.
    pub fn tick(&mut self, worker: u32) -> Result<bool, NoMemory>
        requires worker { worker ≤ self.old.journal.workers }
        ensures ticked { IfOk result (λ b. b ≡ true → (t : ℕ) × Allows self.old worker (Tick t) × Adds self.old self.new worker (Tick t)) }
        ensures none { IfOk result (λ b. b ≡ false → self.new ≡ self.old) }
        ensures exact { IfOk result (λ b. b ≡ false → (t : ℕ) → Allows self.old worker (Tick t) → ⊥) }
        ensures err { OnErr result (AddsNone self.old self.new) }
        ensures outside { self.new.outside ≡ self.old.outside }
        ensures legal { IsLegalRun self.new }
        ensures room { self.new.room ≡ self.old.room }
    {
        if !self.books.is_below() {
            return Ok(false);
        }
        let Some(now) = self.books.due() else {
            return Ok(false);
        };
        if !self.books.is_quiet() {
            return Ok(false);
        }
        self.books.tick(worker, now)?;
        Ok(true)
    }

    /// Closes each open group that may be closed by force (Camel manual, *Aggregate EIP*, `forceCompletionOnStop`), which goes on as an
    /// exchange. False exactly where somebody may act, somebody is due, no open group may be closed so, or the limit is met. On `NoMemory`
    /// no entry is made.
    pub fn force(&mut self, worker: u32) -> Result<bool, NoMemory>
        requires worker { worker ≤ self.old.journal.workers }
        ensures forced { IfOk result (λ b. b ≡ true → Allows self.old worker Force × Adds self.old self.new worker Force) }
        ensures none { IfOk result (λ b. b ≡ false → self.new ≡ self.old) }
        ensures exact { IfOk result (λ b. b ≡ false → Allows self.old worker Force → ⊥) }
        ensures err { OnErr result (AddsNone self.old self.new) }
        ensures outside { self.new.outside ≡ self.old.outside }
        ensures legal { IsLegalRun self.new }
        ensures room { self.new.room ≡ self.old.room }
    {
        if !self.books.is_below() {
            return Ok(false);
        }
        if self.books.due().is_some() {
            return Ok(false);
        }
        if !self.books.is_quiet() {
            return Ok(false);
        }
        // where nobody may act and nobody is due, a run goes on for its forced groups alone
        if self.books.stop().is_some() {
            return Ok(false);
        }
        self.books.force(worker)?;
        Ok(true)
    }

    /// Does what a Ready exchange asks for, where no one outside is needed; else it is known as Outside from now on.
    /// On `NoMemory` no entry is made.
    pub fn inner(&mut self, worker: u32, number: u64) -> Result<Inner, NoMemory>
        requires worker { worker ≤ self.old.journal.workers }
        requires ready { place_in self.old number ≡ Some Ready }
        requires below { IsBelowLimit self.old }
        ensures did { IfOk result (λ i. i ≡ Did → AddsAnswer self.old self.new worker number) }
        ensures outside { IfOk result (λ i. i ≡ Outside → AddsNone self.old self.new) }
        ensures exact { IfOk result (λ i. i ≡ inner_of (outside_asked (asked (plan self.old) self.old.journal.past number))) }
        ensures listed { IfOk result (λ i. self.new.outside ≡ outside_after i number self.old.outside) }
        ensures err { OnErr result (AddsNone self.old self.new) }
        ensures kept { OnErr result (self.new.outside ≡ self.old.outside) }
        ensures legal { IsLegalRun self.new }
        ensures room { self.new.room ≡ self.old.room }
    {
        self.books.inner(worker, number)
    }

    /// A Ready exchange is ended for want of memory.
    pub fn starve(&mut self, worker: u32, number: u64)
        requires worker { worker ≤ self.old.journal.workers }
        requires ready { place_in self.old number ≡ Some Ready }
        requires room { 1 ≤ self.old.room }
        ensures { UsesRoom self.old self.new worker (Starve number) (without number self.old.outside) }
    {
        self.books.starve(worker, number);
    }

    /// Takes the least Ready exchange that is known as Outside in hand. None exactly where there is none, or the limit is met.
    pub fn take(&mut self, worker: u32) -> Option<Ticket>
        requires worker { worker ≤ self.old.journal.workers }
        requires room { 1 ≤ self.old.room }
        ensures worker { IfSome result (λ t. t.worker ≡ worker) }
        ensures may { IfSome result (λ t. Allows self.old worker (Take t.number)) }
        ensures enters { IfSome result (λ t. UsesRoom self.old self.new worker (Take t.number) (without t.number self.old.outside)) }
        ensures asked { IfSome result (λ t. IsAsked (plan self.new) self.new.journal.past t.number t.request) }
        ensures of_outside { IfSome result (λ t. is_outside t.request ≡ true) }
        ensures place { IfSome result (λ t. place_in self.new t.number ≡ Some (InHand worker)) }
        ensures known { IfSome result (λ t. is_among t.number self.old.outside ≡ true) }
        ensures least { IfSome result (λ t. (x : ℕ) → x < t.number → is_among x self.old.outside ≡ false) }
        ensures none { IfNone result (self.new ≡ self.old) }
        ensures exact { IfNone result (IsBelowLimit self.old → self.old.outside ≡ []) }
        ensures legal { IsLegalRun self.new }
    {
        let number = self.books.known_outside()?;
        if !self.books.is_below() {
            return None;
        }
        Some(self.books.take(worker, number))
    }

    /// Takes in hand the least Ready exchange that is known as Outside and asks a lane or an inlet of this worker, from 1 on, or a processor
    /// or a predicate, which belong to everybody. None exactly where there is none, or the limit is met.
    pub fn take_owned(&mut self, worker: u32) -> Option<Ticket>
        requires worker { (1 ≤ worker) × (worker ≤ self.old.journal.workers) }
        requires room { 1 ≤ self.old.room }
        ensures worker { IfSome result (λ t. t.worker ≡ worker) }
        ensures may { IfSome result (λ t. Allows self.old worker (Take t.number)) }
        ensures owner { IfSome result (λ t. MayAsk self.old worker t.number) }
        ensures enters { IfSome result (λ t. UsesRoom self.old self.new worker (Take t.number) (without t.number self.old.outside)) }
        ensures asked { IfSome result (λ t. IsAsked (plan self.new) self.new.journal.past t.number t.request) }
        ensures of_outside { IfSome result (λ t. is_outside t.request ≡ true) }
        ensures place { IfSome result (λ t. place_in self.new t.number ≡ Some (InHand worker)) }
        ensures known { IfSome result (λ t. is_among t.number self.old.outside ≡ true) }
        ensures least { IfSome result (λ t. (x : ℕ) → x < t.number → is_takeable self.old worker x ≡ false) }
        ensures none { IfNone result (self.new ≡ self.old) }
        ensures exact { IfNone result (IsBelowLimit self.old → (x : ℕ) → is_takeable self.old worker x ≡ false) }
        ensures legal { IsLegalRun self.new }
    {
        let number = self.books.owned_outside(worker)?;
        if !self.books.is_below() {
            return None;
        }
        Some(self.books.take(worker, number))
    }

    /// An exchange in hand has the answer to what its ticket says it asks.
    pub fn settle(&mut self, ticket: Ticket, answer: Answer)
        requires worker { ticket.worker ≤ self.old.journal.workers }
        requires fits { fits ticket.request answer ≡ true }
        requires place { place_in self.old ticket.number ≡ Some (InHand ticket.worker) }
        requires asked { IsAsked (plan self.old) self.old.journal.past ticket.number ticket.request }
        ensures { Enters self.old self.new ticket.worker (Answered ticket.number answer) }
    {
        self.books.settle(ticket, answer);
    }

    /// An exchange in hand is ended for want of memory.
    pub fn give_up(&mut self, ticket: Ticket)
        requires worker { ticket.worker ≤ self.old.journal.workers }
        requires place { place_in self.old ticket.number ≡ Some (InHand ticket.worker) }
        ensures { Enters self.old self.new ticket.worker (Starve ticket.number) }
    {
        self.books.give_up(ticket);
    }
}
