ghost use Rattle.std.specs.Prelude.{◌≡◌, ◌≤◌, [], length, IfOk};
ghost use Rattle.eip_audit.specs.Judging.{Holds, Judges, JudgesEntry};

use crate::sources::first_states;
use eip_hub::{Books, SourceState, Ticket};
use eip_ledger::{Entry, Kind};
use eip_route::RouteSet;
use eip_text::NoMemory;
use std::alloc::Global;
use std::collections::BTreeMap;

/// The books of the entries judged so far, and what they do not tell of one source and one hand.
pub struct Auditor {
    pub(crate) alloc: Global,
    pub(crate) books: Books,
    /// Where the source of each route stands, by the index of the route.
    pub(crate) sources: Vec<SourceState>,
    /// Who has which exchange in hand, by the exchange's number.
    pub(crate) hands: BTreeMap<u64, Ticket>,
}

impl Auditor {
    /// The auditor of a journal with these limits, none of whose entries is judged yet.
    pub fn new(alloc: Global, set: RouteSet, workers: u32, turns: u32) -> Result<Auditor, NoMemory>
        requires few { length set.routes ≤ 256 }
        requires workers { workers ≤ 16 }
        requires some { 1 ≤ turns }
        requires limit { turns ≤ 1000000 }
        ensures set { IfOk result (λ a. a.books.set ≡ set) }
        ensures workers { IfOk result (λ a. a.books.journal.workers ≡ workers) }
        ensures turns { IfOk result (λ a. a.books.journal.turns ≡ turns) }
        ensures past { IfOk result (λ a. a.books.journal.past ≡ []) }
        ensures holds { IfOk result (λ a. Holds a) }
    {
        let books = Books::new(alloc, set, workers, turns)?;
        let _ = books.journal();
        match first_states(alloc, books.set()) {
            Ok(sources) => Ok(Auditor {
                alloc,
                books,
                sources,
                hands: BTreeMap::new(alloc),
            }),
            Err(refused) => {
                drop(books.into_journal());
                Err(refused)
            }
        }
    }

    /// Lets go of the books, and of what is in hand.
    pub fn close(self) {
        let Auditor {
            books,
            sources,
            hands,
            alloc: _,
        } = self;
        drop(sources);
        drop(hands);
        drop(books.into_journal());
    }

    /// Whether an entry of this worker keeps its rule behind those judged before; it is entered then.
    fn judge_kind(&mut self, worker: u32, kind: &Kind) -> Result<bool, NoMemory>
        requires holds { Holds self.old }
        requires worker { worker ≤ self.old.books.journal.workers }
        ensures { IfOk result (λ b. Judges self.old self.new worker kind.now b) }
    {
        match kind {
            Kind::Pull(source) => self.pull(worker, *source),
            Kind::Accept {
                source,
                item,
                message,
            } => self.accept(worker, *source, item, message.get()),
            Kind::Refuse {
                source,
                item,
                cause,
            } => self.refuse(worker, *source, item, *cause),
            Kind::SourceEnd(source) => self.source_end(worker, *source),
            Kind::SourceFault(source) => self.source_fault(worker, *source),
            Kind::Start { queue, number } => self.start(worker, *queue, *number),
            Kind::Take(number) => self.take(worker, *number),
            Kind::Answer { number, answer } => self.answer(worker, *number, answer),
            Kind::Tick(moment) => self.tick(worker, *moment),
            Kind::Force => self.force(worker),
            Kind::Starve(number) => self.starve(worker, *number),
            Kind::Return(_) => Ok(false),
        }
    }

    /// Whether an entry is of one of the workers and keeps its rule behind those judged before; it is entered then.
    pub fn judge(&mut self, entry: &Entry) -> Result<bool, NoMemory>
        requires holds { Holds self.old }
        ensures { IfOk result (λ b. JudgesEntry self.old self.new entry.now b) }
    {
        let workers = self.books.journal().workers();
        if entry.worker > workers {
            return Ok(false);
        }
        self.judge_kind(entry.worker, &entry.kind)
    }
}
