ghost use Rattle.std.specs.Prelude.{◌≡◌, ◌≤◌, IfOk, is_some, true, false};
ghost use Rattle.eip_ordered.specs.Numbered.{value_at};
ghost use Rattle.eip_ledger.specs.declared.entry.Kind.TheVariants.{Answer as Answered};
ghost use Rattle.eip_audit.specs.Judging.{Holds, Judges, is_answered};

use crate::auditor::Auditor;
use crate::exchanges::{is_held, is_ready};
use eip_frames::{Answer, fits};
use eip_hub::Inner;
use eip_ledger::{Journal, Kind};
use eip_ordered::take;
use eip_text::NoMemory;
use eip_verdict::{copy_answer, same_answer};

// Answers: of somebody outside to an exchange in hand, and of the run itself.

/// Whether the newest entry is this answer.
fn is_answered(journal: &Journal, answer: &Answer) -> bool
    ensures { result ≡ is_answered answer.now journal.now.past }
{
    match journal.entries().last() {
        Some(entry) => match &entry.kind {
            Kind::Answer { answer: made, .. } => same_answer(made, answer),
            _ => false,
        },
        None => false,
    }
}

impl Auditor {
    /// An answer: to an exchange in the worker's hand one that fits what it asks, and to a Ready one what the run answers itself.
    pub(crate) fn answer(
        &mut self,
        worker: u32,
        number: u64,
        answer: &Answer,
    ) -> Result<bool, NoMemory>
        requires holds { Holds self.old }
        requires worker { worker ≤ self.old.books.journal.workers }
        ensures { IfOk result (λ b. Judges self.old self.new worker (Answered number answer.now) b) }
    {
        if is_held(&self.hands, number) {
            self.settle(worker, number, answer)
        } else {
            self.inner(worker, number, answer)
        }
    }

    /// An answer of somebody outside.
    fn settle(&mut self, worker: u32, number: u64, answer: &Answer) -> Result<bool, NoMemory>
        requires holds { Holds self.old }
        requires worker { worker ≤ self.old.books.journal.workers }
        requires held { is_some (value_at self.old.hands.entries number) ≡ true }
        ensures { IfOk result (λ b. Judges self.old self.new worker (Answered number answer.now) b) }
    {
        let Some(ticket) = take(&mut self.hands, number) else {
            unreachable!()
        };
        let holder = ticket.worker;
        if holder != worker {
            drop(ticket);
            return Ok(false);
        }
        if !fits(&ticket.request, answer) {
            drop(ticket);
            return Ok(false);
        }
        let answer = copy_answer(self.alloc, answer)?;
        self.books.settle(ticket, answer);
        Ok(true)
    }

    /// An answer of the run itself. What it answers is determined by the entries before, so it is made and compared.
    fn inner(&mut self, worker: u32, number: u64, answer: &Answer) -> Result<bool, NoMemory>
        requires holds { Holds self.old }
        requires worker { worker ≤ self.old.books.journal.workers }
        requires free { is_some (value_at self.old.hands.entries number) ≡ false }
        ensures { IfOk result (λ b. Judges self.old self.new worker (Answered number answer.now) b) }
    {
        if !self.books.is_below() {
            return Ok(false);
        }
        let ready = is_ready(&self.books, self.alloc, number)?;
        if !ready {
            return Ok(false);
        }
        let looked = self.books.inner(worker, number)?;
        match looked {
            Inner::Outside => Ok(false),
            Inner::Did => {
                if !is_answered(self.books.journal(), answer) {
                    return Ok(false);
                }
                Ok(true)
            }
        }
    }
}
