ghost use Rattle.std.specs.Prelude.{◌≤◌, IfOk};
ghost use Rattle.eip_ledger.specs.declared.entry.Kind.TheVariants.{Tick, Force};
ghost use Rattle.eip_audit.specs.Judging.{Holds, Judges};

use crate::auditor::Auditor;
use eip_text::NoMemory;

// What comes where nobody may act: a tick of the clock, and the closing of groups by force.

impl Auditor {
    /// A tick: to the least moment at which somebody is due, where nobody may act and turns are left.
    pub(crate) fn tick(&mut self, worker: u32, now: u64) -> Result<bool, NoMemory>
        requires holds { Holds self.old }
        requires worker { worker ≤ self.old.books.journal.workers }
        ensures { IfOk result (λ b. Judges self.old self.new worker (Tick now) b) }
    {
        if !self.books.is_below() {
            return Ok(false);
        }
        let Some(due) = self.books.due() else {
            return Ok(false);
        };
        if due != now {
            return Ok(false);
        }
        if !self.books.is_quiet() {
            return Ok(false);
        }
        self.books.tick(worker, now)?;
        Ok(true)
    }

    /// A closing by force: where nobody may act, nobody is due, an open group may be closed so and turns are left.
    pub(crate) fn force(&mut self, worker: u32) -> Result<bool, NoMemory>
        requires holds { Holds self.old }
        requires worker { worker ≤ self.old.books.journal.workers }
        ensures { IfOk result (λ b. Judges self.old self.new worker Force b) }
    {
        if !self.books.is_below() {
            return Ok(false);
        }
        if self.books.due().is_some() {
            return Ok(false);
        }
        if !self.books.is_quiet() {
            return Ok(false);
        }
        // where nobody may act and nobody is due, a run goes on for its forced groups alone
        if self.books.stop().is_some() {
            return Ok(false);
        }
        self.books.force(worker)?;
        Ok(true)
    }
}
