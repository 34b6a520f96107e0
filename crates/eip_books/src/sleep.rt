ghost use Rattle.std.specs.Prelude.{◌≡◌, ◌+◌, ◌≤◌, ◌↔◌, IsTrue, OnOk, OnErr, Some};
ghost use Rattle.eip_ledger.specs.declared.entry.Kind.TheVariants.{Tick};
ghost use Rattle.eip_ledger.specs.declared.place.Place.TheVariants.{Ready};
ghost use Rattle.eip_history.specs.Place.{place};
ghost use Rattle.eip_history.specs.Rules.{May, IsBelow, IsQuiet, least, dues};
ghost use Rattle.eip_history.specs.Tables.{without};
ghost use Rattle.eip_tables.specs.Asking.{AsksMoment};
ghost use Rattle.eip_tables.specs.Numbers.{row_numbers, row_count, capacity};
ghost use Rattle.eip_tables.specs.Rows.{row_ready, row_live};
ghost use Rattle.eip_tables.specs.Sleepers.{SleepersTold, roused_rows};
ghost use Rattle.eip_books.specs.View.{plan, IsLegalRun, Adds, AddsAnswer, IsSame};

use crate::books::Books;
use eip_frames::Answer;
use eip_ledger::{Entry, Kind};
use eip_redelivery::Retries;
use eip_rows::rows::Rows;
use eip_tables::notes::{append_answer, make_room};
use eip_tables::rising::RisingNumbers;
use eip_tables::row::ticks_asked;
use eip_tables::sleepers::{due_moment, sooner};
use eip_text::NoMemory;

// Exchanges that sleep before their step is tried again (Camel manual, *Redelivery Policy*), and the clock that wakes them.

/// Whoever sleeps until a moment that is not beyond this one wakes, and may act again; for the numbers there is room that was reserved.
fn rouse(sleepers: &mut Retries, rows: &mut Rows, ready: &mut RisingNumbers, now: u64)
    requires told { SleepersTold rows.old.items sleepers.old }
    requires numbers { ready.old.numbers ≡ row_numbers row_ready 1 rows.old.items }
    requires room { row_count row_live rows.old.items ≤ capacity ready.old }
    ensures rows { rows.new.items ≡ roused_rows now rows.old.items }
    ensures told { SleepersTold rows.new.items sleepers.new }
    ensures numbers { ready.new.numbers ≡ row_numbers row_ready 1 rows.new.items }
    ensures spare { rows.old.spare ≤ rows.new.spare }
    ensures capacity { capacity ready.old ≤ capacity ready.new }
{
    while let Some(number) = sleepers.wake(now) {
        rows.wake(number);
        ready.put_in(number);
    }
}

impl Books {
    /// The exchange sleeps for as many ticks as it asks; where that moment is not beyond the clock, it goes on at once.
    pub(crate) fn wait(&mut self, worker: u32, number: u64) -> Result<(), NoMemory>
        requires worker { worker ≤ self.old.journal.workers }
        requires ready { place (plan self.old) self.old.journal.past number ≡ Some Ready }
        requires below { IsBelow (plan self.old) self.old.journal.turns self.old.journal.past }
        requires moment { AsksMoment self.old.known number }
        ensures adds { OnOk result (AddsAnswer self.old self.new worker number) }
        ensures outside { OnOk result (self.new.outside ≡ without number self.old.outside) }
        ensures err { OnErr result (IsSame self.old self.new) }
        ensures legal { IsLegalRun self.new }
        ensures room { self.new.room ≡ self.old.room }
    {
        let needed = 2 * self.room + self.pulled + self.taken + 1;
        make_room(&mut self.journal, &mut self.notes, needed)?;
        let entry = self.journal.entries().len();
        let Some(ticks) = ticks_asked(self.rows.get(number)) else {
            unreachable!()
        };
        let due = due_moment(self.clock, ticks);
        if self.clock < due {
            self.sleepers.sleep(number, due)?;
            drop(self.rows.sleep(number, entry, due));
            self.ready.remove(number);
            append_answer(&mut self.journal, worker, number, Answer::Slept(due));
            self.turns += 1;
            Ok(())
        } else {
            drop(self.rows.answer(number, entry));
            append_answer(&mut self.journal, worker, number, Answer::Slept(due));
            self.turns += 1;
            Ok(())
        }
    }

    /// The least moment at which somebody is due; None exactly where nobody is.
    pub fn due(&self) -> Option<u64>
        ensures { result ≡ least (dues (plan self.now) self.now.journal.past) }
    {
        sooner(self.sleepers.least(), self.groups.due())
    }

    /// Whether nobody may act: no exchange is Ready, no hand is out, no queue can start anybody, and every source has ended.
    pub fn is_quiet(&self) -> bool
        ensures { IsTrue result ↔ IsQuiet (plan self.now) self.now.journal.past }
    {
        if self.ready.least().is_some() {
            return false;
        }
        if self.pulled + self.taken > 0 {
            return false;
        }
        if self.queues.first_startable().is_some() {
            return false;
        }
        self.sources.are_done()
    }

    /// The clock moves on to the least moment at which somebody is due. Whoever is due then may act again, and the groups that are due
    /// close: their exchanges are born by the groups' numbers. On `NoMemory` no entry is made.
    pub fn tick(&mut self, worker: u32, now: u64) -> Result<(), NoMemory>
        requires worker { worker ≤ self.old.journal.workers }
        requires may { May (plan self.old) self.old.journal.turns self.old.journal.past worker (Tick now) }
        ensures adds { OnOk result (Adds self.old self.new worker (Tick now)) }
        ensures err { OnErr result (IsSame self.old self.new) }
        ensures legal { IsLegalRun self.new }
        ensures room { self.new.room ≡ self.old.room }
        ensures outside { self.new.outside ≡ self.old.outside }
    {
        let hands = self.room + self.pulled + self.taken;
        let open = self.groups.open_groups();
        self.journal.reserve((self.room + hands + 1) as usize)?;
        self.rows
            .reserve((self.room + self.pulled) as usize + open)?;
        self.ready.reserve_all((self.live + hands) as usize + open)?;
        let closed = self.groups.close_due(now)?;
        rouse(&mut self.sleepers, &mut self.rows, &mut self.ready, now);
        let first = self.rows.len() as u64 + 1;
        let count = closed.len();
        self.rows.put_groups(&self.set, closed);
        self.ready.put_from(first, count);
        self.live += count as u64;
        self.clock = now;
        self.journal.append_reserved(Entry {
            worker,
            kind: Kind::Tick(now),
        });
        Ok(())
    }
}
