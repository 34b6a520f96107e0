ghost use Rattle.std.specs.Prelude.{◌≡◌, ◌+◌, ◌≤◌, OnOk, OnErr, Some, map, option_map, slice_get};
ghost use Rattle.eip_ledger.specs.declared.entry.Kind.TheVariants.{Force};
ghost use Rattle.eip_ledger.specs.declared.place.Place.TheVariants.{Ready};
ghost use Rattle.eip_history.specs.Place.{place};
ghost use Rattle.eip_history.specs.Rules.{May, IsBelow};
ghost use Rattle.eip_history.specs.Stop.{open_groups};
ghost use Rattle.eip_history.specs.Tables.{without};
ghost use Rattle.eip_tables.specs.Asking.{AsksGroup};
ghost use Rattle.eip_tables.specs.Groups.{shown_group, seen_group};
ghost use Rattle.eip_books.specs.View.{plan, IsLegalRun, Adds, AddsAnswer, IsSame};

use crate::books::Books;
use eip_aggregator::OpenGroup;
use eip_frames::Answer;
use eip_ledger::{Entry, Kind};
use eip_rows::coming::{Coming, come};
use eip_tables::groups::newborn_of;
use eip_tables::notes::{append_answer, make_room};
use eip_text::NoMemory;

// Groups of an aggregator (Hohpe and Woolf, *Aggregator*; Camel manual, *Aggregate EIP*): their arrivals, and how they close.

impl Books {
    /// The exchange joins the open group of its aggregator and key, or begins one, and may close it: then the group's exchange is born.
    pub(crate) fn arrive(&mut self, worker: u32, number: u64) -> Result<(), NoMemory>
        requires worker { worker ≤ self.old.journal.workers }
        requires ready { place (plan self.old) self.old.journal.past number ≡ Some Ready }
        requires below { IsBelow (plan self.old) self.old.journal.turns self.old.journal.past }
        requires group { AsksGroup self.old.known number }
        ensures adds { OnOk result (AddsAnswer self.old self.new worker number) }
        ensures outside { OnOk result (self.new.outside ≡ without number self.old.outside) }
        ensures err { OnErr result (IsSame self.old self.new) }
        ensures legal { IsLegalRun self.new }
        ensures room { self.new.room ≡ self.old.room }
    {
        let needed = 2 * self.room + self.pulled + self.taken + 1;
        make_room(&mut self.journal, &mut self.notes, needed)?;
        self.rows.reserve((self.room + self.pulled + 1) as usize)?;
        self.ready
            .reserve((self.room + self.pulled + self.taken + 1) as usize)?;
        let next = self.rows.len() as u64 + 1;
        let entry = self.journal.entries().len();
        let row = self.rows.get(number);
        let came = come(
            self.alloc,
            &self.set,
            &mut self.groups,
            row,
            number,
            self.clock,
        )?;
        drop(self.rows.answer(number, entry));
        self.turns += 1;
        match came {
            Coming::Unfit(fault) => {
                append_answer(&mut self.journal, worker, number, Answer::Unfit(fault));
                Ok(())
            }
            Coming::Open(group) => {
                append_answer(&mut self.journal, worker, number, Answer::Arrived(group));
                Ok(())
            }
            Coming::Shut(closed) => {
                let answer = Answer::Closed {
                    group: closed.group,
                    cause: closed.cause,
                    number: next,
                };
                self.rows.put_last(newborn_of(&self.set, next, closed));
                self.ready.put_last(next);
                append_answer(&mut self.journal, worker, number, answer);
                self.live += 1;
                Ok(())
            }
        }
    }

    /// The open groups that may be forced close, and their exchanges are born by the groups' numbers. On `NoMemory` no entry is made.
    pub fn force(&mut self, worker: u32) -> Result<(), NoMemory>
        requires worker { worker ≤ self.old.journal.workers }
        requires may { May (plan self.old) self.old.journal.turns self.old.journal.past worker Force }
        ensures adds { OnOk result (Adds self.old self.new worker Force) }
        ensures err { OnErr result (IsSame self.old self.new) }
        ensures legal { IsLegalRun self.new }
        ensures room { self.new.room ≡ self.old.room }
        ensures outside { self.new.outside ≡ self.old.outside }
    {
        let hands = self.room + self.pulled + self.taken;
        let open = self.groups.open_groups();
        self.journal.reserve((self.room + hands + 1) as usize)?;
        self.rows
            .reserve((self.room + self.pulled) as usize + open)?;
        self.ready.reserve(hands as usize + open)?;
        let closed = self.groups.close_forced()?;
        let first = self.rows.len() as u64 + 1;
        let count = closed.len();
        self.rows.put_groups(&self.set, closed);
        self.ready.put_from(first, count);
        self.live += count as u64;
        self.journal.append_reserved(Entry {
            worker,
            kind: Kind::Force,
        });
        Ok(())
    }

    /// The open group with this index from 0, by the groups' numbers; None exactly beyond them.
    pub fn open_group(&self, k: usize) -> Option<OpenGroup<'_>>
        ensures { option_map seen_group result ≡ option_map shown_group (slice_get (open_groups (plan self.now) self.now.journal.past) k) }
    {
        self.groups.open_group_at(k)
    }
}
