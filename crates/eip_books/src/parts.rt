ghost use Rattle.std.specs.Prelude.{◌≡◌, ◌+◌, ◌≤◌, OnOk, OnErr, Some};
ghost use Rattle.eip_ledger.specs.declared.place.Place.TheVariants.{Ready};
ghost use Rattle.eip_history.specs.Place.{place};
ghost use Rattle.eip_history.specs.Rules.{IsBelow};
ghost use Rattle.eip_history.specs.Tables.{without};
ghost use Rattle.eip_tables.specs.Asking.{AsksParts, AsksEnds};
ghost use Rattle.eip_books.specs.View.{plan, IsLegalRun, AddsAnswer, IsSame};

use crate::books::Books;
use eip_frames::Answer;
use eip_tables::notes::{append_answer, make_room};
use eip_tables::parts::{parent_of, starving_faults};
use eip_tables::row::{count_asked, seeds_asked};
use eip_text::{NoMemory, Series};

// Parts of an exchange (Hohpe and Woolf, *Splitter* and *Aggregator*; Camel manual, *Split EIP*): their births and their ends.

impl Books {
    /// The parts that the exchange asks for are born, with the numbers that follow, and it waits for their ends.
    pub(crate) fn spawn(&mut self, worker: u32, number: u64) -> Result<(), NoMemory>
        requires worker { worker ≤ self.old.journal.workers }
        requires ready { place (plan self.old) self.old.journal.past number ≡ Some Ready }
        requires below { IsBelow (plan self.old) self.old.journal.turns self.old.journal.past }
        requires parts { AsksParts self.old.known number }
        ensures adds { OnOk result (AddsAnswer self.old self.new worker number) }
        ensures outside { OnOk result (self.new.outside ≡ without number self.old.outside) }
        ensures err { OnErr result (IsSame self.old self.new) }
        ensures legal { IsLegalRun self.new }
        ensures room { self.new.room ≡ self.old.room }
    {
        let row = self.rows.get(number);
        let count = count_asked(row);
        let parent = parent_of(number, row);
        let first = self.rows.len() as u64 + 1;
        let entry = self.journal.entries().len();
        let needed = 2 * self.room + self.pulled + self.taken + 1;
        make_room(&mut self.journal, &mut self.notes, needed)?;
        self.rows
            .reserve((self.room + self.pulled) as usize + count)?;
        self.ready
            .reserve((self.room + self.pulled + self.taken) as usize + count)?;
        let faults = starving_faults(self.alloc, count)?;
        self.joins.begin(number, first, count as u32)?;
        let Some(seeds) = seeds_asked(self.rows.join(number, entry)) else {
            unreachable!()
        };
        self.rows.put_parts(parent, seeds, faults);
        self.ready.remove(number);
        self.ready.put_from(first, count);
        let answer = Answer::Born {
            first,
            count: count as u32,
        };
        append_answer(&mut self.journal, worker, number, answer);
        self.live += count as u64;
        self.turns += 1;
        Ok(())
    }

    /// The exchange has the ends of its parts, by index.
    pub(crate) fn join(&mut self, worker: u32, number: u64) -> Result<(), NoMemory>
        requires worker { worker ≤ self.old.journal.workers }
        requires ready { place (plan self.old) self.old.journal.past number ≡ Some Ready }
        requires below { IsBelow (plan self.old) self.old.journal.turns self.old.journal.past }
        requires ends { AsksEnds self.old.known number }
        ensures adds { OnOk result (AddsAnswer self.old self.new worker number) }
        ensures outside { OnOk result (self.new.outside ≡ without number self.old.outside) }
        ensures err { OnErr result (IsSame self.old self.new) }
        ensures legal { IsLegalRun self.new }
        ensures room { self.new.room ≡ self.old.room }
    {
        let needed = 2 * self.room + self.pulled + self.taken + 1;
        make_room(&mut self.journal, &mut self.notes, needed)?;
        let entry = self.journal.entries().len();
        let ends = self.joins.take(number);
        let parts = Series::of(ends);
        drop(self.rows.answer(number, entry));
        append_answer(&mut self.journal, worker, number, Answer::Joined(parts));
        self.turns += 1;
        Ok(())
    }
}
