ghost use Rattle.std.specs.Prelude.{◌≡◌, ◌+◌, ◌≤◌, OnOk, OnErr, Some};
ghost use Rattle.eip_ledger.specs.declared.place.Place.TheVariants.{Ready};
ghost use Rattle.eip_history.specs.Place.{place};
ghost use Rattle.eip_history.specs.Rules.{IsBelow};
ghost use Rattle.eip_history.specs.Tables.{without};
ghost use Rattle.eip_tables.specs.Asking.{AsksKey};
ghost use Rattle.eip_books.specs.View.{plan, IsLegalRun, AddsAnswer, IsSame};

use crate::books::Books;
use eip_tables::keys::{key_answer, offer_key};
use eip_tables::notes::{append_answer, make_room};
use eip_text::NoMemory;

// Keys of idempotent consumers (Hohpe and Woolf, *Idempotent Receiver*; Camel manual, *Idempotent Consumer EIP*).

impl Books {
    /// The exchange offers a key: where nobody holds it, it claims it, else it is told of the least holder.
    pub(crate) fn claim(&mut self, worker: u32, number: u64) -> Result<(), NoMemory>
        requires worker { worker ≤ self.old.journal.workers }
        requires ready { place (plan self.old) self.old.journal.past number ≡ Some Ready }
        requires below { IsBelow (plan self.old) self.old.journal.turns self.old.journal.past }
        requires key { AsksKey self.old.known number }
        ensures adds { OnOk result (AddsAnswer self.old self.new worker number) }
        ensures outside { OnOk result (self.new.outside ≡ without number self.old.outside) }
        ensures err { OnErr result (IsSame self.old self.new) }
        ensures legal { IsLegalRun self.new }
        ensures room { self.new.room ≡ self.old.room }
    {
        let needed = 2 * self.room + self.pulled + self.taken + 1;
        make_room(&mut self.journal, &mut self.notes, needed)?;
        let entry = self.journal.entries().len();
        let row = self.rows.get(number);
        let offered = offer_key(&mut self.keys, row, number)?;
        drop(self.rows.answer(number, entry));
        append_answer(&mut self.journal, worker, number, key_answer(offered));
        self.turns += 1;
        Ok(())
    }
}
