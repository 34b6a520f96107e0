ghost use Rattle.std.specs.Prelude.{◌≡◌, ◌+◌, ◌≤◌, OnOk, OnErr, Some};
ghost use Rattle.eip_ledger.specs.declared.entry.Kind.TheVariants.{Starve, Answer as Answered};
ghost use Rattle.eip_ledger.specs.declared.place.Place.TheVariants.{Ready, InHand};
ghost use Rattle.eip_history.specs.Place.{place};
ghost use Rattle.eip_history.specs.Rules.{IsBelow};
ghost use Rattle.eip_history.specs.Tables.{without};
ghost use Rattle.eip_frames.specs.declared.answer.Answer.TheVariants.{Finished};
ghost use Rattle.eip_tables.specs.Asking.{AsksEnd};
ghost use Rattle.eip_books.specs.View.{plan, IsLegalRun, Adds, IsSame};

use crate::books::Books;
use crate::ticket::Ticket;
use eip_exchange::Ending;
use eip_frames::Answer;
use eip_ledger::{Entry, Kind};
use eip_rows::waking::wake;
use eip_tables::joins::{close, tell};
use eip_tables::keys::ending_asked;
use eip_tables::notes::{append_answer, make_room};
use eip_tables::queues::leave;
use eip_tables::row::part_end;
use eip_text::NoMemory;

// How exchanges end: as they ask, or for want of memory. The parent of a part is told of its end, and may act again behind that
// of the last one. Its claims on keys hold from then on, or are given up.

impl Books {
    /// The exchange ends as it asks.
    pub(crate) fn finish(&mut self, worker: u32, number: u64) -> Result<(), NoMemory>
        requires worker { worker ≤ self.old.journal.workers }
        requires ready { place (plan self.old) self.old.journal.past number ≡ Some Ready }
        requires below { IsBelow (plan self.old) self.old.journal.turns self.old.journal.past }
        requires end { AsksEnd self.old.known number }
        ensures adds { OnOk result (Adds self.old self.new worker (Answered number Finished)) }
        ensures outside { OnOk result (self.new.outside ≡ without number self.old.outside) }
        ensures err { OnErr result (IsSame self.old self.new) }
        ensures legal { IsLegalRun self.new }
        ensures room { self.new.room ≡ self.old.room }
    {
        let needed = 2 * self.room + self.pulled + self.taken + 1;
        make_room(&mut self.journal, &mut self.notes, needed)?;
        self.ready
            .reserve((self.room + self.pulled + self.taken + 1) as usize)?;
        let row = self.rows.get(number);
        let born = row.born();
        let told = part_end(row)?;
        let Some(ending) = ending_asked(row) else {
            unreachable!()
        };
        self.keys.settle(number, ending);
        leave(&mut self.queues, born);
        let woken = self.rows.finish_asked(&mut self.joins, number, told);
        self.ready.remove(number);
        wake(&mut self.rows, &mut self.ready, woken);
        append_answer(&mut self.journal, worker, number, Answer::Finished);
        self.turns += 1;
        self.live -= 1;
        Ok(())
    }

    /// A Ready exchange is ended for want of memory.
    pub fn starve(&mut self, worker: u32, number: u64)
        requires worker { worker ≤ self.old.journal.workers }
        requires ready { place (plan self.old) self.old.journal.past number ≡ Some Ready }
        requires room { 1 ≤ self.old.room }
        ensures adds { Adds self.old self.new worker (Starve number) }
        ensures legal { IsLegalRun self.new }
        ensures room { self.new.room + 1 ≡ self.old.room }
        ensures outside { self.new.outside ≡ without number self.old.outside }
    {
        let row = self.rows.get(number);
        let born = row.born();
        leave(&mut self.queues, born);
        close(&mut self.joins, number);
        self.keys.settle(number, Ending::Failed);
        let ended = self.rows.starve(number);
        let woken = tell(&mut self.joins, born, number, ended);
        self.ready.remove(number);
        wake(&mut self.rows, &mut self.ready, woken);
        self.journal.append_reserved(Entry {
            worker,
            kind: Kind::Starve(number),
        });
        self.live -= 1;
        self.room -= 1;
    }

    /// An exchange in hand is ended for want of memory.
    pub fn give_up(&mut self, ticket: Ticket)
        requires worker { ticket.worker ≤ self.old.journal.workers }
        requires place { place (plan self.old) self.old.journal.past ticket.number ≡ Some (InHand ticket.worker) }
        ensures adds { Adds self.old self.new ticket.worker (Starve ticket.number) }
        ensures legal { IsLegalRun self.new }
        ensures room { self.new.room ≡ self.old.room }
        ensures outside { self.new.outside ≡ self.old.outside }
    {
        let Ticket {
            worker,
            number,
            request,
        } = ticket;
        drop(request);
        let row = self.rows.get(number);
        let born = row.born();
        leave(&mut self.queues, born);
        self.keys.settle(number, Ending::Failed);
        let ended = self.rows.starve(number);
        let woken = tell(&mut self.joins, born, number, ended);
        wake(&mut self.rows, &mut self.ready, woken);
        self.journal.append_reserved(Entry {
            worker,
            kind: Kind::Starve(number),
        });
        self.taken -= 1;
        self.live -= 1;
    }
}
