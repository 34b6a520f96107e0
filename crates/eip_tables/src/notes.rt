ghost use Rattle.std.specs.Prelude.{◌≡◌, ◌<◌, ◌≤◌, ◌-◌, ◌∷◌, ◌++◌, [], List, ℕ, OnOk, Some};
ghost use Rattle.eip_ledger.specs.declared.entry.Kind.TheVariants.{Answer as Answered};
ghost use Rattle.eip_tables.specs.Offers.{refusal};
ghost use Rattle.eip_frames.specs.declared.request.Request.TheVariants.{Log};

use crate::row::line_asked;
use crate::table::Table;
use eip_frames::{Answer, Request};
use eip_ledger::{Entry, Journal, Kind, Note};
use eip_text::NoMemory;

/// Room for one answer beside what is promised.
pub fn make_room(
    journal: &mut Journal,
    notes: &mut Table<Note>,
    needed: u64,
) -> Result<(), NoMemory>
    ensures journal { OnOk result (needed ≤ journal.new.spare) }
    ensures notes { OnOk result (1 ≤ notes.new.spare) }
    ensures less { journal.old.spare ≤ journal.new.spare }
    ensures past { journal.new.past ≡ journal.old.past }
    ensures workers { journal.new.workers ≡ journal.old.workers }
    ensures turns { journal.new.turns ≡ journal.old.turns }
    ensures items { notes.new.items ≡ notes.old.items }
{
    notes.reserve(1)?;
    journal.reserve(needed as usize)?;
    Ok(())
}

/// Keeps the line of the log that the exchange asked for, in room that was reserved.
pub fn keep_line(notes: &mut Table<Note>, number: u64, request: Option<Request>)
    requires { 1 ≤ notes.old.spare }
    ensures { (name text : List ℕ) → request ≡ Some (Log name text) → notes.new.items ≡ notes.old.items ++ (record { number = number; name = name; text = text }) ∷ [] }
{
    if let Some((name, text)) = line_asked(request) {
        notes.put_last(Note { number, name, text });
    }
}

/// An answer of an exchange goes behind the other entries, into room that was reserved.
pub fn append_answer(journal: &mut Journal, worker: u32, number: u64, answer: Answer)
    requires { 0 < journal.old.spare }
    ensures past { journal.new.past ≡ (record { worker = worker; kind = Answered number answer }) ∷ journal.old.past }
    ensures spare { journal.old.spare - 1 ≤ journal.new.spare }
    ensures workers { journal.new.workers ≡ journal.old.workers }
    ensures turns { journal.new.turns ≡ journal.old.turns }
{
    journal.append_reserved(Entry {
        worker,
        kind: Kind::Answer { number, answer },
    });
}

/// What the sender to a full queue of this size is answered.
pub fn refusal(discard: bool, size: u32) -> Answer
    ensures { result ≡ refusal discard size }
{
    if discard {
        Answer::Dropped
    } else {
        Answer::Full(size)
    }
}
