ghost use Rattle.std.specs.Prelude.{◌≡◌, IfOk, Some, slice_get, codes, [], List, ℕ};
ghost use Rattle.eip_exchange.specs.Ends.{fault};
ghost use Rattle.eip_tables.specs.Places.{item_at, item_born, queue_place, failed_place, shown};

use crate::row::{Born, Row, Stage};
use eip_exchange::{End, Fault};
use eip_ledger::{Entry, Kind, Place};
use eip_text::{NoMemory, Text};
use std::alloc::Global;

/// The item that the entry with this index accepted.
fn item_of(alloc: Global, entries: &[Entry], born: usize) -> Result<Text, NoMemory>
    ensures { IfOk result (λ t. t ≡ item_at (slice_get entries.now born)) }
{
    let Some(entry) = entries.get(born) else {
        return Text::of_str(alloc, "");
    };
    match &entry.kind {
        Kind::Accept { item, .. } => item.copy(),
        _ => Text::of_str(alloc, ""),
    }
}

/// The item of an exchange, by what made it.
fn item_born(alloc: Global, entries: &[Entry], born: Born) -> Result<Text, NoMemory>
    ensures { IfOk result (λ t. t ≡ item_born entries.now born) }
{
    match born {
        Born::Item(entry) => item_of(alloc, entries, entry),
        Born::Copy(_) | Born::Part { .. } | Born::Group { .. } => Text::of_str(alloc, ""),
    }
}

/// The place of an exchange that has not left its queue.
fn queue_place(born: Born) -> Place
    ensures { result ≡ queue_place born }
{
    match born {
        Born::Copy(queue) => Place::Queue(queue),
        Born::Item(_) | Born::Part { .. } | Born::Group { .. } => Place::Ready,
    }
}

/// The place of an exchange that failed.
fn failed(row: &Row) -> Result<Place, NoMemory>
    ensures { IfOk result (λ p. p ≡ failed_place row.now.fault) }
{
    match row.fault() {
        Some(fault) => Ok(Place::Ended(End::Failed(fault.copy()?))),
        None => Ok(Place::Ready),
    }
}

/// A fault by its kind and text.
fn fault_of(alloc: Global, kind: &str, text: Text) -> Result<Fault, NoMemory>
    ensures { IfOk result (λ f. f ≡ fault kind.now text) }
{
    let kind = Text::of_str(alloc, kind)?;
    Ok(Fault { kind, text })
}

/// The place of an exchange, by its row.
pub fn place_of(alloc: Global, row: &Row, entries: &[Entry]) -> Result<Place, NoMemory>
    ensures { IfOk result (λ p. p ≡ shown entries.now row.now) }
{
    match row.stage() {
        Stage::Queued => Ok(queue_place(row.born())),
        Stage::Held(worker) => Ok(Place::InHand(worker)),
        Stage::Joining(_) => Ok(Place::Joining),
        Stage::Asleep { due, .. } => Ok(Place::Retry(due)),
        Stage::Completed => Ok(Place::Ended(End::Completed)),
        Stage::Handled => Ok(Place::Ended(End::Handled)),
        Stage::Failed => failed(row),
        Stage::Starved => {
            let text = Text::of_str(alloc, "")?;
            let fault = fault_of(alloc, "OutOfMemory", text)?;
            Ok(Place::Ended(End::Failed(fault)))
        }
        Stage::NotCommitted => {
            let item = item_born(alloc, entries, row.born())?;
            let fault = fault_of(alloc, "CommitFailed", item)?;
            Ok(Place::Ended(End::Failed(fault)))
        }
        Stage::New | Stage::Asks | Stage::Answered(_) => Ok(Place::Ready),
    }
}
