ghost use Rattle.std.specs.Prelude.{◌≡◌, option_map, slice_get};
ghost use Rattle.eip_tables.specs.Origin.{origin_seen, origin_in, origin_born, stage_ending};

use crate::row::{Born, Stage};
use eip_exchange::Ending;
use eip_ledger::{Entry, Kind};
use eip_text::Text;

/// Where an exchange comes from, with the item lent from the journal.
#[derive(Clone, Copy)]
pub enum OriginView<'a> {
    /// An item that the source of this route gave.
    Source { route: u32, item: &'a Text },
    /// A copy that was offered to the queue of this route.
    Queue { route: u32 },
    /// The part with this index, from 0, of a parent's fan-out.
    Part { parent: u64, index: u32 },
    /// A closed group of an aggregator, by its number.
    Group { group: u64 },
}

/// The origin of the exchange that the entry with this index made; None where that entry makes none.
fn origin_in(entries: &[Entry], born: usize) -> Option<OriginView<'_>>
    ensures { option_map origin_seen result ≡ origin_in (slice_get entries.now born) }
{
    let entry = entries.get(born)?;
    match &entry.kind {
        Kind::Accept { source, item, .. } => Some(OriginView::Source {
            route: *source,
            item,
        }),
        _ => None,
    }
}

/// The origin of an exchange, by what made it; None where that is an entry that makes none.
pub fn origin_born(entries: &[Entry], born: Born) -> Option<OriginView<'_>>
    ensures { option_map origin_seen result ≡ origin_born entries.now born }
{
    match born {
        Born::Item(entry) => origin_in(entries, entry),
        Born::Copy(route) => Some(OriginView::Queue { route }),
        Born::Part { parent, index } => Some(OriginView::Part { parent, index }),
        Born::Group { group, .. } => Some(OriginView::Group { group }),
    }
}

/// How an exchange at this stage ended; None where it has not.
pub fn ending_of(stage: Stage) -> Option<Ending>
    ensures { result ≡ stage_ending stage }
{
    match stage {
        Stage::Completed => Some(Ending::Completed),
        Stage::Handled => Some(Ending::Handled),
        Stage::Failed | Stage::Starved | Stage::NotCommitted => Some(Ending::Failed),
        Stage::Queued
        | Stage::New
        | Stage::Asks
        | Stage::Held(_)
        | Stage::Joining(_)
        | Stage::Asleep { .. }
        | Stage::Answered(_) => None,
    }
}
