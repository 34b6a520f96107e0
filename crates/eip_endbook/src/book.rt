ghost use Rattle.std.specs.Prelude.{◌<◌, ◌≡◌, ◌+◌, ◌++◌, IfOk, OnOk, reverse, string_bytes};
ghost use Rattle.eip_history.specs.BookText.{refusals_text};
ghost use Rattle.eip_endbook.specs.Names.{route_names};
ghost use Rattle.eip_endbook.specs.Texts.{AppendsExchange, book_of, exchanges_of, groups_of, summary_of};

use crate::counts::totals;
use crate::lines;
use eip_hub::Hub;
use eip_ledger::{Entry, Stop};
use eip_route::RouteSet;
use eip_text::{NoMemory, Text};
use std::alloc::Global;

/// Appends the line of the exchange with this number, if it is born.
fn push_exchange(out: &mut String, hub: &Hub, number: u64) -> Result<(), NoMemory>
    ensures { OnOk result (AppendsExchange hub.now number (string_bytes out.old) (string_bytes out.new)) }
{
    let Some(origin) = hub.origin(number) else {
        return Ok(());
    };
    let Some(place) = hub.place(number)? else {
        return Ok(());
    };
    lines::push_exchange(out, hub.set(), number, &origin, &place)
}

/// Appends the lines of all exchanges, by number.
fn push_exchanges(out: &mut String, hub: &Hub) -> Result<(), NoMemory>
    ensures { OnOk result (string_bytes out.new ≡ string_bytes out.old ++ exchanges_of hub.now) }
{
    for before in 0..hub.total() {
        push_exchange(out, hub, before + 1)?;
    }
    Ok(())
}

/// Appends the lines of the refused items, in the journal's order.
fn push_refusals(out: &mut String, set: &RouteSet, entries: &[Entry]) -> Result<(), NoMemory>
    ensures { OnOk result (string_bytes out.new ≡ string_bytes out.old ++ refusals_text (route_names set.now) (reverse entries.now)) }
{
    for entry in entries {
        lines::push_refusal(out, set, entry)?;
    }
    Ok(())
}

/// The index behind that of an open group. The groups' numbers rise from 1, so an index is less than its group's number.
fn next_index(index: usize, number: u64) -> usize
    requires { index < number }
    ensures { result ≡ index + 1 }
{
    index + 1
}

/// Appends the lines of all open groups, by number.
fn push_groups(out: &mut String, hub: &Hub) -> Result<(), NoMemory>
    ensures { OnOk result (string_bytes out.new ≡ string_bytes out.old ++ groups_of hub.now) }
{
    let mut k = 0;
    while let Some(group) = hub.open_group(k) {
        lines::push_group(out, &group)?;
        k = next_index(k, group.number);
    }
    Ok(())
}

/// Appends the last three lines of the book.
fn push_summary(out: &mut String, hub: &Hub, stop: &Stop) -> Result<(), NoMemory>
    ensures { OnOk result (string_bytes out.new ≡ string_bytes out.old ++ summary_of hub.now stop.now) }
{
    let summary = totals(hub);
    lines::push_accepted(out, &summary)?;
    lines::push_total(out, &summary)?;
    lines::push_stop(out, hub.set(), hub.turns_taken(), stop)?;
    Ok(())
}

/// The book of a run: a line for each exchange by its number, a line for each refused item, a line for each open group, and the
/// summary.
pub fn book_text(alloc: Global, hub: &Hub, stop: &Stop) -> Result<Text, NoMemory>
    ensures { IfOk result (λ t. t ≡ book_of hub.now stop.now) }
{
    let mut out = String::new(alloc);
    push_book(&mut out, hub, stop)?;
    Ok(Text::of(out))
}

/// Appends the book of a run. Where memory is wanting, a front part may stand in `out`.
pub fn push_book(out: &mut String, hub: &Hub, stop: &Stop) -> Result<(), NoMemory>
    ensures { OnOk result (string_bytes out.new ≡ string_bytes out.old ++ book_of hub.now stop.now) }
{
    push_exchanges(out, hub)?;
    push_refusals(out, hub.set(), hub.journal().entries())?;
    push_groups(out, hub)?;
    push_summary(out, hub, stop)?;
    Ok(())
}

/// The last three lines of the book: how many items were accepted and refused, how many exchanges there are and how they ended,
/// and why the run stopped.
pub fn summary_text(alloc: Global, hub: &Hub, stop: &Stop) -> Result<Text, NoMemory>
    ensures { IfOk result (λ t. t ≡ summary_of hub.now stop.now) }
{
    let mut out = String::new(alloc);
    push_summary(&mut out, hub, stop)?;
    Ok(Text::of(out))
}
