ghost use Rattle.std.specs.Prelude.{◌≡◌, ◌++◌, OnOk, codes, decimal, string_bytes};
ghost use Rattle.eip_history.specs.BookText.{note_line, origin_text, end_text, state_text, exchange_line, cause_text, refused_line, refused_line_in, group_line_of, accepted_line, stop_line};
ghost use Rattle.eip_tables.specs.Origin.{origin_seen};
ghost use Rattle.eip_endbook.specs.Names.{route_names};
ghost use Rattle.eip_endbook.specs.Texts.{total_of};

use crate::counts::Summary;
use crate::names::{queue_name, route_id};
use eip_exchange::End;
use eip_hub::{OpenGroup, OriginView};
use eip_ledger::{Entry, Kind, Note, Place, Refused, Stop};
use eip_route::RouteSet;
use eip_text::{NoMemory, Text, push_escaped, push_quoted};
use itoa::Buffer;
use std::fmt::Write;

// Each function appends to a text. Where memory is wanting, a front part of what it appends may stand there.

/// Appends a number in decimal digits, without leading zeros.
fn push_decimal(out: &mut String, number: u64) -> Result<(), NoMemory>
    ensures { OnOk result (string_bytes out.new ≡ string_bytes out.old ++ decimal number) }
{
    let mut digits = Buffer::new();
    out.push_str(digits.format(number))?;
    Ok(())
}

/// Appends the line of a note: `log N NAME: TEXT`, the text escaped.
pub fn push_note(out: &mut String, note: &Note) -> Result<(), NoMemory>
    ensures { OnOk result (string_bytes out.new ≡ string_bytes out.old ++ note_line note.now) }
{
    out.push_str("log ")?;
    push_decimal(out, note.number)?;
    out.push_str(" ")?;
    out.push_str(note.name.as_str())?;
    out.push_str(": ")?;
    push_escaped(out, note.text.as_str())?;
    out.push_str("\n")?;
    Ok(())
}

/// Appends where an exchange comes from.
fn push_origin(out: &mut String, set: &RouteSet, origin: &OriginView) -> Result<(), NoMemory>
    ensures { OnOk result (string_bytes out.new ≡ string_bytes out.old ++ origin_text (route_names set.now) (origin_seen origin.now)) }
{
    match origin {
        OriginView::Source { route, .. } => {
            out.push_str("source ")?;
            Ok(out.push_str(route_id(set, *route))?)
        }
        OriginView::Queue { route } => {
            let name = queue_name(set, *route);
            Ok(write!(out, "queue {name}")?)
        }
        OriginView::Part { parent, index } => Ok(write!(out, "part {parent}.{index}")?),
        OriginView::Group { group } => Ok(write!(out, "group {group}")?),
    }
}

/// Appends how an exchange ended; of a fault the kind as it is and the text quoted.
fn push_end(out: &mut String, end: &End) -> Result<(), NoMemory>
    ensures { OnOk result (string_bytes out.new ≡ string_bytes out.old ++ end_text end.now) }
{
    match end {
        End::Completed => Ok(out.push_str("completed")?),
        End::Handled => Ok(out.push_str("handled")?),
        End::Failed(fault) => {
            let kind = fault.kind.as_str();
            write!(out, "failed {kind} ")?;
            push_quoted(out, fault.text.as_str())
        }
    }
}

/// Appends that an exchange waits in the queue of this route.
fn push_queue(out: &mut String, set: &RouteSet, route: u32) -> Result<(), NoMemory>
    ensures { OnOk result (string_bytes out.new ≡ string_bytes out.old ++ (codes "waiting queue " ++ (route_names set.now).queue_name route)) }
{
    let name = queue_name(set, route);
    out.push_str("waiting queue ")?;
    out.push_str(name)?;
    Ok(())
}

/// Appends how an exchange ended, or where it waits.
fn push_place(out: &mut String, set: &RouteSet, place: &Place) -> Result<(), NoMemory>
    ensures { OnOk result (string_bytes out.new ≡ string_bytes out.old ++ state_text (route_names set.now) place.now) }
{
    match place {
        Place::Ended(end) => push_end(out, end),
        Place::Queue(route) => push_queue(out, set, *route),
        Place::InHand(_) => Ok(out.push_str("waiting in hand")?),
        Place::Retry(due) => Ok(write!(out, "waiting retry {due}")?),
        Place::Joining => Ok(out.push_str("waiting joining")?),
        Place::Ready => Ok(out.push_str("waiting ready")?),
    }
}

/// Appends the line of an exchange: `exchange N ORIGIN STATE`.
pub fn push_exchange(
    out: &mut String,
    set: &RouteSet,
    number: u64,
    origin: &OriginView,
    place: &Place,
) -> Result<(), NoMemory>
    ensures { OnOk result (string_bytes out.new ≡ string_bytes out.old ++ exchange_line (route_names set.now) number (origin_seen origin.now) place.now) }
{
    out.push_str("exchange ")?;
    push_decimal(out, number)?;
    out.push_str(" ")?;
    push_origin(out, set, origin)?;
    out.push_str(" ")?;
    push_place(out, set, place)?;
    out.push_str("\n")?;
    Ok(())
}

/// Why an item was refused, as the book says it.
fn cause(cause: Refused) -> &'static str
    ensures { result.now ≡ cause_text cause }
{
    match cause {
        Refused::NotText => "NotText",
        Refused::TooLong => "TooLong",
    }
}

/// Appends the line of a refused item: `refused ROUTE ITEM CAUSE`, the item quoted.
fn push_refused(
    out: &mut String,
    set: &RouteSet,
    source: u32,
    item: &Text,
    refused: Refused,
) -> Result<(), NoMemory>
    ensures { OnOk result (string_bytes out.new ≡ string_bytes out.old ++ refused_line (route_names set.now) source item.now refused) }
{
    let id = route_id(set, source);
    write!(out, "refused {id} ")?;
    push_quoted(out, item.as_str())?;
    let word = cause(refused);
    writeln!(out, " {word}")?;
    Ok(())
}

/// Appends the line of an entry that refuses an item, and nothing of any other entry.
pub fn push_refusal(out: &mut String, set: &RouteSet, entry: &Entry) -> Result<(), NoMemory>
    ensures { OnOk result (string_bytes out.new ≡ string_bytes out.old ++ refused_line_in (route_names set.now) entry.now.kind) }
{
    match &entry.kind {
        Kind::Refuse {
            source,
            item,
            cause,
        } => push_refused(out, set, *source, item, *cause),
        _ => Ok(()),
    }
}

/// Appends the line of an open group: `group G SIZE KEY`, the key quoted.
pub fn push_group(out: &mut String, group: &OpenGroup) -> Result<(), NoMemory>
    ensures { OnOk result (string_bytes out.new ≡ string_bytes out.old ++ group_line_of group.now.number group.now.size group.now.key.now) }
{
    let number = group.number;
    let size = group.size;
    write!(out, "group {number} {size} ")?;
    push_quoted(out, group.key.as_str())?;
    out.push_str("\n")?;
    Ok(())
}

/// Appends the line of items: `accepted A refused R`.
pub fn push_accepted(out: &mut String, summary: &Summary) -> Result<(), NoMemory>
    ensures { OnOk result (string_bytes out.new ≡ string_bytes out.old ++ accepted_line summary.now.accepted summary.now.refused) }
{
    let accepted = summary.accepted;
    let refused = summary.refused;
    writeln!(out, "accepted {accepted} refused {refused}")?;
    Ok(())
}

/// Appends a word and a number.
fn push_count(out: &mut String, word: &str, count: u64) -> Result<(), NoMemory>
    ensures { OnOk result (string_bytes out.new ≡ string_bytes out.old ++ (word.now ++ decimal count)) }
{
    write!(out, "{word}{count}")?;
    Ok(())
}

/// Appends the line of exchanges: `total B completed C handled H failed F waiting W`.
pub fn push_total(out: &mut String, summary: &Summary) -> Result<(), NoMemory>
    ensures { OnOk result (string_bytes out.new ≡ string_bytes out.old ++ total_of summary.now) }
{
    push_count(out, "total ", summary.total)?;
    push_count(out, " completed ", summary.completed)?;
    push_count(out, " handled ", summary.handled)?;
    push_count(out, " failed ", summary.failed)?;
    push_count(out, " waiting ", summary.waiting)?;
    out.push_str("\n")?;
    Ok(())
}

/// Appends that the source of this route failed: `source fault ROUTE`.
fn push_fault(out: &mut String, set: &RouteSet, route: u32) -> Result<(), NoMemory>
    ensures { OnOk result (string_bytes out.new ≡ string_bytes out.old ++ (codes "source fault " ++ ((route_names set.now).route_id route ++ codes "\n"))) }
{
    let id = route_id(set, route);
    out.push_str("source fault ")?;
    out.push_str(id)?;
    out.push_str("\n")?;
    Ok(())
}

/// Appends why the run stopped behind so many turns; nothing for want of memory.
pub fn push_stop(out: &mut String, set: &RouteSet, turns: u64, stop: &Stop) -> Result<(), NoMemory>
    ensures { OnOk result (string_bytes out.new ≡ string_bytes out.old ++ stop_line (route_names set.now) turns stop.now) }
{
    match stop {
        Stop::Drained => Ok(out.push_str("drained\n")?),
        Stop::Held(groups) => Ok(writeln!(out, "held {groups}")?),
        Stop::Spent => Ok(writeln!(out, "spent {turns}")?),
        Stop::SourceFault(route) => push_fault(out, set, *route),
        Stop::NoMemory => Ok(()),
    }
}
