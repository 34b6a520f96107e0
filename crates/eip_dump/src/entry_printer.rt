ghost use Rattle.std.specs.Prelude.{◌≡◌, ◌++◌, IfOk, OnOk, string_bytes};
ghost use Rattle.std.specs.Str.{IsUtf8};
ghost use Rattle.eip_dump.specs.Kept as kept;
ghost use Rattle.eip_dump.specs.Lines as spec;

use crate::answer_printer::push_answer;
use crate::message_printer::{push_message, push_number, push_phrase};
use eip_exchange::Message;
use eip_ledger::{Entry, Kind, Refused};
use eip_text::{NoMemory, Text};
use itoa::Buffer;
use std::alloc::Global;

/// The word for why an item is no exchange, with the space in front of it.
fn refused_word(cause: Refused) -> &'static str
    ensures { result.now ≡ spec.refused_text cause }
{
    match cause {
        Refused::NotText => " NotText",
        Refused::TooLong => " TooLong",
    }
}

/// Appends a source, an item and its message.
fn push_accepted(
    out: &mut String,
    source: u32,
    item: &Text,
    message: &Message,
) -> Result<(), NoMemory>
    ensures text { OnOk result (string_bytes out.new ≡ string_bytes out.old ++ (spec.number source ++ (spec.phrase item.now ++ spec.message_text message.now))) }
    ensures kept { OnOk result (IsUtf8 item.now × kept.IsMessage message.now) }
{
    push_number(out, u64::from(source))?;
    push_phrase(out, item)?;
    push_message(out, message)
}

/// Appends a source, an item and why it is no exchange.
fn push_refused(out: &mut String, source: u32, item: &Text, cause: Refused) -> Result<(), NoMemory>
    ensures text { OnOk result (string_bytes out.new ≡ string_bytes out.old ++ (spec.number source ++ (spec.phrase item.now ++ spec.refused_text cause))) }
    ensures kept { OnOk result (IsUtf8 item.now) }
{
    push_number(out, u64::from(source))?;
    push_phrase(out, item)?;
    out.push_str(refused_word(cause))?;
    Ok(())
}

/// The word of a kind of entry, with the space in front of it.
fn word(kind: &Kind) -> &'static str
    ensures { result.now ≡ spec.kind_word kind.now }
{
    match kind {
        Kind::Pull(_) => " pull",
        Kind::Accept { .. } => " accept",
        Kind::Refuse { .. } => " refuse",
        Kind::SourceEnd(_) => " end",
        Kind::SourceFault(_) => " fault",
        Kind::Start { .. } => " start",
        Kind::Take(_) => " take",
        Kind::Answer { .. } => " answer",
        Kind::Tick(_) => " tick",
        Kind::Force => " force",
        Kind::Starve(_) => " starve",
        Kind::Return(_) => " return",
    }
}

/// Appends what an entry says behind its word.
fn push_fields(out: &mut String, kind: &Kind) -> Result<(), NoMemory>
    ensures text { OnOk result (string_bytes out.new ≡ string_bytes out.old ++ spec.kind_fields kind.now) }
    ensures kept { OnOk result (kept.IsKind kind.now) }
{
    match kind {
        Kind::Pull(source) => push_number(out, u64::from(*source)),
        Kind::Accept {
            source,
            item,
            message,
        } => push_accepted(out, *source, item, message.get()),
        Kind::Refuse {
            source,
            item,
            cause,
        } => push_refused(out, *source, item, *cause),
        Kind::SourceEnd(source) => push_number(out, u64::from(*source)),
        Kind::SourceFault(source) => push_number(out, u64::from(*source)),
        Kind::Start { queue, number } => {
            push_number(out, u64::from(*queue))?;
            push_number(out, *number)
        }
        Kind::Take(number) => push_number(out, *number),
        Kind::Answer { number, answer } => {
            push_number(out, *number)?;
            push_answer(out, answer)
        }
        Kind::Tick(due) => push_number(out, *due),
        Kind::Force => Ok(()),
        Kind::Starve(number) => push_number(out, *number),
        Kind::Return(number) => push_number(out, *number),
    }
}

/// Appends the line of an entry: its worker, what it says, and LF. Where memory is wanting, a front part of it may stand there.
#[tactic(auto, unfolding(crate::specs::Lines::entry_text))]
pub fn push_entry(out: &mut String, entry: &Entry) -> Result<(), NoMemory>
    ensures text { OnOk result (string_bytes out.new ≡ string_bytes out.old ++ spec.entry_text entry.now) }
    ensures kept { OnOk result (kept.IsEntry entry.now) }
{
    let mut digits = Buffer::new();
    out.push_str(digits.format(entry.worker))?;
    out.push_str(word(&entry.kind))?;
    push_fields(out, &entry.kind)?;
    out.push_str("\n")?;
    Ok(())
}

/// The line of an entry, with its LF: the worker, a word and its fields, with one space between them and with texts quoted.
/// `read_entry` reads the same entry from it.
pub fn print_entry(alloc: Global, entry: &Entry) -> Result<Text, NoMemory>
    ensures text { IfOk result (λ t. t ≡ spec.entry_text entry.now) }
    ensures kept { IfOk result (λ _. kept.IsEntry entry.now) }
{
    let mut out = String::new(alloc);
    push_entry(&mut out, entry)?;
    Ok(Text::of(out))
}
