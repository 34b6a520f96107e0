ghost use Rattle.std.specs.Prelude.{◌≡◌, ◌↔◌, IsTrue, bytes_eq};
ghost use Rattle.std.specs.Option.{option_map};
ghost use Rattle.std.specs.Map.Iter.{deref_pair};
ghost use Rattle.eip_verdict.specs.Same.{same_list, same_pair, same_message, same_fault, same_end, same_ended, same_cause, same_reply};

use eip_exchange::{End, Ended, Fault, Headers, Message, Properties};
use eip_frames::{Answer, Completion};
use eip_text::Text;

/// Whether two texts have the same bytes.
fn same_text(one: &Text, other: &Text) -> bool
    ensures { result ≡ bytes_eq one.now other.now }
{
    one.bytes() == other.bytes()
}

/// Whether two places of pairs hold the same name and value, or none of them holds any.
fn same_place(one: Option<(&Text, &Text)>, other: Option<(&Text, &Text)>) -> bool
    ensures { IsTrue result ↔ option_map deref_pair one.entry ≡ option_map deref_pair other.entry }
{
    match (one, other) {
        (Some((name, value)), Some((other_name, other_value))) => {
            same_text(name, other_name) && same_text(value, other_value)
        }
        (None, None) => true,
        _ => false,
    }
}

fn same_headers(one: &Headers, other: &Headers) -> bool
    ensures { result ≡ same_list same_pair one.now other.now }
{
    if one.len() != other.len() {
        return false;
    }
    for k in 0..one.len() {
        if !same_place(one.at(k), other.at(k)) {
            return false;
        }
    }
    true
}

fn same_properties(one: &Properties, other: &Properties) -> bool
    ensures { result ≡ same_list same_pair one.now other.now }
{
    if one.len() != other.len() {
        return false;
    }
    for k in 0..one.len() {
        if !same_place(one.at(k), other.at(k)) {
            return false;
        }
    }
    true
}

/// Whether two messages have the same body, headers and properties.
fn same_message(one: &Message, other: &Message) -> bool
    ensures { result ≡ same_message one.now other.now }
{
    same_text(&one.body, &other.body)
        && same_headers(&one.headers, &other.headers)
        && same_properties(&one.properties, &other.properties)
}

/// Whether two faults have the same kind and text.
fn same_fault(one: &Fault, other: &Fault) -> bool
    ensures { result ≡ same_fault one.now other.now }
{
    same_text(&one.kind, &other.kind) && same_text(&one.text, &other.text)
}

/// Whether two ends are one.
fn same_end(one: &End, other: &End) -> bool
    ensures { result ≡ same_end one.now other.now }
{
    match (one, other) {
        (End::Completed, End::Completed) | (End::Handled, End::Handled) => true,
        (End::Failed(fault), End::Failed(other_fault)) => same_fault(fault, other_fault),
        _ => false,
    }
}

fn same_ended(one: &Ended, other: &Ended) -> bool
    ensures { result ≡ same_ended one.now other.now }
{
    same_end(&one.end, &other.end) && same_message(&one.message, &other.message)
}

fn same_parts(one: &[Ended], other: &[Ended]) -> bool
    ensures { result ≡ same_list same_ended one.now other.now }
{
    if one.len() != other.len() {
        return false;
    }
    for k in 0..one.len() {
        if !same_ended(&one[k], &other[k]) {
            return false;
        }
    }
    true
}

fn same_cause(one: Completion, other: Completion) -> bool
    ensures { result ≡ same_cause one other }
{
    match (one, other) {
        (Completion::Size, Completion::Size)
        | (Completion::Predicate, Completion::Predicate)
        | (Completion::Timeout, Completion::Timeout)
        | (Completion::Force, Completion::Force) => true,
        _ => false,
    }
}

/// Whether two answers are one. It takes no memory.
pub fn same_answer(one: &Answer, other: &Answer) -> bool
    ensures { result ≡ same_reply one.now other.now }
{
    match (one, other) {
        (Answer::Done, Answer::Done)
        | (Answer::SendFailed, Answer::SendFailed)
        | (Answer::Exists, Answer::Exists)
        | (Answer::Dropped, Answer::Dropped)
        | (Answer::Entered, Answer::Entered)
        | (Answer::Fresh, Answer::Fresh)
        | (Answer::Noted, Answer::Noted)
        | (Answer::Finished, Answer::Finished)
        | (Answer::CommitFailed, Answer::CommitFailed) => true,
        (Answer::Holds(true), Answer::Holds(true)) | (Answer::Holds(false), Answer::Holds(false)) =>
            true,
        (Answer::Became(message), Answer::Became(other)) => same_message(
            message.get(),
            other.get(),
        ),
        (Answer::Raised(fault), Answer::Raised(other)) => same_fault(fault.get(), other.get()),
        (Answer::Unfit(fault), Answer::Unfit(other)) => same_fault(fault.get(), other.get()),
        (Answer::Joined(parts), Answer::Joined(others)) => same_parts(
            parts.items(),
            others.items(),
        ),
        (Answer::Queued(number), Answer::Queued(other)) => number == other,
        (Answer::Full(length), Answer::Full(other)) => length == other,
        (Answer::Arrived(group), Answer::Arrived(other)) => group == other,
        (Answer::Duplicate(holder), Answer::Duplicate(other)) => holder == other,
        (Answer::Slept(moment), Answer::Slept(other)) => moment == other,
        (
            Answer::Born { first, count },
            Answer::Born {
                first: other_first,
                count: other_count,
            },
        ) => first == other_first && count == other_count,
        (
            Answer::Closed {
                group,
                cause,
                number,
            },
            Answer::Closed {
                group: other_group,
                cause: other_cause,
                number: other_number,
            },
        ) => group == other_group && same_cause(*cause, *other_cause) && number == other_number,
        _ => false,
    }
}
