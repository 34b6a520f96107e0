ghost use Rattle.std.specs.Prelude.{◌≡◌, ◌++◌, OnOk, string_bytes};
ghost use Rattle.std.specs.List.{flat_map};
ghost use Rattle.std.specs.Str.{IsUtf8};
ghost use Rattle.eip_dump.specs.Kept as kept;
ghost use Rattle.eip_dump.specs.Lines as spec;

use eip_exchange::{End, Ended, Fault, Headers, Message, Properties};
use eip_text::{NoMemory, Text, push_quoted};
use itoa::Buffer;

// Each function appends to a text. Where memory is wanting, a front part of what it appends may stand there.

/// Appends a space and a number.
pub fn push_number(out: &mut String, number: u64) -> Result<(), NoMemory>
    ensures { OnOk result (string_bytes out.new ≡ string_bytes out.old ++ spec.number number) }
{
    let mut digits = Buffer::new();
    out.push_str(" ")?;
    out.push_str(digits.format(number))?;
    Ok(())
}

/// Appends a space and a quoted text.
pub fn push_phrase(out: &mut String, text: &Text) -> Result<(), NoMemory>
    ensures text { OnOk result (string_bytes out.new ≡ string_bytes out.old ++ spec.phrase text.now) }
    ensures kept { OnOk result (IsUtf8 text.now) }
{
    out.push_str(" ")?;
    push_quoted(out, text.as_str())
}

/// Appends a name and its value.
fn push_pair(out: &mut String, name: &Text, value: &Text) -> Result<(), NoMemory>
    ensures text { OnOk result (string_bytes out.new ≡ string_bytes out.old ++ spec.pair_text (name.now, value.now)) }
    ensures kept { OnOk result (IsUtf8 name.now × IsUtf8 value.now) }
{
    push_phrase(out, name)?;
    push_phrase(out, value)
}

/// Appends each header with its value.
fn push_headers(out: &mut String, headers: &Headers) -> Result<(), NoMemory>
    ensures text { OnOk result (string_bytes out.new ≡ string_bytes out.old ++ flat_map spec.pair_text headers.now) }
    ensures kept { OnOk result (kept.AreTexts headers.now) }
{
    for place in 0..headers.len() {
        let Some((name, value)) = headers.at(place) else {
            unreachable!()
        };
        push_pair(out, name, value)?;
    }
    Ok(())
}

/// Appends each property with its value.
fn push_properties(out: &mut String, properties: &Properties) -> Result<(), NoMemory>
    ensures text { OnOk result (string_bytes out.new ≡ string_bytes out.old ++ flat_map spec.pair_text properties.now) }
    ensures kept { OnOk result (kept.AreTexts properties.now) }
{
    for place in 0..properties.len() {
        let Some((name, value)) = properties.at(place) else {
            unreachable!()
        };
        push_pair(out, name, value)?;
    }
    Ok(())
}

/// Appends a message: its body, how many headers it has and each of them, and the same of its properties.
pub fn push_message(out: &mut String, message: &Message) -> Result<(), NoMemory>
    ensures text { OnOk result (string_bytes out.new ≡ string_bytes out.old ++ spec.message_text message.now) }
    ensures kept { OnOk result (kept.IsMessage message.now) }
{
    push_phrase(out, &message.body)?;
    push_number(out, message.headers.len() as u64)?;
    push_headers(out, &message.headers)?;
    push_number(out, message.properties.len() as u64)?;
    push_properties(out, &message.properties)
}

/// Appends a fault: its kind and its text.
pub fn push_fault(out: &mut String, fault: &Fault) -> Result<(), NoMemory>
    ensures text { OnOk result (string_bytes out.new ≡ string_bytes out.old ++ spec.fault_text fault.now) }
    ensures kept { OnOk result (kept.IsFault fault.now) }
{
    push_phrase(out, &fault.kind)?;
    push_phrase(out, &fault.text)
}

/// Appends how an exchange ended.
fn push_end(out: &mut String, end: &End) -> Result<(), NoMemory>
    ensures text { OnOk result (string_bytes out.new ≡ string_bytes out.old ++ spec.end_text end.now) }
    ensures kept { OnOk result (kept.IsEnd end.now) }
{
    match end {
        End::Completed => Ok(out.push_str(" completed")?),
        End::Handled => Ok(out.push_str(" handled")?),
        End::Failed(fault) => {
            out.push_str(" failed")?;
            push_fault(out, fault)
        }
    }
}

/// Appends how a part ended, and its message.
pub fn push_ended(out: &mut String, ended: &Ended) -> Result<(), NoMemory>
    ensures text { OnOk result (string_bytes out.new ≡ string_bytes out.old ++ spec.ended_text ended.now) }
    ensures kept { OnOk result (kept.IsEnd ended.now.end × kept.IsMessage ended.now.message) }
{
    push_end(out, &ended.end)?;
    push_message(out, &ended.message)
}
