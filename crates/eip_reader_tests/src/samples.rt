use eip_exchange::{HeaderFault, Message};
use eip_processor::{Predicate, ProcessFault, Processor, Registry};
use eip_samples::{Sample, SamplePredicate, SampleProcessor, registry};
use eip_text::{NoMemory, Text};
use std::alloc::Global;
use std::test::Fail;

/// The name `h0`, `h1` .. of this number.
fn header_name(alloc: Global, number: usize) -> Result<Text, NoMemory> {
    Ok(Text::of(format!(in alloc; "h{number}")?))
}

/// A message of this body, with this many headers `h0`, `h1` ..
fn message_of(alloc: Global, body: &str, headers: usize) -> Result<Message, HeaderFault> {
    let mut message = Message::of_body(alloc, Text::of_str(alloc, body)?);
    for number in 0..headers {
        let name = header_name(alloc, number)?;
        message.headers.set(name, Text::of_str(alloc, "x")?)?;
    }
    Ok(message)
}

/// What a sample answers to a message of this body, with this many headers.
fn answer_of(
    alloc: Global,
    sample: Sample,
    body: &str,
    headers: usize,
) -> Result<Result<Message, ProcessFault>, HeaderFault> {
    let message = message_of(alloc, body, headers)?;
    Ok(SampleProcessor::new(alloc, sample).process(&message))
}

/// Whether the answer has this body and this header `field`.
fn has_field(answer: &Result<Message, ProcessFault>, body: &str, field: &str) -> bool {
    match answer {
        Ok(message) => match message.headers.get(b"field") {
            Some(value) => message.body.as_str() == body && value.as_str() == field,
            None => false,
        },
        Err(_) => false,
    }
}

/// Whether the answer is the fault of this kind and text.
fn is_raised(answer: &Result<Message, ProcessFault>, kind: &str, text: &str) -> bool {
    match answer {
        Err(ProcessFault::Raised(fault)) => fault.kind.as_str() == kind
            && fault.text.as_str() == text,
        _ => false,
    }
}

/// Whether `Keep` answers a message of this body with this many headers by one of the same body and as many.
fn is_kept(alloc: Global, body: &str, headers: usize) -> Result<bool, HeaderFault> {
    match answer_of(alloc, Sample::Keep, body, headers)? {
        Ok(answer) => Ok(answer.body.as_str() == body && answer.headers.len() == headers),
        Err(_) => Ok(false),
    }
}

#[test]
fn keep_answers_its_message(rt: HostRuntime) -> Result<(), Fail> {
    for (body, headers) in &[("a,b", 2), ("", 0)] {
        assert!(rt; is_kept(rt.alloc(), body, *headers)?, "of {body}");
    }
    Ok(())
}

/// Whether this is the header `field` that `Field` sets on a message of this body.
fn is_field(alloc: Global, body: &str, field: &str) -> Result<bool, HeaderFault> {
    let answer = answer_of(alloc, Sample::Field, body, 0)?;
    Ok(has_field(&answer, body, field))
}

/// Bodies, and their first fields.
const FIELDS: [(&str, &str); 4] = [("a,b,c", "a"), ("whole", "whole"), (",b", ""), ("", "")];

#[test]
fn field_is_the_body_before_its_first_comma(rt: HostRuntime) -> Result<(), Fail> {
    for (body, field) in &FIELDS {
        assert!(rt; is_field(rt.alloc(), body, field)?, "of {body}");
    }
    Ok(())
}

/// Whether `Field` raises where a message has 64 headers, none of which is `field`.
fn is_one_too_many(alloc: Global) -> Result<bool, HeaderFault> {
    let answer = answer_of(alloc, Sample::Field, "a,b", 64)?;
    Ok(is_raised(&answer, "TooManyHeaders", "field"))
}

/// A message with 64 headers, one of which is `Field`.
fn message_with_field(alloc: Global) -> Result<Message, HeaderFault> {
    let name = Text::of_str(alloc, "Field")?;
    let value = Text::of_str(alloc, "old")?;
    let mut message = message_of(alloc, "a,b", 63)?;
    message.headers.set(name, value)?;
    Ok(message)
}

/// Whether `Field` sets the header of that message to this.
fn is_set_again(alloc: Global, field: &str) -> Result<bool, HeaderFault> {
    let message = message_with_field(alloc)?;
    let answer = SampleProcessor::new(alloc, Sample::Field).process(&message);
    Ok(has_field(&answer, "a,b", field))
}

#[test]
fn field_keeps_within_the_limit_of_headers(rt: HostRuntime) -> Result<(), Fail> {
    assert!(rt; is_one_too_many(rt.alloc())?);
    assert!(rt; is_set_again(rt.alloc(), "a")?);
    Ok(())
}

/// Whether `Refuse` raises `Refused` with the body of a message with this many headers.
fn is_refused(alloc: Global, body: &str, headers: usize) -> Result<bool, HeaderFault> {
    let answer = answer_of(alloc, Sample::Refuse, body, headers)?;
    Ok(is_raised(&answer, "Refused", body))
}

#[test]
fn refuse_faults_with_the_body(rt: HostRuntime) -> Result<(), Fail> {
    for (body, headers) in &[("a,b", 1), ("", 0)] {
        assert!(rt; is_refused(rt.alloc(), body, *headers)?, "of {body}");
    }
    Ok(())
}

/// Whether a message of this body with this many headers passes `Empty`.
fn passes(alloc: Global, body: &str, headers: usize) -> Result<bool, HeaderFault> {
    let message = message_of(alloc, body, headers)?;
    Ok(SamplePredicate::Empty.passes(&message))
}

#[test]
fn empty_passes_where_the_body_is_empty(rt: HostRuntime) -> Result<(), Fail> {
    for (body, headers, wanted) in &[("", 1, true), (" ", 0, false)] {
        assert!(rt;
            passes(rt.alloc(), body, *headers)? == *wanted,
            "of {headers} headers"
        );
    }
    Ok(())
}

type Shipped = Registry<SampleProcessor, SamplePredicate>;

/// Whether the name is this one, or there is none.
fn is_name(name: Option<&Text>, wanted: Option<&str>) -> bool {
    name.map(Text::as_str) == wanted
}

/// Whether the processors have the shipped names, in their order.
fn has_processors(shipped: &Shipped) -> bool {
    is_name(shipped.processor_at(0), Some("keep"))
        && is_name(shipped.processor_at(1), Some("field"))
        && is_name(shipped.processor_at(2), Some("refuse"))
        && is_name(shipped.processor_at(3), None)
}

/// Whether the one predicate has the shipped name.
fn has_predicate(shipped: &Shipped) -> bool {
    is_name(shipped.predicate_at(0), Some("empty")) && is_name(shipped.predicate_at(1), None)
}

/// Whether the processor `refuse` raises `Refused` with the body `x`.
fn has_refuse(alloc: Global, shipped: &Shipped) -> Result<bool, HeaderFault> {
    let message = message_of(alloc, "x", 0)?;
    match shipped.find(b"refuse") {
        Some(refuse) => Ok(is_raised(&refuse.process(&message), "Refused", "x")),
        None => Ok(false),
    }
}

#[test]
fn the_registry_has_the_shipped_names(rt: HostRuntime) -> Result<(), Fail> {
    let shipped = registry(rt.alloc())?;
    assert!(rt; has_processors(&shipped) && has_predicate(&shipped));
    assert!(rt; has_refuse(rt.alloc(), &shipped)?);
    Ok(())
}
