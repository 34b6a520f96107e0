// Predicates and templates where memory is ample, at the sizes that values may have. In a row `«N*TEXT»` stands for so
// many times this text.
use crate::simple::texts::{is_predicate_said, matched, template_said};
use crate::simple::values::{says, value_said};
use eip_exchange::{HeaderFault, Message};
use eip_test_support::{message_of, message_of_size, repeated, written_out};
use eip_text::NoMemory;
use std::alloc::Global;
use std::test::*;

/// Predicates, and whether they hold where the body is 65,536 times `x`.
const SIDES: [(&str, bool); 17] = [
    ("${body} == '«65536*x»'", true),
    ("${body} == '«65535*x»y'", false),
    ("${body} != '«65536*x»'", false),
    ("${body} =~ '«65536*X»'", true),
    ("${body} < '«65536*x»'", false),
    ("${body} <= '«65536*x»'", true),
    ("${body} contains '«65536*x»'", true),
    ("${body} contains '«32768*x»'", true),
    ("${body} ~~ '«65536*X»'", true),
    ("${body} startsWith '«65536*x»'", true),
    ("${body} endsWith '«65536*x»'", true),
    ("${body} in '«65536*x»'", true),
    ("${body} in '«32767*x,»yy'", false),
    ("${body} range '«32767*1»..«32767*1»'", false),
    ("${body} regex 'x*'", true),
    ("${body} regex '(x|y)+y'", false),
    ("'«65536*x»' == \"«65536*x»\" && '«65536*y»'", true),
];

/// A message whose body is so many times this text.
fn message_of_many(alloc: Global, text: &str, times: usize) -> Result<Message, NoMemory> {
    let body = repeated(alloc, text, times)?;
    message_of(alloc, body.as_str())
}

/// Whether a predicate holds where the body is 65,536 times `x`.
fn says_at_size(alloc: Global, marked: &str) -> Result<Option<bool>, NoMemory> {
    let text = written_out(alloc, marked)?;
    let message = message_of_many(alloc, "x", 65_536)?;
    says(alloc, text.as_str(), &message)
}

#[test]
fn sides_and_bodies_of_65536_bytes_are_compared(rt: HostRuntime) -> Result<(), Fail> {
    for (predicate, want) in &SIDES {
        let got = says_at_size(rt.alloc(), predicate)?;
        assert!(rt; got == Some(*want), "of {predicate}");
    }
    Ok(())
}

/// Patterns of 200 bytes, a text, and whether the whole of it matches.
const PATTERNS: [(&str, &str, bool); 8] = [
    ("«200*x»", "«200*x»", true),
    ("«200*x»", "«199*x»", false),
    ("«40*[a-z]»", "«40*k»", true),
    ("«40*[a-z]»", "«39*k»K", false),
    ("«100*a?»", "«100*a»", true),
    ("«100*a?»", "«101*a»", false),
    ("«50*ab|c»", "cab", true),
    ("«28*(a|bc)+»xxxx", "«9000*abc»xxxx", true),
];

/// Whether a pattern matches the whole of a text.
fn matched_at_size(alloc: Global, pattern: &str, text: &str) -> Result<Option<bool>, NoMemory> {
    let mut predicate = String::from_str(alloc, "${body} regex '")?;
    predicate.push_str(written_out(alloc, pattern)?.as_str())?;
    predicate.push('\'')?;
    let text = written_out(alloc, text)?;
    matched(alloc, predicate.as_str(), text.as_str())
}

#[test]
fn patterns_of_200_bytes_are_built_and_match(rt: HostRuntime) -> Result<(), Fail> {
    for (pattern, text, want) in &PATTERNS {
        let got = matched_at_size(rt.alloc(), pattern, text)?;
        assert!(rt; got == Some(*want), "of {pattern}");
    }
    Ok(())
}

/// Predicates, and what is told of the pattern that has no place among those before it: a pattern takes 4,096 bytes of a room
/// of 50,331,648 for each byte of its text, and 65,536 more.
const TOO_LARGE: [(&str, &str); 4] = [
    ("${body} regex '«12289*a»'", "PatternTooLarge 14"),
    ("${body} regex '«12273*a»'", "PatternTooLarge 14"),
    (
        "${body} regex '«4000*a»' && ${body} regex '«4000*a»' && ${body} regex '«4000*a»' && ${body} regex 'b'",
        "${body} regex '«4000*a»' && ${body} regex '«4000*a»' && ${body} regex '«4000*a»' && ${body} regex 'b'",
    ),
    (
        "${body} regex '«4000*a»' && ${body} regex '«4000*a»' && ${body} regex '«4000*a»' && ${body} regex '«300*b»'",
        "PatternTooLarge 12074",
    ),
];

/// Whether that is told of a predicate.
fn is_said_at_size(alloc: Global, marked: &str, want: &str) -> Result<bool, NoMemory> {
    let text = written_out(alloc, marked)?;
    let want = written_out(alloc, want)?;
    is_predicate_said(alloc, text.as_str(), 0, want.as_str())
}

#[test]
fn the_patterns_of_a_builder_share_a_room(rt: HostRuntime) -> Result<(), Fail> {
    for (marked, want) in &TOO_LARGE {
        assert!(rt; is_said_at_size(rt.alloc(), marked, want)?, "of {marked}");
    }
    Ok(())
}

/// Templates of 65,000 bytes, the length of the body, and that of the value.
const TEMPLATES: [(&str, usize, usize); 4] = [
    ("«65000*x»", 1, 65_000),
    ("«64993*x»${body}", 543, 65_536),
    ("«9285*${body}»«5*x»", 7, 65_000),
    ("«9285*${body}»«5*x»", 0, 5),
];

/// The length of a template's value where the body has so many bytes.
fn value_length(alloc: Global, text: &str, body: usize) -> Result<usize, NoMemory> {
    let message = message_of_many(alloc, "b", body)?;
    Ok(value_said(alloc, text, &message)?.len())
}

/// The length of a template, whether it prints as its text, and the length of its value where the body has so many
/// bytes.
fn template_at_size(
    alloc: Global,
    marked: &str,
    body: usize,
) -> Result<(usize, bool, usize), NoMemory> {
    let text = written_out(alloc, marked)?;
    let value = value_length(alloc, text.as_str(), body)?;
    let printed = template_said(alloc, text.as_str())?;
    Ok((text.len(), printed.as_str() == text.as_str(), value))
}

#[test]
fn templates_of_65000_bytes_are_read_printed_and_evaluated(rt: HostRuntime) -> Result<(), Fail> {
    for (template, body, want) in &TEMPLATES {
        let got = template_at_size(rt.alloc(), template, *body)?;
        assert!(rt; got == (65_000, true, *want), "of {template}");
    }
    Ok(())
}

/// The lengths of the values of a header and of a property, where each of the message has so many bytes.
fn evaluated_at_size(alloc: Global, size: usize) -> Result<[usize; 2], HeaderFault> {
    let message = message_of_size(alloc, size)?;
    let header = value_said(alloc, "${header.h}", &message)?.len();
    Ok([
        header,
        value_said(alloc, "${exchangeProperty.p}", &message)?.len(),
    ])
}

#[test]
fn headers_and_properties_of_65536_bytes_are_evaluated(rt: HostRuntime) -> Result<(), Fail> {
    let size = 65_536;
    assert!(rt; evaluated_at_size(rt.alloc(), size)? == [size, size]);
    Ok(())
}
