use crate::simple::support::predicate_of;
use eip_exchange::{HeaderFault, Headers, Message, Properties};
use eip_simple::{ValueFault, View, holds, value};
use eip_simple_read::{Predicate, SimpleFault, Template, read_template};
use eip_test_support::{message_of, repeated, string_of};
use eip_text::{NoMemory, Text};
use std::alloc::Global;
use std::test::*;

/// The header `Amount` of this value.
fn amount_of(alloc: Global, amount: &str) -> Result<Headers, HeaderFault> {
    let name = Text::of_str(alloc, "Amount")?;
    let value = Text::of_str(alloc, amount)?;
    let mut headers = Headers::new(alloc);
    headers.set(name, value)?;
    Ok(headers)
}

/// The property `CamelExceptionCaught` of this value.
fn caught(alloc: Global, text: &str) -> Result<Properties, NoMemory> {
    let name = Text::of_str(alloc, "CamelExceptionCaught")?;
    let value = Text::of_str(alloc, text)?;
    let mut properties = Properties::new(alloc);
    properties.set(name, value)?;
    Ok(properties)
}

/// A message of the body `Hello` with the header `Amount` and the property `CamelExceptionCaught`.
fn message_with(alloc: Global, amount: &str) -> Result<Message, HeaderFault> {
    let body = Text::of_str(alloc, "Hello")?;
    let headers = amount_of(alloc, amount)?;
    let properties = caught(alloc, "boom")?;
    Ok(Message {
        body,
        headers,
        properties,
    })
}

/// Whether a predicate holds of exchange 7 in the route `r`.
fn holds_of(alloc: Global, predicate: &Predicate, message: &Message) -> Result<bool, NoMemory> {
    let route = Text::of_str(alloc, "r")?;
    let view = View {
        message,
        number: 7,
        route: &route,
    };
    holds(alloc, predicate, &view)
}

/// The same of the predicate that a text spells, or `None` where the text spells none.
pub fn says(alloc: Global, text: &str, message: &Message) -> Result<Option<bool>, NoMemory> {
    match predicate_of(alloc, text, 0) {
        Ok(predicate) => Ok(Some(holds_of(alloc, &predicate, message)?)),
        Err(SimpleFault::NoMemory) => Err(NoMemory),
        Err(_) => Ok(None),
    }
}

/// The first row whose predicate doesn't hold as it wants, or the empty text.
fn wrong_of<'r>(
    alloc: Global,
    message: &Message,
    rows: &[(&'r str, bool)],
) -> Result<&'r str, NoMemory> {
    for (text, want) in rows {
        if says(alloc, text, message)? != Some(*want) {
            return Ok(text);
        }
    }
    Ok("")
}

/// The same for a message whose header `Amount` has this value.
fn wrong<'r>(
    alloc: Global,
    amount: &str,
    rows: &[(&'r str, bool)],
) -> Result<&'r str, HeaderFault> {
    let message = message_with(alloc, amount)?;
    Ok(wrong_of(alloc, &message, rows)?)
}

/// Predicates by equality, and whether they hold where the header is `9`.
const EQUAL: [(&str, bool); 18] = [
    ("${header.Amount} == 9", true),
    ("${header.Amount} == '09'", true),
    ("${header.Amount} == '9a'", false),
    ("'-0' == '0'", true),
    ("'a' == 'A'", false),
    ("'' == ''", true),
    ("null == null", true),
    ("null == ''", false),
    ("${header.none} == null", true),
    ("${body} == null", false),
    ("'9' != '09'", false),
    ("'a' != 'A'", true),
    ("null != null", false),
    ("${header.none} != 'a'", true),
    ("'aB' =~ 'Ab'", true),
    ("'ab' =~ 'ac'", false),
    ("'07' =~ '7'", false),
    ("null =~ null", false),
];

#[test]
fn equality_is_of_numbers_else_of_bytes(rt: HostRuntime) -> Result<(), Fail> {
    let row = wrong(rt.alloc(), "9", &EQUAL)?;
    assert!(rt; row.is_empty(), "of {row}");
    Ok(())
}

/// Predicates by order, and whether they hold where the header is `9`.
const ORDERED: [(&str, bool); 17] = [
    ("${header.Amount} < 10", true),
    ("10 < ${header.Amount}", false),
    ("'-1' < '0'", true),
    ("'9a' < '10'", false),
    ("'10' < '9a'", true),
    ("'' < 'a'", true),
    ("'9223372036854775808' < '93'", true),
    ("null < 'a'", false),
    ("'9' <= '09'", true),
    ("'b' <= 'a'", false),
    ("null <= null", false),
    ("10 > 9", true),
    ("9 > 10", false),
    ("'a' > null", false),
    ("'10' >= '010'", true),
    ("'a' >= 'b'", false),
    ("null >= null", false),
];

#[test]
fn order_is_of_numbers_else_of_bytes(rt: HostRuntime) -> Result<(), Fail> {
    let row = wrong(rt.alloc(), "9", &ORDERED)?;
    assert!(rt; row.is_empty(), "of {row}");
    Ok(())
}

#[test]
fn a_header_is_a_number_where_it_is_read_as_one(rt: HostRuntime) -> Result<(), Fail> {
    for (amount, want) in [("9", true), ("9a", false)] {
        let rows = [("${header.aMOUNT} < 10", want)];
        let row = wrong(rt.alloc(), amount, &rows)?;
        assert!(rt; row.is_empty(), "of {row} and {amount}");
    }
    Ok(())
}

/// Predicates by parts of a text, and whether they hold.
const CONTAINED: [(&str, bool); 19] = [
    ("${body} contains 'ell'", true),
    ("'ell' contains ${body}", false),
    ("${body} contains 'ELL'", false),
    ("'' contains ''", true),
    ("null contains ''", false),
    ("${body} !contains 'x'", true),
    ("${body} !contains 'lo'", false),
    ("null !contains 'a'", true),
    ("${body} ~~ 'ELL'", true),
    ("${body} ~~ 'x'", false),
    ("${body} ~~ null", false),
    ("${body} startsWith 'He'", true),
    ("${body} starts with 'he'", false),
    ("'He' startsWith ${body}", false),
    ("null startsWith ''", false),
    ("${body} endsWith 'llo'", true),
    ("${body} ends with 'ell'", false),
    ("'llo' endsWith ${body}", false),
    ("null endsWith ''", false),
];

#[test]
fn texts_contain_begin_and_end(rt: HostRuntime) -> Result<(), Fail> {
    let row = wrong(rt.alloc(), "9", &CONTAINED)?;
    assert!(rt; row.is_empty(), "of {row}");
    Ok(())
}

/// Predicates by lists and ranges, and whether they hold where the header is `9`.
const AMONG: [(&str, bool); 20] = [
    ("${header.Amount} in '8,09,10'", true),
    ("'a' in 'A,B'", false),
    ("'' in 'a,,b'", true),
    ("'' in ''", true),
    ("null in ''", false),
    ("'9' !in '8,10'", true),
    ("'9' !in '8,9'", false),
    ("null !in 'a'", true),
    ("'5' range '5..9'", true),
    ("'9' range '5..9'", true),
    ("'10' range '5..9'", false),
    ("'-3' range '-5..-1'", true),
    ("'a' range '1..9'", false),
    ("'5' range '1...9'", false),
    ("'5' range '9..1'", false),
    ("null range '1..2'", false),
    ("'5' !range '6..9'", true),
    ("'5' !range '5..9'", false),
    ("'5' !range '1..99999999999999999999'", true),
    ("'5' !range null", true),
];

#[test]
fn texts_are_among_pieces_and_in_ranges(rt: HostRuntime) -> Result<(), Fail> {
    let row = wrong(rt.alloc(), "9", &AMONG)?;
    assert!(rt; row.is_empty(), "of {row}");
    Ok(())
}

/// Predicates by patterns, and whether they hold.
const PATTERNS: [(&str, bool); 7] = [
    ("${body} regex 'H|He..o'", true),
    ("${body} regex 'Hell'", false),
    ("'' regex 'a*'", true),
    ("null regex '.*'", false),
    ("${body} !regex 'ell'", true),
    ("${body} !regex 'H.*'", false),
    ("null !regex 'a'", true),
];

#[test]
fn patterns_match_whole_texts(rt: HostRuntime) -> Result<(), Fail> {
    let row = wrong(rt.alloc(), "9", &PATTERNS)?;
    assert!(rt; row.is_empty(), "of {row}");
    Ok(())
}

/// Predicates of a single side or of several tests, and whether they hold where the header is `False`.
const JOINED: [(&str, bool); 13] = [
    ("true", true),
    ("'FaLsE'", false),
    ("${header.AMOUNT}", false),
    ("''", true),
    ("0", true),
    ("null", false),
    ("true || false && false", true),
    ("false && true || true", true),
    ("false || true && false", false),
    ("${exchangeId} == 7 && ${routeId} == 'r'", true),
    ("${exception.message} == 'boom'", true),
    ("${exchangeProperty.camelExceptionCaught} == null", true),
    ("${exchangeProperty.Amount} == null", true),
];

#[test]
fn single_sides_and_conjunctions_hold(rt: HostRuntime) -> Result<(), Fail> {
    let row = wrong(rt.alloc(), "False", &JOINED)?;
    assert!(rt; row.is_empty(), "of {row}");
    Ok(())
}

/// The value of a template for exchange 7 in the route `r`, or the fault's words.
fn value_of(alloc: Global, template: &Template, message: &Message) -> Result<String, NoMemory> {
    let route = Text::of_str(alloc, "r")?;
    let view = View {
        message,
        number: 7,
        route: &route,
    };
    match value(alloc, template, &view) {
        Ok(value) => string_of(alloc, Ok(value)),
        Err(fault) => value_fault_said(alloc, fault),
    }
}

fn value_fault_said(alloc: Global, fault: ValueFault) -> Result<String, NoMemory> {
    Ok(format!(in alloc; "{fault}")?)
}

/// The same of the template that a text spells, or the words of that text's fault.
pub fn value_said(alloc: Global, text: &str, message: &Message) -> Result<String, NoMemory> {
    let text = Text::of_str(alloc, text)?;
    match read_template(alloc, &text) {
        Ok(template) => value_of(alloc, &template, message),
        Err(fault) => Ok(format!(in alloc; "{fault}")?),
    }
}

/// Whether that is the value for a message whose header `Amount` is `9`.
fn is_value_said(alloc: Global, text: &str, want: &str) -> Result<bool, HeaderFault> {
    let message = message_with(alloc, "9")?;
    let value = value_said(alloc, text, &message)?;
    Ok(value.as_str() == want)
}

/// Templates, and their values where the header is `9`.
const VALUES: [(&str, &str); 4] = [
    ("", ""),
    ("a${header.amount}b${header.none}c", "a9bc"),
    ("${exchangeId}-${routeId}-${body}", "7-r-Hello"),
    ("${exception.message}${exchangeProperty.none}", "boom"),
];

#[test]
fn a_template_joins_its_values(rt: HostRuntime) -> Result<(), Fail> {
    for (text, want) in &VALUES {
        assert!(rt; is_value_said(rt.alloc(), text, want)?, "of {text}");
    }
    Ok(())
}

/// The number of bytes of the value of `${body}x`, or of the fault's words, where the body has so many bytes.
fn joined_length(alloc: Global, body: usize) -> Result<usize, NoMemory> {
    let body = repeated(alloc, "x", body)?;
    let message = message_of(alloc, body.as_str())?;
    Ok(value_said(alloc, "${body}x", &message)?.len())
}

#[test]
fn a_value_has_at_most_65536_bytes(rt: HostRuntime) -> Result<(), Fail> {
    for (len, want) in [(65_535, 65_536), (65_536, 8)] {
        assert!(rt; joined_length(rt.alloc(), len)? == want, "of {len} bytes");
    }
    Ok(())
}
