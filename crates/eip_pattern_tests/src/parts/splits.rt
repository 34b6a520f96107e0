ghost use Rattle.std.specs.Prelude.{IfOk};
ghost use Rattle.eip_splitter.specs.Splitting.{HasToken};

use eip_exchange::{HeaderFault, Headers, How, Message, Properties};
use eip_splitter::{SplitFault, parts};
use eip_text::{NoMemory, Text};
use std::alloc::Global;
use std::test::*;

fn message_of(alloc: Global, body: &str) -> Result<Message, NoMemory> {
    Ok(Message::of_body(alloc, Text::of_str(alloc, body)?))
}

/// A split by the token, or of a JSON array where the token is empty.
fn how_of(alloc: Global, token: &str) -> Result<How, NoMemory>
    ensures { IfOk result HasToken }
{
    if token.is_empty() {
        return Ok(How::JsonArray);
    }
    Ok(How::Token(Text::of_str(alloc, token)?))
}

/// The bodies, each with `|` behind it.
fn bodies_of(alloc: Global, messages: &[Message]) -> Result<String, NoMemory> {
    let mut out = String::new(alloc);
    for message in messages {
        out.push_str(message.body.as_str())?;
        out.push('|')?;
    }
    Ok(out)
}

/// The bodies of the parts of a message.
fn split_message(alloc: Global, message: &Message, how: &How) -> Result<String, SplitFault>
    requires { HasToken how.now }
{
    let made = parts(alloc, message, how)?;
    Ok(bodies_of(alloc, &made)?)
}

/// The bodies of the parts of a message with this body.
fn split(alloc: Global, body: &str, token: &str) -> Result<String, SplitFault> {
    let how = how_of(alloc, token)?;
    let message = message_of(alloc, body)?;
    split_message(alloc, &message, &how)
}

fn is_split(alloc: Global, body: &str, token: &str, want: &str) -> Result<bool, SplitFault> {
    Ok(split(alloc, body, token)?.as_str() == want)
}

/// The fault of a split, or `None` where it has parts.
fn fault_of(alloc: Global, body: &str, token: &str) -> Option<SplitFault> {
    split(alloc, body, token).err()
}

/// Bodies, a token, and the bodies of the parts.
const CUT: [(&str, &str, &str); 8] = [
    ("", ",", ""),
    ("a,b,c;d,e,f", ";", "a,b,c|d,e,f|"),
    ("a,b,c", ",", "a|b|c|"),
    ("d,e,f", ",", "d|e|f|"),
    ("a,,b,", ",", "a||b|"),
    (",", ",", "|"),
    ("a---b", "--", "a|-b|"),
    ("abc", ",", "abc|"),
];

#[test]
fn a_token_cuts_at_each_of_its_places(rt: HostRuntime) -> Result<(), Fail> {
    for (body, token, want) in CUT {
        assert!(rt;
            is_split(rt.alloc(), body, token, want)?,
            "of {body} by {token}"
        );
    }
    Ok(())
}

/// Bodies, a token, and the bodies of the parts.
const LINES: [(&str, &str, &str); 4] = [
    ("a\r\nb\n", "\n", "a|b|"),
    ("a\r\r\n\r", "\n", "a\r||"),
    ("a\r,b", ",", "a\r|b|"),
    ("a\r\nb", "\r\n", "a|b|"),
];

#[test]
fn lines_lose_one_carriage_return(rt: HostRuntime) -> Result<(), Fail> {
    for (body, token, want) in LINES {
        assert!(rt; is_split(rt.alloc(), body, token, want)?, "want {want}");
    }
    Ok(())
}

/// Arrays, and the bodies of the parts.
const ARRAYS: [(&str, &str); 4] = [
    ("[1,\"a\",{\"b\":2,\"a\":[]}]", "1|a|{\"a\":[],\"b\":2}|"),
    (
        " [ null , true , -7 , [ 1 , \"b\" ] ] ",
        "null|true|-7|[1,\"b\"]|",
    ),
    ("[\"a\\nb\",{\"k\":\"a\\nb\"}]", "a\nb|{\"k\":\"a\\nb\"}|"),
    ("[]", ""),
];

#[test]
fn an_array_gives_its_elements(rt: HostRuntime) -> Result<(), Fail> {
    for (body, want) in ARRAYS {
        assert!(rt; is_split(rt.alloc(), body, "", want)?, "of {body}");
    }
    Ok(())
}

/// Bodies that are no array of texts and whole numbers.
const NO_ARRAYS: [&str; 9] = [
    "[1.5]",
    "[-0]",
    "[1e2]",
    "[18446744073709551616]",
    "[[{\"a\":1.0}]]",
    "{}",
    "1",
    "",
    "[1",
];

#[test]
fn what_is_no_array_of_whole_numbers_is_refused(rt: HostRuntime) -> Result<(), Fail> {
    for body in NO_ARRAYS {
        assert!(rt;
            fault_of(rt.alloc(), body, "") == Some(SplitFault::NotArray),
            "of {body}"
        );
    }
    let whole = "[18446744073709551615,-9223372036854775808]";
    assert!(rt; fault_of(rt.alloc(), whole, "").is_none());
    Ok(())
}

/// So many times this text.
fn repeated(alloc: Global, text: &str, times: usize) -> Result<String, NoMemory> {
    let mut out = String::new(alloc);
    for _ in 0..times {
        out.push_str(text)?;
    }
    Ok(out)
}

/// The number of parts of this body between commas.
fn count_parts(alloc: Global, body: &str) -> Result<usize, SplitFault> {
    let how = how_of(alloc, ",")?;
    let message = message_of(alloc, body)?;
    Ok(parts(alloc, &message, &how)?.len())
}

/// The number of parts of a body of so many commas, each behind this text.
fn count_of(alloc: Global, text: &str, commas: usize) -> Result<usize, SplitFault> {
    let body = repeated(alloc, text, commas)?;
    count_parts(alloc, body.as_str())
}

#[test]
fn a_message_has_at_most_10000_parts(rt: HostRuntime) -> Result<(), Fail> {
    assert!(rt; count_of(rt.alloc(), ",", 10_000) == Ok(10_000));
    assert!(rt; count_of(rt.alloc(), "xy,", 10_001) == Err(SplitFault::TooManyParts(10_001)));
    assert!(rt; count_of(rt.alloc(), ",", 65_536) == Err(SplitFault::TooManyParts(65_536)));
    Ok(())
}

/// A body of 65,536 bytes with 10,000 pieces between commas.
fn full_body(alloc: Global) -> Result<String, NoMemory> {
    let mut body = repeated(alloc, "abcdef,", 5_536)?;
    let rest = repeated(alloc, "ABCDE,", 4_464)?;
    body.push_str(rest.as_str())?;
    Ok(body)
}

/// The body, the headers and the properties, in their order.
pub fn shown(alloc: Global, message: &Message) -> Result<String, NoMemory> {
    let mut out = String::from_str(alloc, message.body.as_str())?;
    for k in 0..message.headers.len() {
        push_pair(&mut out, message.headers.at(k))?;
    }
    for k in 0..message.properties.len() {
        push_pair(&mut out, message.properties.at(k))?;
    }
    Ok(out)
}

fn push_pair(out: &mut String, pair: Option<(&Text, &Text)>) -> Result<(), NoMemory> {
    if let Some((name, value)) = pair {
        out.push(' ')?;
        out.push_str(name.as_str())?;
        out.push('=')?;
        out.push_str(value.as_str())?;
    }
    Ok(())
}

/// The part at this place, as it is shown, or the empty text where there is none.
fn shown_at(alloc: Global, made: &[Message], place: usize) -> Result<String, NoMemory> {
    match made.get(place) {
        Some(part) => shown(alloc, part),
        None => Ok(String::new(alloc)),
    }
}

/// The part at this place, as it is shown, of a split by commas, or the empty text where there is none.
fn part_shown(alloc: Global, message: &Message, place: usize) -> Result<String, SplitFault> {
    let how = how_of(alloc, ",")?;
    let made = parts(alloc, message, &how)?;
    Ok(shown_at(alloc, &made, place)?)
}

/// Whether the parts at these places of a split by commas are shown so.
fn are_parts(alloc: Global, message: &Message, rows: &[(usize, &str)]) -> Result<bool, SplitFault> {
    for (place, want) in rows {
        if part_shown(alloc, message, *place)?.as_str() != *want {
            return Ok(false);
        }
    }
    Ok(true)
}

/// Whether the parts at these places of the body of 65,536 bytes are shown so.
fn are_full_parts(alloc: Global, rows: &[(usize, &str)]) -> Result<bool, SplitFault> {
    let body = full_body(alloc)?;
    let message = message_of(alloc, body.as_str())?;
    if body.len() == 65_536 {
        are_parts(alloc, &message, rows)
    } else {
        Ok(false)
    }
}

/// Places, and the part there as it is shown.
const FULL_PARTS: [(usize, &str); 4] = [
    (
        0,
        "abcdef CamelSplitIndex=0 CamelSplitSize=10000 CamelSplitComplete=false",
    ),
    (
        5_536,
        "ABCDE CamelSplitIndex=5536 CamelSplitSize=10000 CamelSplitComplete=false",
    ),
    (
        9_999,
        "ABCDE CamelSplitIndex=9999 CamelSplitSize=10000 CamelSplitComplete=true",
    ),
    (10_000, ""),
];

#[test]
fn a_full_body_has_10000_parts(rt: HostRuntime) -> Result<(), Fail> {
    assert!(rt; are_full_parts(rt.alloc(), &FULL_PARTS)?);
    Ok(())
}

/// The header `To` of an outer part.
fn outer_headers(alloc: Global) -> Result<Headers, HeaderFault> {
    let name = Text::of_str(alloc, "To")?;
    let value = Text::of_str(alloc, "x")?;
    let mut headers = Headers::new(alloc);
    headers.set(name, value)?;
    Ok(headers)
}

/// The properties of an outer part.
const OUTER: [(&str, &str); 3] = [
    ("CamelSplitSize", "2"),
    ("p", "v"),
    ("CamelSplitIndex", "1"),
];

fn set_property(
    alloc: Global,
    properties: &mut Properties,
    name: &str,
    value: &str,
) -> Result<(), NoMemory> {
    let name = Text::of_str(alloc, name)?;
    let value = Text::of_str(alloc, value)?;
    properties.set(name, value)
}

fn outer_properties(alloc: Global) -> Result<Properties, NoMemory> {
    let mut properties = Properties::new(alloc);
    for (name, value) in OUTER {
        set_property(alloc, &mut properties, name, value)?;
    }
    Ok(properties)
}

/// A part of an outer split, with a header and a property of its own.
fn outer_part(alloc: Global) -> Result<Message, HeaderFault> {
    let body = Text::of_str(alloc, "a,b,c")?;
    let headers = outer_headers(alloc)?;
    let properties = outer_properties(alloc)?;
    Ok(Message {
        body,
        headers,
        properties,
    })
}

/// The part at this place of that message, as it is shown.
fn inner_part(alloc: Global, place: usize) -> Result<String, HeaderFault> {
    let message = outer_part(alloc)?;
    match part_shown(alloc, &message, place) {
        Ok(part) => Ok(part),
        Err(_) => Err(HeaderFault::NoMemory),
    }
}

fn is_inner_part(alloc: Global, place: usize, want: &str) -> Result<bool, HeaderFault> {
    Ok(inner_part(alloc, place)?.as_str() == want)
}

/// Places, and the part there as it is shown.
const INNER_PARTS: [(usize, &str); 3] = [
    (
        0,
        "a To=x CamelSplitSize=3 p=v CamelSplitIndex=0 CamelSplitComplete=false",
    ),
    (
        1,
        "b To=x CamelSplitSize=3 p=v CamelSplitIndex=1 CamelSplitComplete=false",
    ),
    (
        2,
        "c To=x CamelSplitSize=3 p=v CamelSplitIndex=2 CamelSplitComplete=true",
    ),
];

#[test]
fn a_part_has_the_headers_and_properties_of_its_message(rt: HostRuntime) -> Result<(), Fail> {
    for (place, want) in INNER_PARTS {
        assert!(rt; is_inner_part(rt.alloc(), place, want)?, "at {place}");
    }
    Ok(())
}
