use eip_exchange::{HeaderFault, Headers, Message, Properties};
use eip_text::{NoMemory, Text};
use std::alloc::Global;
use std::mem::size_of;
use std::test::*;

fn set_header(
    alloc: Global,
    headers: &mut Headers,
    name: &str,
    value: &str,
) -> Result<(), HeaderFault> {
    let name = Text::of_str(alloc, name)?;
    headers.set(name, Text::of_str(alloc, value)?)
}

fn headers_of(alloc: Global, rows: &[(&str, &str)]) -> Result<Headers, HeaderFault> {
    let mut headers = Headers::new(alloc);
    for (name, value) in rows {
        set_header(alloc, &mut headers, name, value)?;
    }
    Ok(headers)
}

fn set_property(
    alloc: Global,
    properties: &mut Properties,
    name: &str,
    value: &str,
) -> Result<(), NoMemory> {
    let name = Text::of_str(alloc, name)?;
    properties.set(name, Text::of_str(alloc, value)?)
}

fn properties_of(alloc: Global, rows: &[(&str, &str)]) -> Result<Properties, NoMemory> {
    let mut properties = Properties::new(alloc);
    for (name, value) in rows {
        set_property(alloc, &mut properties, name, value)?;
    }
    Ok(properties)
}

fn is_pair(pair: Option<(&Text, &Text)>, name: &str, value: &str) -> bool {
    match pair {
        Some((n, v)) => n.as_str() == name && v.as_str() == value,
        None => false,
    }
}

fn is_value(got: Option<&Text>, value: &str) -> bool {
    match got {
        Some(got) => got.as_str() == value,
        None => false,
    }
}

// Whether these are the headers, by their places and by their names in upper case.
fn are_headers(headers: &Headers, rows: &[(&str, &str, &str)]) -> bool {
    for (k, (name, upper, value)) in rows.iter().enumerate() {
        let got = headers.get(upper.as_bytes());
        if !is_pair(headers.at(k), name, value) || !is_value(got, value) {
            return false;
        }
    }
    headers.len() == rows.len() && headers.at(rows.len()).is_none()
}

fn are_properties(properties: &Properties, rows: &[(&str, &str)]) -> bool {
    for (k, (name, value)) in rows.iter().enumerate() {
        let got = properties.get(name.as_bytes());
        if !is_pair(properties.at(k), name, value) || !is_value(got, value) {
            return false;
        }
    }
    properties.len() == rows.len() && properties.at(rows.len()).is_none()
}

/// Headers in the order in which they are set.
const SET: [(&str, &str); 5] = [
    ("Order", "1"),
    ("größe", "2"),
    ("", "3"),
    ("ORDER", "4"),
    ("GRÖßE", "5"),
];

/// The headers that are then there.
const KEPT: [(&str, &str, &str); 4] = [
    ("Order", "ORDER", "4"),
    ("größe", "GRößE", "2"),
    ("", "", "3"),
    ("GRÖßE", "GRÖßE", "5"),
];

/// Whether the headers are kept, removed once and then no more, and the others are still there.
fn kept_and_removed(alloc: Global) -> Result<[bool; 4], HeaderFault> {
    let mut headers = headers_of(alloc, &SET)?;
    let kept = are_headers(&headers, &KEPT);
    let removed = headers.remove(b"order")?;
    let removed_again = headers.remove(b"order")?;
    Ok([
        kept,
        removed,
        removed_again,
        are_headers(&headers, &KEPT[1..]),
    ])
}

#[test]
fn header_names_are_equal_up_to_ascii_case(rt: HostRuntime) -> Result<(), Fail> {
    assert!(rt; kept_and_removed(rt.alloc())? == [true, true, false, true]);
    Ok(())
}

/// A header of redelivery and 64 others, `h0` to `h63`.
fn full_headers(alloc: Global) -> Result<Headers, HeaderFault> {
    let mut headers = headers_of(alloc, &[("camelredelivered", "true")])?;
    for k in 0..64 {
        let name = numbered(alloc, k)?;
        set_header(alloc, &mut headers, name.as_str(), "x")?;
    }
    Ok(headers)
}

fn numbered(alloc: Global, number: u64) -> Result<String, NoMemory> {
    Ok(format!(in alloc; "h{number}")?)
}

/// The answer to a setting and the number of headers behind it.
fn answered(
    alloc: Global,
    headers: &mut Headers,
    name: &str,
    value: &str,
) -> (Option<HeaderFault>, usize) {
    let fault = set_header(alloc, headers, name, value).err();
    (fault, headers.len())
}

/// What the settings of further headers answer: of a new one, of one that is there, of one of redelivery, and of a new
/// one once another was removed.
fn further_settings(alloc: Global) -> Result<[(Option<HeaderFault>, usize); 4], HeaderFault> {
    let mut headers = full_headers(alloc)?;
    let added = answered(alloc, &mut headers, "h64", "x");
    let replaced = answered(alloc, &mut headers, "H63", "y");
    let of_redelivery = answered(alloc, &mut headers, "CamelRedeliveryCounter", "1");
    headers.remove(b"h0")?;
    let added_again = answered(alloc, &mut headers, "h64", "x");
    Ok([added, replaced, of_redelivery, added_again])
}

/// Whether a header that is set again among 65 keeps its place and its spelling.
fn keeps_its_place(alloc: Global) -> Result<bool, HeaderFault> {
    let mut headers = full_headers(alloc)?;
    set_header(alloc, &mut headers, "H63", "y")?;
    Ok(is_pair(headers.at(64), "h63", "y"))
}

#[test]
fn the_sixty_fifth_header_is_refused(rt: HostRuntime) -> Result<(), Fail> {
    let wanted = [
        (Some(HeaderFault::TooManyHeaders), 65),
        (None, 65),
        (None, 66),
        (None, 66),
    ];
    let told = further_settings(rt.alloc())?;
    assert!(rt; told == wanted);
    assert!(rt; keeps_its_place(rt.alloc())?);
    Ok(())
}

/// Whether the properties are kept, removed once and then no more, and the other is still there.
fn exact_properties(alloc: Global) -> Result<[bool; 4], NoMemory> {
    let mut properties = properties_of(alloc, &[("A", "1"), ("a", "2"), ("A", "3")])?;
    let kept = are_properties(&properties, &[("A", "3"), ("a", "2")]);
    let removed = properties.remove(b"A")?;
    let removed_again = properties.remove(b"A")?;
    Ok([
        kept,
        removed,
        removed_again,
        are_properties(&properties, &[("a", "2")]),
    ])
}

#[test]
fn property_names_are_exact(rt: HostRuntime) -> Result<(), Fail> {
    assert!(rt; exact_properties(rt.alloc())? == [true, true, false, true]);
    Ok(())
}

/// A message with two headers and a property.
fn filled_message(alloc: Global) -> Result<Message, HeaderFault> {
    let body = Text::of_str(alloc, "body")?;
    let headers = headers_of(alloc, &[("a", "1"), ("b", "2")])?;
    let properties = properties_of(alloc, &[("p", "3")])?;
    Ok(Message {
        body,
        headers,
        properties,
    })
}

/// A copy of a message, which shares its pairs until a header of the message is set, another removed from the copy, and the
/// property from the message.
fn changed_copy(alloc: Global, message: &mut Message) -> Result<Message, HeaderFault> {
    let mut copy = message.copy(alloc)?;
    set_header(alloc, &mut message.headers, "A", "9")?;
    let _ = copy.headers.remove(b"b")?;
    let _ = message.properties.remove(b"p")?;
    Ok(copy)
}

/// Whether each of the two has its own changes, and none of the other's.
fn stand_alone(alloc: Global) -> Result<[bool; 5], HeaderFault> {
    let mut message = filled_message(alloc)?;
    let copy = changed_copy(alloc, &mut message)?;
    Ok([
        are_headers(&message.headers, &[("a", "A", "9"), ("b", "B", "2")]),
        are_properties(&message.properties, &[]),
        copy.body.as_str() == "body",
        are_headers(&copy.headers, &[("a", "A", "1")]),
        are_properties(&copy.properties, &[("p", "3")]),
    ])
}

#[test]
fn a_message_and_its_copy_stand_alone(rt: HostRuntime) -> Result<(), Fail> {
    assert!(rt; stand_alone(rt.alloc())? == [true; 5]);
    Ok(())
}

#[test]
fn headers_and_properties_are_small(rt: HostRuntime) {
    // Whether there are pairs, and where they lie, which copies share.
    assert!(rt; size_of::<Headers>() == 16);
    assert!(rt; size_of::<Properties>() == 16);
    assert!(rt; size_of::<Message>() == size_of::<Text>() + 32);
}
