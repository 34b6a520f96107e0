use eip_resequence::{PackFault, Packed, ordered, pack, unpack};
use eip_text::{NoMemory, Series, Text};
use std::alloc::Global;
use std::test::*;

/// Two packed messages, the second with an empty body and values that JSON escapes.
const BOTH: &str =
    "[{\"b\":\"hi\",\"h\":[\"Order\",\"1\"],\"p\":[]},{\"b\":\"\",\"h\":[],\"p\":[\"a\",\"\\n\",\"c\",\"\\\"d\\\"\"]}]";

/// Whether the last message that a text is packed of has so many properties, the last one with this name and value.
fn is_last_property(
    alloc: Global,
    text: &str,
    count: usize,
    wanted: (&str, &str),
) -> Result<bool, PackFault> {
    let text = Text::of_str(alloc, text)?;
    let list = unpack(alloc, &text)?;
    let Some(message) = list.last() else {
        return Ok(false);
    };
    let properties = message.properties.items();
    let Some((name, value)) = properties.last() else {
        return Ok(false);
    };
    Ok(properties.len() == count && (name.as_str(), value.as_str()) == wanted)
}

/// A text unpacked and packed again.
fn again(alloc: Global, text: &str) -> Result<Text, PackFault> {
    let text = Text::of_str(alloc, text)?;
    let list = unpack(alloc, &text)?;
    Ok(pack(alloc, &list)?)
}

fn is_same_again(alloc: Global, text: &str) -> Result<bool, PackFault> {
    Ok(again(alloc, text)?.as_str() == text)
}

#[test]
fn packed_messages_are_unpacked_again(rt: HostRuntime) -> Result<(), Fail> {
    assert!(rt; is_last_property(rt.alloc(), BOTH, 2, ("c", "\"d\""))?);
    assert!(rt; is_same_again(rt.alloc(), BOTH)?);
    Ok(())
}

/// Texts that no messages are packed to.
const NOT_PACKED: [&str; 9] = [
    "{}",
    "[] ",
    "[[]]",
    "[{\"b\":1,\"h\":[],\"p\":[]}]",
    "[{\"b\":\"x\",\"h\":[\"a\"],\"p\":[]}]",
    "[{\"h\":[],\"b\":\"x\",\"p\":[]}]",
    "[{\"b\":\"x\",\"h\":[],\"p\":[],\"q\":[]}]",
    "[{\"b\": \"x\",\"h\":[],\"p\":[]}]",
    "[{\"b\":\"\\u0041\",\"h\":[],\"p\":[]}]",
];

fn is_not_packed(alloc: Global, text: &str) -> bool {
    matches!(again(alloc, text), Err(PackFault::NotPacked))
}

#[test]
fn other_texts_are_not_packed(rt: HostRuntime) {
    for text in NOT_PACKED {
        assert!(rt; is_not_packed(rt.alloc(), text), "of {text}");
    }
}

fn key_of(alloc: Global, key: Option<&str>) -> Result<Option<Text>, NoMemory> {
    match key {
        Some(key) => Ok(Some(Text::of_str(alloc, key)?)),
        None => Ok(None),
    }
}

/// Messages with these keys, whose bodies are `a`, `b` and so on.
fn arrivals(alloc: Global, keys: &[Option<&str>]) -> Result<Vec<(Option<Text>, Packed)>, NoMemory> {
    let mut list = Vec::new(alloc);
    for (key, body) in keys.iter().zip(["a", "b", "c", "d", "e", "f", "g"]) {
        let packed = Packed {
            body: Text::of_str(alloc, body)?,
            headers: Series::of(Vec::new(alloc)),
            properties: Series::of(Vec::new(alloc)),
        };
        list.push((key_of(alloc, *key)?, packed))?;
    }
    Ok(list)
}

/// The bodies of such messages in order.
fn bodies_in_order(alloc: Global, keys: &[Option<&str>]) -> Result<String, NoMemory> {
    let list = ordered(alloc, arrivals(alloc, keys)?)?;
    let mut bodies = String::new(alloc);
    for message in &list {
        bodies.push_str(message.body.as_str())?;
    }
    Ok(bodies)
}

fn is_in_order(alloc: Global, keys: &[Option<&str>], want: &str) -> Result<bool, NoMemory> {
    Ok(bodies_in_order(alloc, keys)?.as_str() == want)
}

/// Keys, and the bodies in the order in which they go on.
const ORDERED: [(&[Option<&str>], &str); 2] = [
    (&[Some("10"), Some("9"), Some("x")], "bac"),
    (
        &[
            Some("b"),
            None,
            Some("-3"),
            Some("7"),
            Some("007"),
            Some(""),
            Some("b"),
        ],
        "cdebfag",
    ),
];

#[test]
fn messages_go_on_in_order_of_their_keys(rt: HostRuntime) -> Result<(), Fail> {
    for (keys, want) in ORDERED {
        assert!(rt; is_in_order(rt.alloc(), keys, want)?, "want {want}");
    }
    Ok(())
}
