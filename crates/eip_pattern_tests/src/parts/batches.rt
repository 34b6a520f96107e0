use crate::parts::splits::shown;
use eip_exchange::{How, Key, Message};
use eip_splitter::{SplitFault, parts};
use eip_text::{NoMemory, Text};
use std::alloc::Global;
use std::test::*;

/// Messages with the bodies `10`, `9` and `x`, as they arrived.
const BATCH: &str =
    "[{\"b\":\"10\",\"h\":[\"To\",\"b\"],\"p\":[]},{\"b\":\"9\",\"h\":[],\"p\":[\"q\",\"7\"]},{\"b\":\"x\",\"h\":[\"to\",\"a\"],\"p\":[]}]";

/// The key with this name: the body where it is empty, a property where it begins with a dot, and else a header.
fn key_of(alloc: Global, name: &str) -> Result<Key, NoMemory> {
    if name.is_empty() {
        return Ok(Key::Body);
    }
    match name.strip_prefix('.') {
        Some(name) => Ok(Key::Property(Text::of_str(alloc, name)?)),
        None => Ok(Key::Header(Text::of_str(alloc, name)?)),
    }
}

/// The parts of a batch, as they are shown, each with `|` behind it.
fn parts_shown(alloc: Global, body: &str, name: &str) -> Result<String, SplitFault> {
    let message = Message::of_body(alloc, Text::of_str(alloc, body)?);
    let key = key_of(alloc, name)?;
    let mut out = String::new(alloc);
    for part in &parts(alloc, &message, &How::Batch(key))? {
        out.push_str(shown(alloc, part)?.as_str())?;
        out.push('|')?;
    }
    Ok(out)
}

fn are_shown(alloc: Global, body: &str, name: &str, want: &str) -> Result<bool, SplitFault> {
    Ok(parts_shown(alloc, body, name)?.as_str() == want)
}

#[test]
fn a_batch_is_split_in_the_order_of_its_keys(rt: HostRuntime) -> Result<(), Fail> {
    for (name, want) in [
        (
            "",
            "9 q=7 CamelSplitIndex=0 CamelSplitSize=3 CamelSplitComplete=false|10 To=b CamelSplitIndex=1 CamelSplitSize=3 CamelSplitComplete=false|x to=a CamelSplitIndex=2 CamelSplitSize=3 CamelSplitComplete=true|",
        ),
        (
            "TO",
            "9 q=7 CamelSplitIndex=0 CamelSplitSize=3 CamelSplitComplete=false|x to=a CamelSplitIndex=1 CamelSplitSize=3 CamelSplitComplete=false|10 To=b CamelSplitIndex=2 CamelSplitSize=3 CamelSplitComplete=true|",
        ),
        (
            ".q",
            "9 q=7 CamelSplitIndex=0 CamelSplitSize=3 CamelSplitComplete=false|10 To=b CamelSplitIndex=1 CamelSplitSize=3 CamelSplitComplete=false|x to=a CamelSplitIndex=2 CamelSplitSize=3 CamelSplitComplete=true|",
        ),
    ] {
        assert!(rt; are_shown(rt.alloc(), BATCH, name, want)?, "by {name}");
    }
    assert!(rt; are_shown(rt.alloc(), "[]", "", "")?);
    Ok(())
}

#[test]
fn what_no_batch_is_is_refused(rt: HostRuntime) -> Result<(), Fail> {
    for body in [
        "",
        "[1]",
        "[ ]",
        "[{\"b\":\"x\",\"h\":[\"a\",\"1\",\"A\",\"2\"],\"p\":[]}]",
        "[{\"b\":\"x\",\"h\":[],\"p\":[\"a\",\"1\",\"a\",\"2\"]}]",
    ] {
        assert_eq!(rt;
            parts_shown(rt.alloc(), body, "").err(),
            Some(SplitFault::NotArray),
            "of {body}"
        );
    }
    assert!(rt;
        parts_shown(
            rt.alloc(),
            "[{\"b\":\"x\",\"h\":[],\"p\":[\"a\",\"1\",\"A\",\"2\"]}]",
            ""
        )
        .is_ok()
    );
    Ok(())
}
