ghost use Rattle.std.specs.Prelude.{◌<◌, length};

use eip_router::{RecipientFault, recipients};
use eip_text::{NoMemory, Text};
use eip_uri::Uri;
use std::alloc::Global;
use std::test::*;

/// The printed endpoints, each with `|` behind it.
fn printed(alloc: Global, uris: &[Uri]) -> Result<String, NoMemory> {
    let mut out = String::new(alloc);
    for uri in uris {
        let text = uri.print(alloc)?;
        out.push_str(text.as_str())?;
        out.push('|')?;
    }
    Ok(out)
}

/// The endpoints that a text lists.
fn listed(alloc: Global, value: &str, delimiter: &str) -> Result<Vec<Uri>, RecipientFault>
    requires { 0 < length delimiter.now }
{
    let value = Text::of_str(alloc, value)?;
    let delimiter = Text::of_str(alloc, delimiter)?;
    recipients(alloc, &value, &delimiter)
}

fn is_listed(
    alloc: Global,
    value: &str,
    delimiter: &str,
    want: &str,
) -> Result<bool, RecipientFault>
    requires { 0 < length delimiter.now }
{
    let uris = listed(alloc, value, delimiter)?;
    let text = printed(alloc, &uris)?;
    Ok(text.as_str() == want)
}

/// Lists between commas, and the endpoints as they are printed.
const LISTED: [(&str, &str); 6] = [
    ("log:a, ,log:b", "log:a|log:b|"),
    ("log:a", "log:a|"),
    ("", ""),
    (" ,\t, ", ""),
    (
        "\t direct:x \t,seda:q?size=2,,file:out?fileExist=Fail",
        "direct:x|seda:q?size=2|file:out?fileExist=Fail|",
    ),
    ("line:h:7,lane:x", "line:h:7|lane:x|"),
];

#[test]
fn a_list_is_cut_trimmed_and_without_empty_items(rt: HostRuntime) -> Result<(), Fail> {
    for (value, want) in LISTED {
        assert!(rt; is_listed(rt.alloc(), value, ",", want)?, "of {value}");
    }
    assert!(rt; is_listed(rt.alloc(), "log:a --log:b", "--", "log:a|log:b|")?);
    Ok(())
}

fn fault_of(alloc: Global, value: &str) -> Option<RecipientFault> {
    listed(alloc, value, ",").err()
}

/// Lists between commas, and the place of the first item that is refused.
const UNSENDABLE: [(&str, usize); 7] = [
    ("log:a, ,LOG:b", 1),
    ("stream:in", 0),
    ("log:a,line:listen:7,LOG:b", 1),
    ("log:a,,log:b,load:3", 2),
    ("log:a;log:b", 0),
    ("log:a,seda:q?size=0", 1),
    ("log:a,log:a b", 1),
];

#[test]
fn the_first_item_that_a_message_cannot_be_sent_to_is_refused(rt: HostRuntime) -> Result<(), Fail> {
    for (value, place) in UNSENDABLE {
        assert!(rt;
            fault_of(rt.alloc(), value) == Some(RecipientFault::BadRecipient(place)),
            "of {value}"
        );
    }
    Ok(())
}

/// The number of endpoints in a list of so many times this text.
fn count_of(alloc: Global, text: &str, times: usize) -> Result<usize, RecipientFault> {
    let mut value = String::new(alloc);
    for _ in 0..times {
        value.push_str(text)?;
    }
    Ok(listed(alloc, value.as_str(), ",")?.len())
}

#[test]
fn a_list_has_at_most_10000_items(rt: HostRuntime) -> Result<(), Fail> {
    assert!(rt; count_of(rt.alloc(), "log:a,", 10_000) == Ok(10_000));
    assert!(rt;
        count_of(rt.alloc(), "log:a,", 10_001) == Err(RecipientFault::TooManyParts(10_001))
    );
    assert!(rt; count_of(rt.alloc(), "x, ,", 10_001) == Err(RecipientFault::TooManyParts(10_001)));
    assert!(rt; count_of(rt.alloc(), "x,", 10_000) == Err(RecipientFault::BadRecipient(0)));
    assert!(rt; count_of(rt.alloc(), " ,", 32_768) == Ok(0));
    Ok(())
}
