use eip_endpoint::{PullFault, Pulled, Source};
use eip_exchange::End;
use eip_load::LoadSource;
use eip_text::{NoMemory, Text};
use eip_uri::Uri;
use std::alloc::Global;
use std::test::Fail;

/// What an item is to be: its name, the values of its headers `order` and `customer`, and its body.
#[derive(Clone, Copy)]
struct Row(&'static str, &'static str, &'static str, &'static str);

/// The first ten items, worked out by hand from the rule.
const FIRST_TEN: [Row; 10] = [
    Row("1", "1", "0", "45"),
    Row("2", "2", "0", "6"),
    Row("3", "3", "0", "75"),
    Row("4", "4", "1", "24"),
    Row("5", "4", "1", "24"),
    Row("6", "6", "2", "73"),
    Row("7", "7", "3", "78"),
    Row("8", "8", "1", "59"),
    Row("9", "9", "1", "92"),
    Row("10", "9", "1", "92"),
];

/// Whether this is a header of this name with this value.
fn is_header(header: Option<(&Text, &Text)>, name: &str, value: &str) -> bool {
    match header {
        Some(pair) => pair.0.as_str() == name && pair.1.as_str() == value,
        None => false,
    }
}

impl Row {
    /// Whether a pull gave it.
    fn is(self, given: &Result<Pulled, PullFault>) -> bool {
        match given {
            Ok(Pulled::Item { item, message }) => {
                item.as_str() == self.0
                    && message.body.as_str() == self.3
                    && message.headers.len() == 2
                    && is_header(message.headers.at(0), "order", self.1)
                    && is_header(message.headers.at(1), "customer", self.2)
            }
            _ => false,
        }
    }
}

/// Whether the next pull of a load of so many items gives this one.
fn gives(source: &mut LoadSource, count: u32, row: Row) -> bool {
    let from = Uri::Load(count);
    let given = source.pull(&from);
    let is_row = row.is(&given);
    drop(given);
    drop(from);
    is_row
}

/// Whether the next pull from this URI gives the end.
fn ends(source: &mut LoadSource, from: Uri) -> bool {
    let given = source.pull(&from);
    let is_end = matches!(&given, Ok(Pulled::End));
    drop(given);
    drop(from);
    is_end
}

/// Whether the pulls of a load of ten items give those of the rule, and then the end twice.
fn are_the_first_ten(alloc: Global) -> bool {
    let mut source = LoadSource::new(alloc);
    let mut are_so = true;
    for row in FIRST_TEN {
        are_so = gives(&mut source, 10, row) && are_so;
    }
    let end = [
        ends(&mut source, Uri::Load(10)),
        ends(&mut source, Uri::Load(10)),
    ];
    drop(source);
    are_so && end == [true; 2]
}

#[test]
fn the_first_items_are_those_of_the_rule(rt: HostRuntime) -> Result<(), Fail> {
    assert!(rt; are_the_first_ten(rt.alloc()));
    Ok(())
}

/// Whether the first item of a load of two is told as completed.
fn is_told(source: &mut LoadSource, alloc: Global) -> Result<bool, NoMemory> {
    let item = Text::of_str(alloc, "1")?;
    let from = Uri::Load(2);
    let end = End::Completed;
    let is_told = source.commit(&from, &item, &end).is_ok();
    drop(end);
    drop(from);
    Ok(is_told)
}

/// Whether each load begins with the first item, other URIs have none, and a commit changes nothing.
fn are_apart(source: &mut LoadSource, alloc: Global) -> Result<bool, NoMemory> {
    let first = [
        gives(source, 1, FIRST_TEN[0]),
        ends(source, Uri::Load(1)),
        gives(source, 2, FIRST_TEN[0]),
        ends(source, Uri::StreamIn),
        ends(source, Uri::Load(0)),
    ];
    let is_told = is_told(source, alloc)?;
    let then = [gives(source, 2, FIRST_TEN[1]), ends(source, Uri::Load(2))];
    Ok(first == [true; 5] && is_told && then == [true; 2])
}

#[test]
fn each_uri_has_its_own_items(rt: HostRuntime) -> Result<(), Fail> {
    let mut source = LoadSource::new(rt.alloc());
    let are_apart = are_apart(&mut source, rt.alloc())?;
    drop(source);
    assert!(rt; are_apart);
    Ok(())
}

/// How many of so many pulls of a load of 20,000 items give an item.
fn items_given(source: &mut LoadSource, pulls: u32) -> u32 {
    let from = Uri::Load(20_000);
    let mut items: u32 = 0;
    for _ in 0..pulls {
        if is_item(source.pull(&from)) {
            items = items.saturating_add(1);
        }
    }
    drop(from);
    items
}

/// Whether a pull gave an item.
fn is_item(given: Result<Pulled, PullFault>) -> bool {
    let is_item = matches!(&given, Ok(Pulled::Item { .. }));
    drop(given);
    is_item
}

/// Whether 20,000 items come before the end, and the last one is that of the rule.
fn are_twenty_thousand(alloc: Global) -> bool {
    let mut source = LoadSource::new(alloc);
    let items = items_given(&mut source, 19_999);
    let last = Row("20000", "19999", "0", "0");
    let is_last = gives(&mut source, 20_000, last);
    let is_end = ends(&mut source, Uri::Load(20_000));
    drop(source);
    items == 19_999 && is_last && is_end
}

#[test]
fn twenty_thousand_items_come_before_the_end(rt: HostRuntime) -> Result<(), Fail> {
    assert!(rt; are_twenty_thousand(rt.alloc()));
    Ok(())
}
