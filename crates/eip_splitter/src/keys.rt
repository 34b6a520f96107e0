ghost use Rattle.std.specs.Prelude.{◌≡◌, map, IfOk};
ghost use Rattle.std.specs.Option.{option_copied};
ghost use Rattle.eip_exchange.specs.Headers.{get_header};
ghost use Rattle.eip_exchange.specs.Pairs.{get_property};
ghost use Rattle.eip_splitter.specs.Batches as spec;

use eip_exchange::Key;
use eip_resequence::Packed;
use eip_text::{NoMemory, Text};
use std::alloc::Global;

/// The messages, each with what it is put in order by.
pub fn with_keys(
    alloc: Global,
    key: &Key,
    list: Vec<Packed>,
) -> Result<Vec<(Option<Text>, Packed)>, NoMemory>
    ensures { IfOk result (λ v. v.items ≡ map (spec.with_key key.now) list.items) }
{
    let mut arrivals = Vec::with_capacity(alloc, list.len())?;
    for packed in list {
        arrivals.push((key_of(key, &packed)?, packed))?;
    }
    Ok(arrivals)
}

fn key_of(key: &Key, packed: &Packed) -> Result<Option<Text>, NoMemory>
    ensures { IfOk result (λ k. k
        ≡ spec.key_in key.now packed.now.body packed.now.headers packed.now.properties) }
{
    match key {
        Key::Body => Ok(Some(packed.body.copy()?)),
        Key::Header(name) => copied(header_in(packed.headers.items(), name)),
        Key::Property(name) => copied(property_in(packed.properties.items(), name)),
    }
}

fn copied(text: Option<&Text>) -> Result<Option<Text>, NoMemory>
    ensures { IfOk result (λ t. t ≡ option_copied text.entry) }
{
    match text {
        Some(text) => Ok(Some(text.copy()?)),
        None => Ok(None),
    }
}

/// The value of the header with this name, up to ASCII case.
fn header_in<'p>(headers: &'p [(Text, Text)], name: &Text) -> Option<&'p Text>
    ensures { option_copied result ≡ get_header name.now headers.now }
{
    for pair in headers {
        if name.bytes().eq_ignore_ascii_case(pair.0.bytes()) {
            return Some(&pair.1);
        }
    }
    None
}

/// The value of the property with this name.
fn property_in<'p>(properties: &'p [(Text, Text)], name: &Text) -> Option<&'p Text>
    ensures { option_copied result ≡ get_property name.now properties.now }
{
    for pair in properties {
        if name.bytes() == pair.0.bytes() {
            return Some(&pair.1);
        }
    }
    None
}
