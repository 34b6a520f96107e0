ghost use Rattle.std.specs.Prelude.{◌≡◌, ◌≢◌, Some, None, List, IfOk, IsErrOf, MatchResult, option_map};
ghost use Rattle.json.specs.Find.{as_array, as_str};
ghost use Rattle.json.specs.Value.{value_view, items_view};
ghost use Rattle.eip_resequence.specs.Packing.{pack_text};
ghost use Rattle.eip_resequence.specs.Unpacking.{unpacked, text_at, pairs_in, pairs_at, packed_in, all_in, list_in, list_read};
ghost use Rattle.eip_resequence.specs.declared.packed.Packed.{Packed as PackedGiven};

use crate::packed::{PackFault, Packed};
use crate::packing::pack;
use eip_text::{Series, Text};
use json::{Error, Scratch, Value};
use std::alloc::Global;

/// The messages that a text is packed of, as `pack` packs them. `NotPacked` exactly where no list packs to the text.
pub fn unpack(alloc: Global, text: &Text) -> Result<Vec<Packed>, PackFault>
    ensures list { IfOk result (λ v. unpacked text.now ≡ Some v.items) }
    ensures packed { IfOk result (λ v. text.now ≡ pack_text v.items) }
    ensures not_packed { IsErrOf result PackFault.NotPacked
        → (l : List PackedGiven) → text.now ≢ pack_text l }
{
    let list = read_list(alloc, text.as_str())?;
    let again = pack(alloc, list.as_slice())?;
    if again.as_str() == text.as_str() {
        Ok(list)
    } else {
        Err(PackFault::NotPacked)
    }
}

/// The messages of the JSON list that a text is, which may have spaces and further members.
fn read_list(alloc: Global, text: &str) -> Result<Vec<Packed>, PackFault>
    ensures { MatchResult result (λ v. list_read text.now ≡ Some v.items)
        (λ e. e ≡ PackFault.NotPacked → list_read text.now ≡ None) }
{
    let mut scratch = Scratch::new(alloc);
    match Value::parse(alloc, text, &mut scratch) {
        Ok(value) => list_of(alloc, &value),
        Err(Error::Invalid) => Err(PackFault::NotPacked),
        Err(_) => Err(PackFault::NoMemory),
    }
}

fn list_of(alloc: Global, value: &Value<'_>) -> Result<Vec<Packed>, PackFault>
    ensures { MatchResult result (λ v. list_in (value_view value.now) ≡ Some v.items)
        (λ e. e ≡ PackFault.NotPacked → list_in (value_view value.now) ≡ None) }
{
    match items_of(value) {
        Some(items) => all_of(alloc, items),
        None => Err(PackFault::NotPacked),
    }
}

/// The items of an array.
fn items_of<'v, 'a>(value: &'v Value<'a>) -> Option<&'v [Value<'a>]>
    ensures { option_map (λ s. items_view s.now) result ≡ as_array (value_view value.now) }
{
    if let Value::Array(items) = value {
        Some(items.as_slice())
    } else {
        None
    }
}

fn all_of(alloc: Global, items: &[Value<'_>]) -> Result<Vec<Packed>, PackFault>
    ensures { MatchResult result (λ v. all_in (items_view items.now) ≡ Some v.items)
        (λ e. e ≡ PackFault.NotPacked → all_in (items_view items.now) ≡ None) }
{
    let mut list = Vec::new(alloc);
    for item in items {
        list.push(message_of(alloc, item)?)?;
    }
    Ok(list)
}

fn message_of(alloc: Global, value: &Value<'_>) -> Result<Packed, PackFault>
    ensures { MatchResult result (λ m. packed_in (value_view value.now) ≡ Some m)
        (λ e. e ≡ PackFault.NotPacked → packed_in (value_view value.now) ≡ None) }
{
    let body = text_at(alloc, value, "b")?;
    let headers = pairs_at(alloc, value, "h")?;
    let properties = pairs_at(alloc, value, "p")?;
    Ok(Packed {
        body,
        headers: Series::of(headers),
        properties: Series::of(properties),
    })
}

/// The text that a member is.
fn text_at(alloc: Global, value: &Value<'_>, name: &str) -> Result<Text, PackFault>
    ensures { MatchResult result (λ t. text_at name.now (value_view value.now) ≡ Some t)
        (λ e. e ≡ PackFault.NotPacked → text_at name.now (value_view value.now) ≡ None) }
{
    match value.get(name) {
        Some(member) => text_of(alloc, member),
        None => Err(PackFault::NotPacked),
    }
}

fn text_of(alloc: Global, value: &Value<'_>) -> Result<Text, PackFault>
    ensures { MatchResult result (λ t. as_str (value_view value.now) ≡ Some t)
        (λ e. e ≡ PackFault.NotPacked → as_str (value_view value.now) ≡ None) }
{
    match value.as_str() {
        Some(text) => Ok(Text::of_str(alloc, text)?),
        None => Err(PackFault::NotPacked),
    }
}

/// The pairs that a member has in turn.
fn pairs_at(alloc: Global, value: &Value<'_>, name: &str) -> Result<Vec<(Text, Text)>, PackFault>
    ensures { MatchResult result (λ v. pairs_at name.now (value_view value.now) ≡ Some v.items)
        (λ e. e ≡ PackFault.NotPacked → pairs_at name.now (value_view value.now) ≡ None) }
{
    let Some(member) = value.get(name) else {
        return Err(PackFault::NotPacked);
    };
    match items_of(member) {
        Some(items) => pairs_of(alloc, items),
        None => Err(PackFault::NotPacked),
    }
}

fn pairs_of(alloc: Global, items: &[Value<'_>]) -> Result<Vec<(Text, Text)>, PackFault>
    ensures { MatchResult result (λ v. pairs_in (items_view items.now) ≡ Some v.items)
        (λ e. e ≡ PackFault.NotPacked → pairs_in (items_view items.now) ≡ None) }
{
    let mut pairs = Vec::new(alloc);
    let mut rest = items;
    while let [name, value, more @ ..] = rest {
        pairs.push((text_of(alloc, name)?, text_of(alloc, value)?))?;
        rest = more;
    }
    if rest.is_empty() {
        Ok(pairs)
    } else {
        Err(PackFault::NotPacked)
    }
}
