ghost use Rattle.std.specs.Prelude.{◌≡◌, ◌≤◌, Some, None, IfOk, IsErrOf};
ghost use Rattle.eip_text.specs.Json.{json, items_json, members_json, number_json, json_of, json_items, json_members, json_read};
ghost use Rattle.eip_text.specs.JsonText.{nesting, IsCanonical};
ghost use Rattle.serde_json.specs.View.{view, number_view, items_view, members_view};

use crate::memory::NoMemory;
use crate::series::Series;
use crate::text::Text;
use crate::tree::Tree;
use serde_json::value::Map;
use serde_json::{Number, Value};
use std::alloc::{AllocError, Global};
use thiserror::Error;

/// Why bytes were not read as JSON.
#[derive(Clone, Copy, Debug, PartialEq, Eq, Error)]
pub enum JsonFault {
    /// The bytes are not UTF-8, or `serde_json` reads no value from them.
    #[error("not JSON")]
    NotJson,
    #[error("out of memory")]
    NoMemory,
}

impl From<NoMemory> for JsonFault {
    ghost use Rattle.std.specs.Prelude.{◌≡◌};
    ghost use Rattle.eip_text.specs.declared.json_reader.JsonFault.TheVariants.{NoMemory};

    ghost from_gives = { λ _ e. e ≡ NoMemory };

    fn from(_refused: NoMemory) -> JsonFault {
        JsonFault::NoMemory
    }
}

/// The JSON value (RFC 8259) that bytes spell, as the crate `serde_json` reads it: at most 127
/// lists and objects within one another, and of a key that is repeated the last value.
/// The members of an object stand in byte order of their keys. `NotJson` exactly where it reads
/// no value.
pub fn read_json(alloc: Global, bytes: &[u8]) -> Result<Tree, JsonFault>
    ensures tree { IfOk result (λ t. json_read bytes.now ≡ Some (json t)) }
    ensures canonical { IfOk result (λ t. IsCanonical (json t)) }
    ensures nests { IfOk result (λ t. nesting (json t) ≤ 127) }
    ensures not_json { IsErrOf result JsonFault.NotJson → json_read bytes.now ≡ None }
{
    match Value::from_slice(alloc, bytes) {
        Ok(value) => Ok(tree_of(alloc, &value)?),
        Err(error) if error.is_memory() => Err(JsonFault::NoMemory),
        Err(_) => Err(JsonFault::NotJson),
    }
}

#[cycle(tree)]
fn tree_of(alloc: Global, value: &Value) -> Result<Tree, NoMemory>
    ensures { IfOk result (λ t. json t ≡ json_of (view value.now)) }
{
    match value {
        Value::Null => Ok(Tree::Null),
        Value::Bool(flag) => Ok(Tree::Flag(*flag)),
        Value::Number(number) => Ok(number_tree(number)),
        Value::String(word) => Ok(Tree::Word(Text::of_str(alloc, word.as_str())?)),
        Value::Array(items) => Ok(Tree::List(Series::of(trees_of(alloc, items)?))),
        Value::Object(members) => Ok(Tree::Object(Series::of(members_of(alloc, members)?))),
    }
}

#[cycle(tree)]
fn trees_of(alloc: Global, items: &Vec<Value>) -> Result<Vec<Tree>, NoMemory>
    ensures { IfOk result (λ ts. items_json ts.items ≡ json_items (items_view items.now.items)) }
{
    let mut trees = Vec::with_capacity(alloc, items.len())?;
    for item in items {
        trees.push(tree_of(alloc, item)?)?;
    }
    Ok(trees)
}

#[cycle(tree)]
fn members_of(alloc: Global, members: &Map<String, Value>) -> Result<Vec<(Text, Tree)>, NoMemory>
    ensures { IfOk result (λ ms. members_json ms.items
        ≡ json_members (members_view members.now.entries)) }
{
    let mut trees = Vec::with_capacity(alloc, members.len())?;
    for (key, member) in members.iter() {
        let name = Text::of_str(alloc, key.as_str())?;
        trees.push((name, tree_of(alloc, member)?))?;
    }
    Ok(trees)
}

fn number_tree(number: &Number) -> Tree
    ensures { json result ≡ number_json (number_view number.now) }
{
    match number.as_i128() {
        Some(whole) => Tree::Whole(whole),
        None => Tree::Float,
    }
}
