#![tactic(auto, using(eip_text::proofs::Levels::json_levels))]

ghost use Rattle.std.specs.Prelude.{◌≡◌, IfOk, Some, option_map};
ghost use Rattle.eip_text.specs.Json.{json, object, items_json, members_json};
ghost use Rattle.eip_uri.specs.Reading.{read};
ghost use Rattle.eip_route_grammar.specs.Objects as objects;
ghost use Rattle.eip_route_file.specs.Later as spec;

use eip_route_faults::values::uri_cause;
use eip_route_grammar::keys::Key;
use eip_route_grammar::objects::{parameters_of, value_at};
use eip_route_grammar::texts::own_id;
use eip_text::{NoMemory, Text, Tree};
use eip_uri::Uri;
use std::alloc::Global;

/// What is compared of a route: the index of its item, whether that has the key `route`, its id, and
/// the endpoint of its `from`, where that can be read.
#[derive(Drop)]
pub struct Head {
    pub index: usize,
    pub whole: bool,
    pub id: Text,
    pub from: Option<Uri>,
}

fn uri_of(alloc: Global, text: &Text, parameters: &[(Text, Text)]) -> Result<Option<Uri>, NoMemory>
    ensures { IfOk result (λ u. u ≡ spec.uri_of (read text.now parameters.now)) }
{
    match Uri::read(alloc, text, parameters) {
        Ok(uri) => Ok(Some(uri)),
        Err(fault) => {
            uri_cause(fault)?;
            Ok(None)
        }
    }
}

fn uri_at(alloc: Global, tree: &Tree, parameters: &[(Text, Text)]) -> Result<Option<Uri>, NoMemory>
    ensures { IfOk result (λ u. u ≡ spec.uri_at (Some (json tree.now)) parameters.now) }
{
    match tree {
        Tree::Word(text) => uri_of(alloc, text, parameters),
        Tree::Null => Ok(None),
        Tree::Flag(_) => Ok(None),
        Tree::Whole(_) => Ok(None),
        Tree::Float => Ok(None),
        Tree::List(_) => Ok(None),
        Tree::Object(_) => Ok(None),
    }
}

/// The endpoint of a `from`, where it can be read.
fn uri_in(alloc: Global, members: &[(Text, Tree)]) -> Result<Option<Uri>, NoMemory>
    ensures { IfOk result (λ u. u ≡ spec.uri_in (members_json members.now)) }
{
    let parameters = parameters_of(alloc, members)?;
    match value_at(Key::Uri, members) {
        None => Ok(None),
        Some(tree) => uri_at(alloc, tree, parameters.as_slice()),
    }
}

/// The members of an object.
fn members_in(tree: &Tree) -> &[(Text, Tree)]
    ensures { members_json result.now ≡ spec.members_in (Some (json tree.now)) }
{
    match tree {
        Tree::Object(members) => members.items(),
        Tree::Null => &[],
        Tree::Flag(_) => &[],
        Tree::Whole(_) => &[],
        Tree::Float => &[],
        Tree::Word(_) => &[],
        Tree::List(_) => &[],
    }
}

fn id_of(alloc: Global, position: u64, tree: &Tree) -> Result<Text, NoMemory>
    ensures { IfOk result (λ t. t ≡ spec.id_at position (Some (json tree.now))) }
{
    match tree {
        Tree::Word(text) => text.copy(),
        Tree::Null => own_id(alloc, position),
        Tree::Flag(_) => own_id(alloc, position),
        Tree::Whole(_) => own_id(alloc, position),
        Tree::Float => own_id(alloc, position),
        Tree::List(_) => own_id(alloc, position),
        Tree::Object(_) => own_id(alloc, position),
    }
}

fn id_in(alloc: Global, position: u64, members: &[(Text, Tree)]) -> Result<Text, NoMemory>
    ensures { IfOk result (λ t. t ≡ spec.id_at position (objects.value_at Key.Id (members_json members.now))) }
{
    match value_at(Key::Id, members) {
        None => own_id(alloc, position),
        Some(tree) => id_of(alloc, position, tree),
    }
}

fn from_in(alloc: Global, members: &[(Text, Tree)]) -> Result<Option<Uri>, NoMemory>
    ensures { IfOk result (λ u. u
        ≡ spec.uri_in (spec.members_in (objects.value_at Key.From (members_json members.now)))) }
{
    match value_at(Key::From, members) {
        None => Ok(None),
        Some(tree) => uri_in(alloc, members_in(tree)),
    }
}

fn route_head(
    alloc: Global,
    index: usize,
    position: u64,
    members: &[(Text, Tree)],
) -> Result<Head, NoMemory>
    ensures { IfOk result (λ h. h ≡ spec.route_head index position (members_json members.now)) }
{
    let id = id_in(alloc, position, members)?;
    let from = from_in(alloc, members)?;
    Ok(Head {
        index,
        whole: true,
        id,
        from,
    })
}

fn from_head(
    alloc: Global,
    index: usize,
    position: u64,
    members: &[(Text, Tree)],
) -> Result<Head, NoMemory>
    ensures { IfOk result (λ h. h ≡ spec.from_head index position (members_json members.now)) }
{
    let id = own_id(alloc, position)?;
    let from = uri_in(alloc, members)?;
    Ok(Head {
        index,
        whole: false,
        id,
        from,
    })
}

fn head_of(
    alloc: Global,
    index: usize,
    position: u64,
    key: &str,
    tree: &Tree,
) -> Result<Option<Head>, NoMemory>
    ensures { IfOk result (λ h. h ≡ spec.head_of index position key.now (json tree.now)) }
{
    let members = members_in(tree);
    if Key::Route.is(key) {
        let head = route_head(alloc, index, position, members)?;
        return Ok(Some(head));
    }
    if Key::From.is(key) {
        let head = from_head(alloc, index, position, members)?;
        return Ok(Some(head));
    }
    Ok(None)
}

fn head_in(
    alloc: Global,
    index: usize,
    position: u64,
    members: &[(Text, Tree)],
) -> Result<Option<Head>, NoMemory>
    ensures { IfOk result (λ h. h ≡ spec.head_at index position (object (members_json members.now))) }
{
    match members {
        [(key, tree)] => head_of(alloc, index, position, key.as_str(), tree),
        [] => Ok(None),
        [_, _, ..] => Ok(None),
    }
}

/// What is compared of an item, where it is a route.
fn head_at(
    alloc: Global,
    index: usize,
    position: u64,
    tree: &Tree,
) -> Result<Option<Head>, NoMemory>
    ensures { IfOk result (λ h. h ≡ spec.head_at index position (json tree.now)) }
{
    match tree {
        Tree::Object(members) => head_in(alloc, index, position, members.items()),
        Tree::Null => Ok(None),
        Tree::Flag(_) => Ok(None),
        Tree::Whole(_) => Ok(None),
        Tree::Float => Ok(None),
        Tree::Word(_) => Ok(None),
        Tree::List(_) => Ok(None),
    }
}

/// The routes among the items of a file, in their order.
pub fn heads_of(alloc: Global, items: &[Tree]) -> Result<Vec<Head>, NoMemory>
    ensures { IfOk result (λ hs. hs.items ≡ spec.heads 0 1 (items_json items.now)) }
{
    let mut heads = Vec::new(alloc);
    for (i, item) in items.iter().enumerate() {
        let position = heads.len() as u64 + 1;
        if let Some(head) = head_at(alloc, i, position, item)? {
            heads.push(head)?;
        }
    }
    Ok(heads)
}
