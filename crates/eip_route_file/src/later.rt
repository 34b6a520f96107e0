#![tactic(auto, using(eip_text::proofs::Levels::json_levels))]

ghost use Rattle.std.specs.Prelude.{◌≡◌, ◌++◌, [], false, IfOk, option_map};
ghost use Rattle.eip_text.specs.Json.{json, object, items_json, members_json};
ghost use Rattle.eip_route_grammar.specs.Paths as paths;
ghost use Rattle.eip_route_file.specs.Later as spec;

use crate::head::{Head, heads_of};
use eip_route::fault::is_same_consumer;
use eip_route_grammar::keys::Key;
use eip_route_grammar::{Cause, RouteFault};
use eip_text::{NoMemory, Text, Tree};
use eip_uri::Uri;
use std::alloc::Global;

fn one_key(members: &[(Text, Tree)]) -> Option<&str>
    ensures { option_map (λ k. k.now) result ≡ spec.sole_key (object (members_json members.now)) }
{
    match members {
        [(key, _)] => Some(key.as_str()),
        [] => None,
        [_, _, ..] => None,
    }
}

/// The key of an object of one key.
fn sole_key(tree: &Tree) -> Option<&str>
    ensures { option_map (λ k. k.now) result ≡ spec.sole_key (json tree.now) }
{
    match tree {
        Tree::Object(members) => one_key(members.items()),
        Tree::Null => None,
        Tree::Flag(_) => None,
        Tree::Whole(_) => None,
        Tree::Float => None,
        Tree::Word(_) => None,
        Tree::List(_) => None,
    }
}

/// Whether the tree is an object with this one key.
fn is_item_of(key: Key, tree: &Tree) -> bool
    ensures { result ≡ spec.is_key key (spec.sole_key (json tree.now)) }
{
    match sole_key(tree) {
        None => false,
        Some(name) => key.is(name),
    }
}

fn is_route(tree: &Tree) -> bool
    ensures { result ≡ spec.is_route (json tree.now) }
{
    is_item_of(Key::Route, tree) || is_item_of(Key::From, tree)
}

/// Whether there are more routes than so many.
pub fn has_more_routes(most: u32, items: &[Tree]) -> bool
    ensures { result ≡ spec.too_many most (items_json items.now) }
{
    let mut left = most;
    for item in items {
        if is_route(item) {
            if left == 0 {
                return true;
            }
            left -= 1;
        }
    }
    false
}

/// The fault `cause` at the item of this index, or below it.
fn at_step(alloc: Global, index: usize, below: &str, cause: Cause) -> Result<RouteFault, NoMemory>
    ensures { IfOk result (λ f. f ≡ spec.at_step (paths.index_step index ++ below.now) cause) }
{
    let fault = RouteFault {
        path: Text::of_str(alloc, below)?,
        cause,
    };
    let placed = fault.under_index(alloc, index)?;
    Ok(placed)
}

fn second_handler(alloc: Global, items: &[Tree]) -> Result<Option<RouteFault>, NoMemory>
    ensures { IfOk result (λ a. a ≡ spec.second_handler 0 false (items_json items.now)) }
{
    let mut met = false;
    for (i, item) in items.iter().enumerate() {
        if is_item_of(Key::ErrorHandler, item) {
            if met {
                let fault = RouteFault::here(alloc, Cause::DoubleErrorHandler)?;
                let placed = fault.under_index(alloc, i)?;
                return Ok(Some(placed));
            }
            met = true;
        }
    }
    Ok(None)
}

fn is_same_from(one: &Option<Uri>, other: &Option<Uri>) -> bool
    ensures { result ≡ spec.same_from one.now other.now }
{
    match (one, other) {
        (Some(one), Some(other)) => is_same_consumer(one, other),
        _ => false,
    }
}

fn is_id_taken(head: &Head, before: &[Head]) -> bool
    ensures { result ≡ spec.is_id_taken head.now before.now }
{
    for other in before {
        if other.id.as_str() == head.id.as_str() {
            return true;
        }
    }
    false
}

fn is_from_taken(head: &Head, before: &[Head]) -> bool
    ensures { result ≡ spec.is_from_taken head.now before.now }
{
    for other in before {
        if is_same_from(&other.from, &head.from) {
            return true;
        }
    }
    false
}

/// What of a route stands in an earlier one: its id, or else its endpoint.
fn head_fault(alloc: Global, before: &[Head], head: &Head) -> Result<Option<RouteFault>, NoMemory>
    ensures { IfOk result (λ a. a ≡ spec.head_fault before.now head.now) }
{
    if is_id_taken(head, before) {
        let below = if head.whole { ".route" } else { ".from" };
        let fault = at_step(alloc, head.index, below, Cause::DoubleRouteId)?;
        return Ok(Some(fault));
    }
    if is_from_taken(head, before) {
        let below = if head.whole {
            ".route.from.uri"
        } else {
            ".from.uri"
        };
        let fault = at_step(alloc, head.index, below, Cause::SecondConsumer)?;
        return Ok(Some(fault));
    }
    Ok(None)
}

fn second_route(alloc: Global, heads: &[Head]) -> Result<Option<RouteFault>, NoMemory>
    ensures { IfOk result (λ a. a ≡ spec.second_route [] heads.now) }
{
    for k in 0..heads.len() {
        if let Some(fault) = head_fault(alloc, &heads[..k], &heads[k])? {
            return Ok(Some(fault));
        }
    }
    Ok(None)
}

/// The first of what stands twice: an error handler, then by route its id and its endpoint.
pub fn later_fault(alloc: Global, items: &[Tree]) -> Result<Option<RouteFault>, NoMemory>
    ensures { IfOk result (λ a. a ≡ spec.later_fault (items_json items.now)) }
{
    if let Some(fault) = second_handler(alloc, items)? {
        return Ok(Some(fault));
    }
    let heads = heads_of(alloc, items)?;
    let found = second_route(alloc, heads.as_slice())?;
    Ok(found)
}
