#![tactic(auto, using(eip_route_canonical::proofs::Objects::trees))]

ghost use Rattle.std.specs.Prelude.{◌≡◌, ◌++◌, ◌∷◌, [], IfOk, OnOk};
ghost use Rattle.std.specs.Option.{option_map};
ghost use Rattle.eip_text.specs.Json.{json};
ghost use Rattle.eip_route_canonical.specs.Canonical as spec;
ghost use Rattle.eip_route_print.specs.Seen as seen;
ghost use Rattle.eip_route_canonical.specs.Trees as trees;

use crate::nested::push_block;
use eip_exchange::Clause;
use eip_route::{Block, Handler, Route, RouteSet};
use eip_route_canonical::{Object, alone, put_policy, words};
use eip_text::{NoMemory, Series, Text, Tree, print_json};
use eip_uri::Uri;
use std::alloc::Global;

/// The canonical route file of a set: one compact JSON list and a line feed. Keys are in camelCase and in byte order. What
/// has its default is left out, save the attributes that a redelivery policy gives. First comes the error handler, unless
/// it is the default one without attributes, then the clauses, then the routes, each with its id, and with its steps in
/// `from`. A block stands in the place of each number that names it from an earlier block; other numbers name no steps.
#[tactic(auto, unfolding(eip_route_canonical::specs::Canonical::canonical_text), using(crate::proofs::Floats::floatless))]
pub fn print_routes(alloc: Global, set: &RouteSet) -> Result<Text, NoMemory>
    ensures { IfOk result (λ t. t ≡ spec.canonical_text set.now) }
{
    let tree = set_tree(alloc, set)?;
    let printed = print_json(alloc, &tree)?;
    let mut text = String::from_str(alloc, printed.as_str())?;
    text.push('\n')?;
    Ok(Text::of(text))
}

/// The tree of a set.
#[tactic(auto, using(eip_route_canonical::proofs::Objects::trees, crate::proofs::Opened::set_same))]
fn set_tree(alloc: Global, set: &RouteSet) -> Result<Tree, NoMemory>
    ensures { IfOk result (λ t. json t ≡ spec.set_json set.now) }
{
    let blocks = set.blocks.items();
    let mut items = handler_items(alloc, &set.handler)?;
    push_clauses(alloc, &mut items, blocks, set.clauses.items())?;
    push_routes(alloc, &mut items, blocks, set.routes.items())?;
    Ok(Tree::List(Series::of(items)))
}

fn policy_members(alloc: Global, handler: &Handler) -> Result<Object, NoMemory>
    ensures { IfOk result (λ o. trees.made o ≡ spec.policy_in handler.now.policy) }
{
    let mut object = Object::new(alloc);
    put_policy(alloc, &mut object, &handler.policy)?;
    Ok(object)
}

/// The error handler where it stands in a file.
#[tactic(auto, unfolding(eip_route_canonical::specs::Canonical::handler_items), using(eip_route_canonical::proofs::Objects::trees))]
fn handler_items(alloc: Global, handler: &Handler) -> Result<Vec<Tree>, NoMemory>
    ensures { IfOk result (λ ts. trees.values_of ts.items ≡ spec.handler_items handler.now) }
{
    match &handler.dead {
        Some(uri) => dead_items(alloc, uri, handler),
        None => default_items(alloc, policy_members(alloc, handler)?),
    }
}

fn default_items(alloc: Global, policy: Object) -> Result<Vec<Tree>, NoMemory>
    ensures { IfOk result (λ ts. trees.values_of ts.items ≡ spec.default_items (trees.made policy)) }
{
    let mut items = Vec::new(alloc);
    if policy.is_empty() {
        return Ok(items);
    }
    let inner = alone(alloc, "defaultErrorHandler", policy.tree())?;
    let tree = alone(alloc, "errorHandler", inner)?;
    items.push(tree)?;
    Ok(items)
}

fn dead_items(alloc: Global, uri: &Uri, handler: &Handler) -> Result<Vec<Tree>, NoMemory>
    ensures { IfOk result (λ ts. trees.values_of ts.items
        ≡ spec.dead_items (Some uri.now) (spec.policy_in handler.now.policy)) }
{
    let mut object = Object::new(alloc);
    object.put_text("deadLetterUri", uri.print(alloc)?)?;
    put_policy(alloc, &mut object, &handler.policy)?;
    let inner = alone(alloc, "deadLetterChannel", object.tree())?;
    let tree = alone(alloc, "errorHandler", inner)?;
    let mut items = Vec::new(alloc);
    items.push(tree)?;
    Ok(items)
}

/// The list of the steps of a block.
fn block_tree(alloc: Global, blocks: &[Block], block: u32) -> Result<Tree, NoMemory>
    ensures { IfOk result (λ t. json t ≡ spec.list_of (seen.block_json blocks.now block)) }
{
    let mut items = Vec::new(alloc);
    push_block(alloc, &mut items, blocks, block)?;
    Ok(Tree::List(Series::of(items)))
}

fn clause_steps(
    alloc: Global,
    blocks: &[Block],
    block: Option<u32>,
) -> Result<Option<Tree>, NoMemory>
    ensures { IfOk result (λ o. option_map json o ≡ seen.clause_steps blocks.now block) }
{
    match block {
        Some(block) => Ok(Some(block_tree(alloc, blocks, block)?)),
        None => Ok(None),
    }
}

fn put_steps(object: &mut Object, steps: Option<Tree>) -> Result<(), NoMemory>
    ensures { OnOk result (trees.made object.new ≡ trees.made object.old ++ spec.steps_pairs (option_map json steps)) }
{
    match steps {
        Some(steps) => object.put("steps", steps),
        None => Ok(()),
    }
}

/// `onException`.
#[tactic(auto, unfolding(eip_route_canonical::specs::Canonical::clause_json, crate::specs::Seen::clause_in), using(eip_route_canonical::proofs::Objects::trees))]
fn clause_tree(alloc: Global, blocks: &[Block], clause: &Clause) -> Result<Tree, NoMemory>
    ensures { IfOk result (λ t. json t ≡ seen.clause_in blocks.now clause.now) }
{
    let names = words(alloc, clause.names.items())?;
    let steps = clause_steps(alloc, blocks, clause.block)?;
    let mut object = Object::new(alloc);
    object.put_set("continued", clause.continued)?;
    object.put("exception", names)?;
    object.put_set("handled", clause.handled)?;
    put_policy(alloc, &mut object, &clause.policy)?;
    put_steps(&mut object, steps)?;
    Ok(alone(alloc, "onException", object.tree())?)
}

/// `route`.
#[tactic(auto, unfolding(eip_route_canonical::specs::Canonical::route_json, crate::specs::Seen::route_in), using(eip_route_canonical::proofs::Objects::trees))]
fn route_tree(alloc: Global, blocks: &[Block], route: &Route) -> Result<Tree, NoMemory>
    ensures { IfOk result (λ t. json t ≡ seen.route_in blocks.now route.now) }
{
    let steps = block_tree(alloc, blocks, route.block)?;
    let mut from = Object::new(alloc);
    from.put("steps", steps)?;
    from.put_text("uri", route.from.print(alloc)?)?;
    let mut object = Object::new(alloc);
    object.put("from", from.tree())?;
    object.put_word("id", &route.id)?;
    Ok(alone(alloc, "route", object.tree())?)
}

fn push_clauses(
    alloc: Global,
    items: &mut Vec<Tree>,
    blocks: &[Block],
    clauses: &[Clause],
) -> Result<(), NoMemory>
    ensures { OnOk result (trees.values_of items.new.items
        ≡ trees.values_of items.old.items ++ seen.clauses_in blocks.now clauses.now) }
{
    for clause in clauses {
        let tree = clause_tree(alloc, blocks, clause)?;
        items.push(tree)?;
    }
    Ok(())
}

fn push_routes(
    alloc: Global,
    items: &mut Vec<Tree>,
    blocks: &[Block],
    routes: &[Route],
) -> Result<(), NoMemory>
    ensures { OnOk result (trees.values_of items.new.items
        ≡ trees.values_of items.old.items ++ seen.routes_in blocks.now routes.now) }
{
    for route in routes {
        let tree = route_tree(alloc, blocks, route)?;
        items.push(tree)?;
    }
    Ok(())
}
