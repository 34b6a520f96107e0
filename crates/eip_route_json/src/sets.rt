#![tactic(auto, using(eip_text::proofs::Levels::json_levels, eip_route_values::proofs::Taking::taking))]

ghost use Rattle.std.specs.Prelude.{◌≡◌, ◌+◌, [], IfOk, OnOk};
ghost use Rattle.std.specs.Bool.{OnFalse};
ghost use Rattle.eip_text.specs.Json.{json, items_json, members_json};
ghost use Rattle.eip_route.specs.Nest as nest;
ghost use Rattle.eip_route_grammar.specs.Objects as objects;
ghost use Rattle.eip_route_values.specs.Built.{AreClauses, AreRoutes, IsRoute, MayBeRoute};
ghost use Rattle.eip_route_values.specs.Leaves as leaves;
ghost use Rattle.eip_route_values.specs.Nesting.{nest_list, nest_steps};
ghost use Rattle.eip_route_values.specs.Sets as spec;
ghost use Rattle.eip_route_values.specs.Taken as taken;
ghost use Rattle.eip_route_values.specs.Taken.{Holds, Spends};

use eip_exchange::Clause;
use eip_route::{Block, Handler, Names, Route, RouteSet};
use eip_route_blocks::build::build_list;
use eip_route_grammar::keys::Key;
use eip_route_grammar::known::Known;
use eip_route_grammar::objects::value_at;
use eip_route_grammar::texts::own_id;
use eip_route_values::built::{
    BuiltClauses, BuiltRoute, BuiltRoutes, after, empty_block, number, number_at,
};
use eip_route_values::leaves::{
    exceptions_at, members_at, members_in, no_policy, outcome_at, policy_at, text_at, text_of,
};
use eip_route_values::parts::{endpoint, endpoint_in};
use eip_text::{NoMemory, Series, Text, Tree};
use eip_uri::Uri;
use std::alloc::Global;

// ---- clauses for exceptions

fn is_filled(items: &[Tree]) -> bool
    ensures filled { result ≡ spec.is_filled (nest_steps (items_json items.now)) }
    ensures empty { OnFalse result (taken.in_steps (items_json items.now) ≡ []) }
{
    match items {
        [] => false,
        [_, ..] => true,
    }
}

/// The block of a list of steps that isn't empty.
fn build_filled(
    alloc: Global,
    n: u32,
    known: &mut Known,
    tree: &Tree,
) -> Result<Vec<Block>, NoMemory>
    requires held { Holds (taken.in_list (json tree.now)) known.old }
    ensures value { IfOk result (λ bs. bs.items
        ≡ nest.flat_last n (spec.where_filled (nest_list (json tree.now)))) }
    ensures left { OnOk result (Spends (taken.in_list (json tree.now)) known.old known.new) }
{
    match tree {
        Tree::List(items) if is_filled(items.items()) => build_list(alloc, n, known, tree),
        Tree::List(_) => Ok(Vec::new(alloc)),
        Tree::Null => Ok(Vec::new(alloc)),
        Tree::Flag(_) => Ok(Vec::new(alloc)),
        Tree::Whole(_) => Ok(Vec::new(alloc)),
        Tree::Float => Ok(Vec::new(alloc)),
        Tree::Word(_) => Ok(Vec::new(alloc)),
        Tree::Object(_) => Ok(Vec::new(alloc)),
    }
}

/// The block of a clause, where it has steps, and those nested in it.
fn build_clause_steps(
    alloc: Global,
    n: u32,
    known: &mut Known,
    members: &[(Text, Tree)],
) -> Result<Vec<Block>, NoMemory>
    requires held { Holds (taken.in_given (objects.value_at Key.Steps (members_json members.now))) known.old }
    ensures value { let steps = spec.clause_steps (objects.value_at Key.Steps (members_json members.now)) in
        IfOk result (λ bs. bs.items ≡ nest.flat_last n steps) }
    ensures left { OnOk result (Spends (taken.in_given (objects.value_at Key.Steps (members_json members.now))) known.old known.new) }
{
    match value_at(Key::Steps, members) {
        None => Ok(Vec::new(alloc)),
        Some(tree) => build_filled(alloc, n, known, tree),
    }
}

fn clause_in(
    alloc: Global,
    members: &[(Text, Tree)],
    block: Option<u32>,
) -> Result<Clause, NoMemory>
    ensures { let c = spec.clause_in (members_json members.now) in
        IfOk result (λ x. x ≡ record { names = c.names; policy = c.policy; handled = c.handled; continued = c.continued; block = block }) }
{
    Ok(Clause {
        names: Series::of(exceptions_at(alloc, members)?),
        policy: policy_at(members),
        handled: outcome_at(Key::Handled, members),
        continued: outcome_at(Key::Continued, members),
        block,
    })
}

/// The clauses for exceptions and their blocks, which are numbered from 0 (Camel manual, *Exception
/// Clause*).
fn build_clauses(alloc: Global, known: &mut Known, items: &[Tree]) -> Result<BuiltClauses, NoMemory>
    requires held { Holds (taken.in_clauses (items_json items.now)) known.old }
    ensures value { IfOk result (λ b. AreClauses b
        (nest.flat_clauses 0 (spec.clauses_of (items_json items.now)))) }
    ensures left { OnOk result (Spends (taken.in_clauses (items_json items.now)) known.old known.new) }
{
    let mut clauses = Vec::new(alloc);
    let mut blocks = Vec::new(alloc);
    let mut n = 0;
    for item in items {
        if let Some(members) = members_in(Key::OnException, item) {
            let mut more = build_clause_steps(alloc, n, known, members)?;
            let clause = clause_in(alloc, members, number_at(n, more.as_slice()))?;
            n = after(n, more.len())?;
            clauses.push(clause)?;
            blocks.append(&mut more)?;
        }
    }
    Ok(BuiltClauses { clauses, blocks })
}

// ---- the error handler

fn dead_letter_in(alloc: Global, members: &[(Text, Tree)]) -> Result<Handler, NoMemory>
    ensures { IfOk result (λ h. h ≡ spec.dead_letter_in (members_json members.now)) }
{
    let uri = endpoint(alloc, text_at(Key::DeadLetterUri, members), &[])?;
    Ok(Handler {
        dead: Some(uri),
        policy: policy_at(members),
    })
}

fn default_handler() -> Handler
    ensures { result ≡ spec.default_handler }
{
    Handler {
        dead: None,
        policy: no_policy(),
    }
}

fn handler_of(alloc: Global, members: &[(Text, Tree)]) -> Result<Handler, NoMemory>
    ensures { IfOk result (λ h. h ≡ spec.handler_of (members_json members.now)) }
{
    if let Some(inner) = members_at(Key::DeadLetterChannel, members) {
        return dead_letter_in(alloc, inner);
    }
    if let Some(inner) = members_at(Key::DefaultErrorHandler, members) {
        return Ok(Handler {
            dead: None,
            policy: policy_at(inner),
        });
    }
    Ok(default_handler())
}

/// What is done about faults that no clause takes (Camel manual, *Error handler*).
fn handler_in(alloc: Global, items: &[Tree]) -> Result<Handler, NoMemory>
    ensures { IfOk result (λ h. h ≡ spec.handler_in (items_json items.now)) }
{
    for item in items {
        if let Some(members) = members_in(Key::ErrorHandler, item) {
            return handler_of(alloc, members);
        }
    }
    Ok(default_handler())
}

// ---- routes

fn id_in(alloc: Global, position: usize, members: &[(Text, Tree)]) -> Result<Text, NoMemory>
    ensures { IfOk result (λ t. t
        ≡ spec.id_given position (objects.value_at Key.Id (members_json members.now))) }
{
    match value_at(Key::Id, members) {
        None => own_id(alloc, position as u64),
        Some(tree) => Text::of_str(alloc, text_of(tree)),
    }
}

fn begins_at(alloc: Global, members: &[(Text, Tree)]) -> Result<Uri, NoMemory>
    ensures { IfOk result (λ u. u
        ≡ spec.begins_at (leaves.members_at Key.From (members_json members.now))) }
{
    match members_at(Key::From, members) {
        None => Ok(Uri::StreamIn),
        Some(inner) => endpoint_in(alloc, inner),
    }
}

/// The block of the steps of a `from`.
fn build_from_steps(
    alloc: Global,
    n: u32,
    known: &mut Known,
    members: &[(Text, Tree)],
) -> Result<Vec<Block>, NoMemory>
    requires held { Holds (taken.in_given (objects.value_at Key.Steps (members_json members.now))) known.old }
    ensures value { let steps = spec.steps_given (objects.value_at Key.Steps (members_json members.now)) in
        IfOk result (λ bs. bs.items ≡ nest.flat_block n steps) }
    ensures left { OnOk result (Spends (taken.in_given (objects.value_at Key.Steps (members_json members.now))) known.old known.new) }
{
    match value_at(Key::Steps, members) {
        None => empty_block(alloc),
        Some(tree) => build_list(alloc, n, known, tree),
    }
}

fn build_inner_steps(
    alloc: Global,
    n: u32,
    known: &mut Known,
    members: &[(Text, Tree)],
) -> Result<Vec<Block>, NoMemory>
    requires held { Holds (taken.in_object (leaves.members_at Key.From (members_json members.now))) known.old }
    ensures value { let from = leaves.members_at Key.From (members_json members.now) in
        IfOk result (λ bs. bs.items ≡ nest.flat_block n (spec.steps_given (spec.inner_steps from))) }
    ensures left { OnOk result (Spends (taken.in_object (leaves.members_at Key.From (members_json members.now))) known.old known.new) }
{
    match members_at(Key::From, members) {
        None => empty_block(alloc),
        Some(inner) => build_from_steps(alloc, n, known, inner),
    }
}

/// The block of the steps of a `route`, else of its `from`.
fn build_route_steps(
    alloc: Global,
    n: u32,
    known: &mut Known,
    members: &[(Text, Tree)],
) -> Result<Vec<Block>, NoMemory>
    requires held { Holds (taken.in_whole_route (members_json members.now)) known.old }
    ensures value { let ms = members_json members.now in
        let inner = spec.inner_steps (leaves.members_at Key.From ms) in
        let steps = spec.steps_or (objects.value_at Key.Steps ms) inner in
        IfOk result (λ bs. bs.items ≡ nest.flat_block n steps) }
    ensures left { OnOk result (Spends (taken.in_whole_route (members_json members.now)) known.old known.new) }
{
    match value_at(Key::Steps, members) {
        None => build_inner_steps(alloc, n, known, members),
        Some(tree) => build_list(alloc, n, known, tree),
    }
}

fn build_whole_route(
    alloc: Global,
    n: u32,
    position: usize,
    known: &mut Known,
    members: &[(Text, Tree)],
) -> Result<BuiltRoute, NoMemory>
    requires held { Holds (taken.in_whole_route (members_json members.now)) known.old }
    ensures value { let x = spec.whole_route position (members_json members.now) in
        IfOk result (λ b. IsRoute n b x) }
    ensures left { OnOk result (Spends (taken.in_whole_route (members_json members.now)) known.old known.new) }
{
    let id = id_in(alloc, position, members)?;
    let from = begins_at(alloc, members)?;
    let blocks = build_route_steps(alloc, n, known, members)?;
    Ok(BuiltRoute {
        route: Route { id, from, block: n },
        blocks,
    })
}

fn build_from_route(
    alloc: Global,
    n: u32,
    position: usize,
    known: &mut Known,
    members: &[(Text, Tree)],
) -> Result<BuiltRoute, NoMemory>
    requires held { Holds (taken.in_given (objects.value_at Key.Steps (members_json members.now))) known.old }
    ensures value { let x = spec.from_route position (members_json members.now) in
        IfOk result (λ b. IsRoute n b x) }
    ensures left { OnOk result (Spends (taken.in_given (objects.value_at Key.Steps (members_json members.now))) known.old known.new) }
{
    let id = own_id(alloc, position as u64)?;
    let from = endpoint_in(alloc, members)?;
    let blocks = build_from_steps(alloc, n, known, members)?;
    Ok(BuiltRoute {
        route: Route { id, from, block: n },
        blocks,
    })
}

/// The route of an item, where it has one.
fn build_route(
    alloc: Global,
    n: u32,
    position: usize,
    known: &mut Known,
    item: &Tree,
) -> Result<Option<BuiltRoute>, NoMemory>
    requires held { let t = json item.now in
        Holds (taken.in_route (leaves.members_in Key.Route t) (leaves.members_in Key.From t)) known.old }
    ensures value { let t = json item.now in
        let x = spec.route_given position (leaves.members_in Key.Route t) (leaves.members_in Key.From t) in
        IfOk result (λ b. MayBeRoute n b x) }
    ensures left { let t = json item.now in
        OnOk result (Spends (taken.in_route (leaves.members_in Key.Route t) (leaves.members_in Key.From t)) known.old known.new) }
{
    if let Some(members) = members_in(Key::Route, item) {
        return Ok(Some(build_whole_route(alloc, n, position, known, members)?));
    }
    if let Some(members) = members_in(Key::From, item) {
        return Ok(Some(build_from_route(alloc, n, position, known, members)?));
    }
    Ok(None)
}

/// The routes and their blocks, which are numbered from `first`.
fn build_route_items(
    alloc: Global,
    first: u32,
    known: &mut Known,
    items: &[Tree],
) -> Result<BuiltRoutes, NoMemory>
    requires held { Holds (taken.in_routes (items_json items.now)) known.old }
    ensures value { IfOk result (λ b. AreRoutes b
        (nest.flat_routes first (spec.routes_of 1 (items_json items.now)))) }
    ensures left { OnOk result (Spends (taken.in_routes (items_json items.now)) known.old known.new) }
{
    let mut routes = Vec::new(alloc);
    let mut blocks = Vec::new(alloc);
    let mut n = first;
    for item in items {
        let position = routes.len() + 1;
        if let Some(built) = build_route(alloc, n, position, known, item)? {
            let BuiltRoute {
                route,
                blocks: mut more,
            } = built;
            n = after(n, more.len())?;
            routes.push(route)?;
            blocks.append(&mut more)?;
        }
    }
    Ok(BuiltRoutes { routes, blocks })
}

// ---- the whole

fn build_items(
    alloc: Global,
    items: &[Tree],
    names: Names,
    known: &mut Known,
) -> Result<RouteSet, NoMemory>
    requires held { Holds (taken.in_items (items_json items.now)) known.old }
    ensures value { IfOk result (λ s. s ≡ nest.flat_set names (spec.nest_items (items_json items.now))) }
    ensures left { OnOk result (Spends (taken.in_items (items_json items.now)) known.old known.new) }
{
    let BuiltClauses {
        clauses,
        mut blocks,
    } = build_clauses(alloc, known, items)?;
    let first = number(blocks.len())?;
    let BuiltRoutes {
        routes,
        blocks: mut more,
    } = build_route_items(alloc, first, known, items)?;
    let handler = handler_in(alloc, items)?;
    blocks.append(&mut more)?;
    Ok(RouteSet {
        names,
        routes: Series::of(routes),
        blocks: Series::of(blocks),
        handler,
        clauses: Series::of(clauses),
    })
}

/// The set of routes that a tree without faults says (Camel manual, *YAML DSL*), where these names
/// are handed in. Each predicate of the tree is known, since it was read, and is taken out here.
pub fn build_routes(
    alloc: Global,
    tree: &Tree,
    names: Names,
    known: &mut Known,
) -> Result<RouteSet, NoMemory>
    requires held { Holds (taken.in_file (json tree.now)) known.old }
    ensures value { IfOk result (λ s. spec.Reads (json tree.now) names s) }
    ensures left { OnOk result (Spends (taken.in_file (json tree.now)) known.old known.new) }
{
    match tree {
        Tree::List(items) => build_items(alloc, items.items(), names, known),
        Tree::Null => build_items(alloc, &[], names, known),
        Tree::Flag(_) => build_items(alloc, &[], names, known),
        Tree::Whole(_) => build_items(alloc, &[], names, known),
        Tree::Float => build_items(alloc, &[], names, known),
        Tree::Word(_) => build_items(alloc, &[], names, known),
        Tree::Object(_) => build_items(alloc, &[], names, known),
    }
}
