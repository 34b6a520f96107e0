#![tactic(auto, using(eip_text::proofs::Levels::json_levels, crate::proofs::Places::one_place_held))]

ghost use Rattle.std.specs.Prelude.{◌≡◌, [], ◌∷◌, IfOk, OnOk};
ghost use Rattle.eip_text.specs.Json.{json, items_json, members_json};
ghost use Rattle.eip_route.specs.Nest as nest;
ghost use Rattle.eip_route_values.specs.Built.{IsStep, AreSteps, AreGroups};
ghost use Rattle.eip_route_values.specs.Nesting as spec;
ghost use Rattle.eip_route_values.specs.Parts as parts;
ghost use Rattle.eip_route_values.specs.Taken as taken;
ghost use Rattle.eip_route_values.specs.Taken.{Holds, Spends};

use eip_exchange::How;
use eip_route::{Block, Step};
use eip_route_frames::{places_of, step_of};
use eip_route_grammar::keys::Key;
use eip_route_grammar::known::Known;
use eip_route_values::built::{
    BuiltGroups, BuiltStep, BuiltSteps, after, branch, empty_block, headed,
};
use eip_route_values::parts::{order_key_in, plain_fan};
use eip_route_values::places::{Place, step_key};
use eip_route_values::steps::{nothing, text_said};
use eip_text::{NoMemory, Text, Tree};
use std::alloc::Global;

/// A step that holds no others.
fn bare(alloc: Global, step: Step) -> Result<BuiltStep, NoMemory>
    ensures { IfOk result (λ b. IsStep b (record { step = step; blocks = [] })) }
{
    Ok(BuiltStep {
        step,
        blocks: Vec::new(alloc),
    })
}

/// What stands for no step, in a file with a fault.
fn no_step(alloc: Global) -> Result<BuiltStep, NoMemory>
    ensures { IfOk result (λ b. IsStep b (record { step = spec.no_step; blocks = [] })) }
{
    bare(alloc, nothing(alloc)?)
}

fn no_groups(alloc: Global) -> BuiltGroups
    ensures { AreGroups result (record { numbers = []; blocks = [] }) }
{
    BuiltGroups {
        numbers: Vec::new(alloc),
        blocks: Vec::new(alloc),
    }
}

/// One group, with the block of its steps and those nested in it.
fn one_group(alloc: Global, n: u32, blocks: Vec<Block>) -> Result<BuiltGroups, NoMemory>
    ensures { IfOk result (λ b. AreGroups b (record { numbers = n ∷ []; blocks = blocks.items })) }
{
    let mut numbers = Vec::new(alloc);
    numbers.push(n)?;
    Ok(BuiltGroups { numbers, blocks })
}

/// The block of a list of steps, with the number n, and those nested in it.
#[cycle(build)]
pub fn build_list(
    alloc: Global,
    n: u32,
    known: &mut Known,
    tree: &Tree,
) -> Result<Vec<Block>, NoMemory>
    requires held { Holds (taken.in_list (json tree.now)) known.old }
    ensures value { IfOk result (λ bs. bs.items ≡ nest.flat_block n (spec.nest_list (json tree.now))) }
    ensures left { OnOk result (Spends (taken.in_list (json tree.now)) known.old known.new) }
{
    match tree {
        Tree::List(items) => {
            let steps = build_steps(alloc, after(n, 1)?, known, items.items())?;
            let blocks = headed(alloc, steps)?;
            Ok(blocks)
        }
        Tree::Null => empty_block(alloc),
        Tree::Flag(_) => empty_block(alloc),
        Tree::Whole(_) => empty_block(alloc),
        Tree::Float => empty_block(alloc),
        Tree::Word(_) => empty_block(alloc),
        Tree::Object(_) => empty_block(alloc),
    }
}

#[cycle(build)]
fn build_steps(
    alloc: Global,
    first: u32,
    known: &mut Known,
    items: &[Tree],
) -> Result<BuiltSteps, NoMemory>
    requires held { Holds (taken.in_steps (items_json items.now)) known.old }
    ensures value { IfOk result (λ b. AreSteps b (nest.flat_steps first (spec.nest_steps (items_json items.now)))) }
    ensures left { OnOk result (Spends (taken.in_steps (items_json items.now)) known.old known.new) }
{
    let mut steps = Vec::new(alloc);
    let mut blocks = Vec::new(alloc);
    let mut n = first;
    for item in items {
        let BuiltStep {
            step,
            blocks: mut more,
        } = build_step(alloc, n, known, item)?;
        n = after(n, more.len())?;
        steps.push(step)?;
        blocks.append(&mut more)?;
    }
    Ok(BuiltSteps { steps, blocks })
}

#[cycle(build)]
fn build_step(alloc: Global, n: u32, known: &mut Known, tree: &Tree) -> Result<BuiltStep, NoMemory>
    requires held { Holds (taken.in_step (json tree.now)) known.old }
    ensures value { IfOk result (λ b. IsStep b (nest.flat_step n (spec.nest_step (json tree.now)))) }
    ensures left { OnOk result (Spends (taken.in_step (json tree.now)) known.old known.new) }
{
    match tree {
        Tree::Object(members) => {
            let step = build_only(alloc, n, known, members.items())?;
            Ok(step)
        }
        Tree::Null => no_step(alloc),
        Tree::Flag(_) => no_step(alloc),
        Tree::Whole(_) => no_step(alloc),
        Tree::Float => no_step(alloc),
        Tree::Word(_) => no_step(alloc),
        Tree::List(_) => no_step(alloc),
    }
}

#[cycle(build)]
fn build_only(
    alloc: Global,
    n: u32,
    known: &mut Known,
    members: &[(Text, Tree)],
) -> Result<BuiltStep, NoMemory>
    requires held { Holds (taken.in_only (members_json members.now)) known.old }
    ensures value { IfOk result (λ b. IsStep b (nest.flat_step n (spec.nest_only (members_json members.now)))) }
    ensures left { OnOk result (Spends (taken.in_only (members_json members.now)) known.old known.new) }
{
    for member in members {
        let key = step_key(member.0.as_str());
        let step = build_value(alloc, n, known, key, &member.1)?;
        return Ok(step);
    }
    no_step(alloc)
}

#[cycle(build)]
fn build_value(
    alloc: Global,
    n: u32,
    known: &mut Known,
    key: Option<Key>,
    tree: &Tree,
) -> Result<BuiltStep, NoMemory>
    requires held { Holds (taken.in_value key (json tree.now)) known.old }
    ensures value { IfOk result (λ b. IsStep b (nest.flat_step n (spec.nest_value key (json tree.now)))) }
    ensures left { OnOk result (Spends (taken.in_value key (json tree.now)) known.old known.new) }
{
    let Some(key) = key else {
        return no_step(alloc);
    };
    match tree {
        Tree::Object(members) => Ok(build_object(alloc, n, known, key, members.items())?),
        Tree::Word(text) => bare(alloc, text_said(alloc, key, text.as_str())?),
        Tree::Null => no_step(alloc),
        Tree::Flag(_) => no_step(alloc),
        Tree::Whole(_) => no_step(alloc),
        Tree::Float => no_step(alloc),
        Tree::List(_) => no_step(alloc),
    }
}

/// A step that is given by an object: first the blocks of the steps that it holds.
#[cycle(build)]
fn build_object(
    alloc: Global,
    n: u32,
    known: &mut Known,
    key: Key,
    members: &[(Text, Tree)],
) -> Result<BuiltStep, NoMemory>
    requires held { Holds (taken.in_step_of key (members_json members.now)) known.old }
    ensures value { let ms = members_json members.now in
        let step = spec.with_groups (spec.said key ms) (spec.at_places (spec.nest_at ms) (spec.places key)) in
        IfOk result (λ b. IsStep b (nest.flat_step n step)) }
    ensures left { OnOk result (Spends (taken.in_step_of key (members_json members.now)) known.old known.new) }
{
    let BuiltGroups { numbers, blocks } = build_places(alloc, n, known, places_of(key), members)?;
    let step = step_of(alloc, known, key, members, numbers)?;
    Ok(BuiltStep { step, blocks })
}

/// The groups of steps that an object holds at these places.
#[cycle(build)]
fn build_places(
    alloc: Global,
    first: u32,
    known: &mut Known,
    places: &[Place],
    members: &[(Text, Tree)],
) -> Result<BuiltGroups, NoMemory>
    requires held { Holds (taken.at_places (taken.in_place (members_json members.now)) places.now) known.old }
    ensures value { let groups = spec.at_places (spec.nest_at (members_json members.now)) places.now in
        IfOk result (λ b. AreGroups b (nest.flat_groups first groups)) }
    ensures left { OnOk result (Spends (taken.at_places (taken.in_place (members_json members.now)) places.now) known.old known.new) }
{
    let mut numbers = Vec::new(alloc);
    let mut blocks = Vec::new(alloc);
    let mut n = first;
    for place in places {
        let mut more = build_place(alloc, n, known, *place, members)?;
        n = after(n, more.blocks.len())?;
        numbers.append(&mut more.numbers)?;
        blocks.append(&mut more.blocks)?;
    }
    Ok(BuiltGroups { numbers, blocks })
}

#[cycle(build)]
fn build_place(
    alloc: Global,
    n: u32,
    known: &mut Known,
    place: Place,
    members: &[(Text, Tree)],
) -> Result<BuiltGroups, NoMemory>
    requires held { Holds (taken.in_place (members_json members.now) place) known.old }
    ensures value { let groups = spec.nest_at (members_json members.now) place in
        IfOk result (λ b. AreGroups b (nest.flat_groups n groups)) }
    ensures left { OnOk result (Spends (taken.in_place (members_json members.now) place) known.old known.new) }
{
    match place {
        Place::Steps => one_group(alloc, n, build_in(alloc, n, known, members)?),
        Place::Branches => Ok(build_branches_in(alloc, n, known, members)?),
        Place::Each(key) => Ok(build_each_in(alloc, n, known, key, members)?),
        Place::One(key) => Ok(build_one_in(alloc, n, known, key, members)?),
        Place::Batch => Ok(build_batch(alloc, n, known, members)?),
    }
}

/// The block of a split into the messages of a batch, and then that of the steps which each runs.
#[tactic(auto, using(eip_text::proofs::Levels::json_levels, crate::proofs::Groups::batch_flat))]
#[cycle(build)]
fn build_batch(
    alloc: Global,
    n: u32,
    known: &mut Known,
    members: &[(Text, Tree)],
) -> Result<BuiltGroups, NoMemory>
    requires held { Holds (taken.in_own (members_json members.now)) known.old }
    ensures value { let ms = members_json members.now in
        let groups = nest.batch_groups (parts.order_key_in ms) (spec.nest_in ms) in
        IfOk result (λ b. AreGroups b (nest.flat_groups n groups)) }
    ensures left { OnOk result (Spends (taken.in_own (members_json members.now)) known.old known.new) }
{
    let inner = after(n, 1)?;
    let blocks = build_in(alloc, inner, known, members)?;
    let split = Step::Split {
        how: How::Batch(order_key_in(alloc, members)?),
        fan: plain_fan(),
        block: inner,
    };
    let step = BuiltStep {
        step: split,
        blocks,
    };
    one_group(alloc, n, branch(alloc, step)?)
}

/// The block of an object's `steps`, and those nested in it.
#[cycle(build)]
fn build_in(
    alloc: Global,
    n: u32,
    known: &mut Known,
    members: &[(Text, Tree)],
) -> Result<Vec<Block>, NoMemory>
    requires held { Holds (taken.in_own (members_json members.now)) known.old }
    ensures value { IfOk result (λ bs. bs.items
        ≡ nest.flat_block n (spec.nest_in (members_json members.now))) }
    ensures left { OnOk result (Spends (taken.in_own (members_json members.now)) known.old known.new) }
{
    for member in members {
        if Key::Steps.is(member.0.as_str()) {
            let blocks = build_list(alloc, n, known, &member.1)?;
            return Ok(blocks);
        }
    }
    empty_block(alloc)
}

/// The block of the `steps` of an object by its value, and those nested in it.
#[cycle(build)]
fn build_inner(
    alloc: Global,
    n: u32,
    known: &mut Known,
    tree: &Tree,
) -> Result<Vec<Block>, NoMemory>
    requires held { Holds (taken.in_inner (json tree.now)) known.old }
    ensures value { IfOk result (λ bs. bs.items ≡ nest.flat_block n (spec.nest_inner (json tree.now))) }
    ensures left { OnOk result (Spends (taken.in_inner (json tree.now)) known.old known.new) }
{
    match tree {
        Tree::Object(members) => Ok(build_in(alloc, n, known, members.items())?),
        Tree::Null => empty_block(alloc),
        Tree::Flag(_) => empty_block(alloc),
        Tree::Whole(_) => empty_block(alloc),
        Tree::Float => empty_block(alloc),
        Tree::Word(_) => empty_block(alloc),
        Tree::List(_) => empty_block(alloc),
    }
}

#[cycle(build)]
fn build_branches_in(
    alloc: Global,
    n: u32,
    known: &mut Known,
    members: &[(Text, Tree)],
) -> Result<BuiltGroups, NoMemory>
    requires held { Holds (taken.in_own (members_json members.now)) known.old }
    ensures value { IfOk result (λ b. AreGroups b
        (nest.flat_groups n (spec.nest_branches_in (members_json members.now)))) }
    ensures left { OnOk result (Spends (taken.in_own (members_json members.now)) known.old known.new) }
{
    for member in members {
        if Key::Steps.is(member.0.as_str()) {
            let branches = build_branch_list(alloc, n, known, &member.1)?;
            return Ok(branches);
        }
    }
    Ok(no_groups(alloc))
}

#[cycle(build)]
fn build_branch_list(
    alloc: Global,
    n: u32,
    known: &mut Known,
    tree: &Tree,
) -> Result<BuiltGroups, NoMemory>
    requires held { Holds (taken.in_list (json tree.now)) known.old }
    ensures value { IfOk result (λ b. AreGroups b (nest.flat_groups n (spec.nest_branch_list (json tree.now)))) }
    ensures left { OnOk result (Spends (taken.in_list (json tree.now)) known.old known.new) }
{
    match tree {
        Tree::List(items) => Ok(build_branches(alloc, n, known, items.items())?),
        Tree::Null => Ok(no_groups(alloc)),
        Tree::Flag(_) => Ok(no_groups(alloc)),
        Tree::Whole(_) => Ok(no_groups(alloc)),
        Tree::Float => Ok(no_groups(alloc)),
        Tree::Word(_) => Ok(no_groups(alloc)),
        Tree::Object(_) => Ok(no_groups(alloc)),
    }
}

/// Each step as a block of its own.
#[cycle(build)]
fn build_branches(
    alloc: Global,
    first: u32,
    known: &mut Known,
    items: &[Tree],
) -> Result<BuiltGroups, NoMemory>
    requires held { Holds (taken.in_steps (items_json items.now)) known.old }
    ensures value { IfOk result (λ b. AreGroups b
        (nest.flat_groups first (spec.nest_branches (items_json items.now)))) }
    ensures left { OnOk result (Spends (taken.in_steps (items_json items.now)) known.old known.new) }
{
    let mut numbers = Vec::new(alloc);
    let mut blocks = Vec::new(alloc);
    let mut n = first;
    for item in items {
        let step = build_step(alloc, after(n, 1)?, known, item)?;
        let mut more = branch(alloc, step)?;
        numbers.push(n)?;
        n = after(n, more.len())?;
        blocks.append(&mut more)?;
    }
    Ok(BuiltGroups { numbers, blocks })
}

#[cycle(build)]
fn build_each_in(
    alloc: Global,
    n: u32,
    known: &mut Known,
    key: Key,
    members: &[(Text, Tree)],
) -> Result<BuiltGroups, NoMemory>
    requires held { Holds (taken.in_each_of key (members_json members.now)) known.old }
    ensures value { IfOk result (λ b. AreGroups b
        (nest.flat_groups n (spec.nest_each_in key (members_json members.now)))) }
    ensures left { OnOk result (Spends (taken.in_each_of key (members_json members.now)) known.old known.new) }
{
    for member in members {
        if key.is(member.0.as_str()) {
            let groups = build_each_list(alloc, n, known, &member.1)?;
            return Ok(groups);
        }
    }
    Ok(no_groups(alloc))
}

#[cycle(build)]
fn build_each_list(
    alloc: Global,
    n: u32,
    known: &mut Known,
    tree: &Tree,
) -> Result<BuiltGroups, NoMemory>
    requires held { Holds (taken.in_each_list (json tree.now)) known.old }
    ensures value { IfOk result (λ b. AreGroups b (nest.flat_groups n (spec.nest_each_list (json tree.now)))) }
    ensures left { OnOk result (Spends (taken.in_each_list (json tree.now)) known.old known.new) }
{
    match tree {
        Tree::List(items) => Ok(build_each(alloc, n, known, items.items())?),
        Tree::Null => Ok(no_groups(alloc)),
        Tree::Flag(_) => Ok(no_groups(alloc)),
        Tree::Whole(_) => Ok(no_groups(alloc)),
        Tree::Float => Ok(no_groups(alloc)),
        Tree::Word(_) => Ok(no_groups(alloc)),
        Tree::Object(_) => Ok(no_groups(alloc)),
    }
}

/// The `steps` of each object as a block.
#[cycle(build)]
fn build_each(
    alloc: Global,
    first: u32,
    known: &mut Known,
    items: &[Tree],
) -> Result<BuiltGroups, NoMemory>
    requires held { Holds (taken.in_each (items_json items.now)) known.old }
    ensures value { IfOk result (λ b. AreGroups b
        (nest.flat_groups first (spec.nest_each (items_json items.now)))) }
    ensures left { OnOk result (Spends (taken.in_each (items_json items.now)) known.old known.new) }
{
    let mut numbers = Vec::new(alloc);
    let mut blocks = Vec::new(alloc);
    let mut n = first;
    for item in items {
        let mut more = build_inner(alloc, n, known, item)?;
        numbers.push(n)?;
        n = after(n, more.len())?;
        blocks.append(&mut more)?;
    }
    Ok(BuiltGroups { numbers, blocks })
}

/// The block of the `steps` of a key's object, where it is there.
#[cycle(build)]
fn build_one_in(
    alloc: Global,
    n: u32,
    known: &mut Known,
    key: Key,
    members: &[(Text, Tree)],
) -> Result<BuiltGroups, NoMemory>
    requires held { Holds (taken.in_one_of key (members_json members.now)) known.old }
    ensures value { IfOk result (λ b. AreGroups b
        (nest.flat_groups n (spec.nest_one_in key (members_json members.now)))) }
    ensures left { OnOk result (Spends (taken.in_one_of key (members_json members.now)) known.old known.new) }
{
    for member in members {
        if key.is(member.0.as_str()) {
            let blocks = build_inner(alloc, n, known, &member.1)?;
            return one_group(alloc, n, blocks);
        }
    }
    Ok(no_groups(alloc))
}
