#![tactic(auto, using(eip_text::proofs::Levels::json_levels, eip_route_values::proofs::Taking::taking))]

ghost use Rattle.std.specs.Prelude.{◌≡◌, [], true, None, Some, is_some, option_map, IfOk, OnOk};
ghost use Rattle.eip_text.specs.Json.{json, items_json, members_json};
ghost use Rattle.eip_route.specs.Nest as nest;
ghost use Rattle.eip_route_grammar.specs.Objects as objects;
ghost use Rattle.eip_route_values.specs.Leaves as leaves;
ghost use Rattle.eip_route_values.specs.Nesting as spec;
ghost use Rattle.eip_route_values.specs.Parts as parts;
ghost use Rattle.eip_route_values.specs.Taken as taken;
ghost use Rattle.eip_route_values.specs.Taken.{Holds, Spends};

use eip_route::{Catch, Check, Step, own_repository};
use eip_route_grammar::keys::Key;
use eip_route_grammar::known::Known;
use eip_route_grammar::objects::value_at;
use eip_route_values::leaves::{exceptions_at, flag_at, members_at};
use eip_route_values::parts::{
    aggregate_in, batching_in, check_in, expr_in, fan_in, how_in, repository_in,
};
use eip_route_values::places::Place;
use eip_route_values::steps::leaf_said;
use eip_text::{NoMemory, Series, Text, Tree};
use std::alloc::Global;

/// The places of a kind of step, in the order in which their blocks are numbered; none for a step
/// that holds no others (Camel manual, *YAML DSL*).
pub fn places_of(step: Key) -> &'static [Place]
    ensures { result.now ≡ spec.places step }
{
    match step {
        Key::Choice => &[Place::Each(Key::When), Place::One(Key::Otherwise)],
        Key::Filter => &[Place::Steps],
        Key::Split => &[Place::Steps],
        Key::Multicast => &[Place::Branches],
        Key::Aggregate => &[Place::Steps],
        Key::IdempotentConsumer => &[Place::Steps],
        Key::DoTry => &[
            Place::Steps,
            Place::Each(Key::DoCatch),
            Place::One(Key::DoFinally),
        ],
        Key::Resequence => &[Place::Batch],
        _ => &[],
    }
}

/// The first of these numbers, else 0.
fn first_of(numbers: &[u32]) -> u32
    ensures { result ≡ nest.first_of numbers.now }
{
    match numbers {
        [] => 0,
        [first, ..] => *first,
    }
}

/// The numbers behind the first.
fn behind_first(numbers: &[u32]) -> &[u32]
    ensures { result.now ≡ nest.rest_of numbers.now }
{
    match numbers {
        [] => numbers,
        [_, others @ ..] => others,
    }
}

fn stored_nothing(alloc: Global) -> Result<Check, NoMemory>
    ensures { IfOk result (λ c. c ≡ Check.Stored []) }
{
    Ok(Check::Stored(Text::of_str(alloc, "")?))
}

/// What a case of a choice asks.
fn case_check(alloc: Global, known: &mut Known, tree: &Tree) -> Result<Check, NoMemory>
    requires held { Holds (taken.by_object taken.by_check (json tree.now)) known.old }
    ensures value { IfOk result (λ c. c ≡ spec.case_check (json tree.now)) }
    ensures left { OnOk result (Spends (taken.by_object taken.by_check (json tree.now)) known.old known.new) }
{
    match tree {
        Tree::Object(members) => check_in(alloc, known, members.items()),
        Tree::Null => stored_nothing(alloc),
        Tree::Flag(_) => stored_nothing(alloc),
        Tree::Whole(_) => stored_nothing(alloc),
        Tree::Float => stored_nothing(alloc),
        Tree::Word(_) => stored_nothing(alloc),
        Tree::List(_) => stored_nothing(alloc),
    }
}

/// The items of a list, else none.
fn items_of(tree: &Tree) -> &[Tree]
    ensures { items_json result.now ≡ spec.items_given (Some (json tree.now)) }
{
    match tree {
        Tree::List(items) => items.items(),
        Tree::Null => &[],
        Tree::Flag(_) => &[],
        Tree::Whole(_) => &[],
        Tree::Float => &[],
        Tree::Word(_) => &[],
        Tree::Object(_) => &[],
    }
}

/// The items of the list that a key has as its value, else none.
fn items_at(key: Key, members: &[(Text, Tree)]) -> &[Tree]
    ensures { items_json result.now
        ≡ spec.items_given (objects.value_at key (members_json members.now)) }
{
    match value_at(key, members) {
        Some(tree) => items_of(tree),
        None => &[],
    }
}

/// The cases of a choice, of which the blocks have the first of these numbers, and the numbers behind
/// them.
fn cases<'a>(
    alloc: Global,
    known: &mut Known,
    items: &[Tree],
    numbers: &'a [u32],
) -> Result<(Vec<(Check, u32)>, &'a [u32]), NoMemory>
    requires held { Holds (taken.by_each taken.by_check (items_json items.now)) known.old }
    ensures value { let checks = spec.checks_of (items_json items.now) in
        IfOk result (λ r. (r.0.items ≡ nest.cases_with checks numbers.now)
        × (r.1.now ≡ nest.past checks numbers.now)) }
    ensures left { OnOk result (Spends (taken.by_each taken.by_check (items_json items.now)) known.old known.new) }
{
    let mut cases = Vec::new(alloc);
    let mut left = numbers;
    for item in items {
        let check = case_check(alloc, known, item)?;
        cases.push((check, first_of(left)))?;
        left = behind_first(left);
    }
    Ok((cases, left))
}

/// `choice`: the block of the first case whose check holds is gone through, else the last one.
fn choice(
    alloc: Global,
    known: &mut Known,
    members: &[(Text, Tree)],
    numbers: &[u32],
) -> Result<Step, NoMemory>
    requires held { Holds (taken.by_step Key.Choice (members_json members.now)) known.old }
    ensures value { let ms = members_json members.now in
        let frame = nest.chooses (spec.checks_in ms) (is_some (objects.value_at Key.Otherwise ms)) in
        IfOk result (λ s. s ≡ nest.fill frame numbers.now) }
    ensures left { OnOk result (Spends (taken.by_step Key.Choice (members_json members.now)) known.old known.new) }
{
    let items = items_at(Key::When, members);
    let (cases, left) = cases(alloc, known, items, numbers)?;
    let otherwise = last_of(value_at(Key::Otherwise, members).is_some(), left);
    Ok(Step::Choice {
        cases: Series::of(cases),
        otherwise,
    })
}

/// The number of a block that may be absent: the first of these.
fn last_of(is_there: bool, numbers: &[u32]) -> Option<u32>
    ensures { result ≡ nest.last_with is_there numbers.now }
{
    if is_there {
        Some(first_of(numbers))
    } else {
        None
    }
}

/// What a catch asks of a fault's message, where it asks anything.
fn on_when(
    alloc: Global,
    known: &mut Known,
    members: &[(Text, Tree)],
) -> Result<Option<Check>, NoMemory>
    requires held { Holds (taken.by_given_check (leaves.members_at Key.OnWhen (members_json members.now))) known.old }
    ensures value { IfOk result (λ c. c
        ≡ option_map parts.check_in (leaves.members_at Key.OnWhen (members_json members.now))) }
    ensures left { OnOk result (Spends (taken.by_given_check (leaves.members_at Key.OnWhen (members_json members.now))) known.old known.new) }
{
    match members_at(Key::OnWhen, members) {
        None => Ok(None),
        Some(inner) => Ok(Some(check_in(alloc, known, inner)?)),
    }
}

fn catch_in(
    alloc: Global,
    known: &mut Known,
    members: &[(Text, Tree)],
    block: u32,
) -> Result<Catch, NoMemory>
    requires held { Holds (taken.by_catch (members_json members.now)) known.old }
    ensures value { IfOk result (λ c. c ≡ nest.catch_with (spec.catching_in (members_json members.now)) block) }
    ensures left { OnOk result (Spends (taken.by_catch (members_json members.now)) known.old known.new) }
{
    let names = exceptions_at(alloc, members)?;
    let when = on_when(alloc, known, members)?;
    Ok(Catch {
        names: Series::of(names),
        when,
        block,
    })
}

/// What stands for a catch, in a file with a fault.
fn catch_of_nothing(alloc: Global, block: u32) -> Catch
    ensures { result ≡ nest.catch_with (record { names = []; when = None }) block }
{
    Catch {
        names: Series::of(Vec::new(alloc)),
        when: None,
        block,
    }
}

/// The catch that an item of `doCatch` says, whose block has this number.
fn catch_of(alloc: Global, known: &mut Known, tree: &Tree, block: u32) -> Result<Catch, NoMemory>
    requires held { Holds (taken.by_object taken.by_catch (json tree.now)) known.old }
    ensures value { IfOk result (λ c. c ≡ nest.catch_with (spec.catching_of (json tree.now)) block) }
    ensures left { OnOk result (Spends (taken.by_object taken.by_catch (json tree.now)) known.old known.new) }
{
    match tree {
        Tree::Object(members) => catch_in(alloc, known, members.items(), block),
        Tree::Null => Ok(catch_of_nothing(alloc, block)),
        Tree::Flag(_) => Ok(catch_of_nothing(alloc, block)),
        Tree::Whole(_) => Ok(catch_of_nothing(alloc, block)),
        Tree::Float => Ok(catch_of_nothing(alloc, block)),
        Tree::Word(_) => Ok(catch_of_nothing(alloc, block)),
        Tree::List(_) => Ok(catch_of_nothing(alloc, block)),
    }
}

/// The catches of a try, of which the blocks have the first of these numbers, and the numbers behind
/// them.
fn catches<'a>(
    alloc: Global,
    known: &mut Known,
    items: &[Tree],
    numbers: &'a [u32],
) -> Result<(Vec<Catch>, &'a [u32]), NoMemory>
    requires held { Holds (taken.by_each taken.by_catch (items_json items.now)) known.old }
    ensures value { let takes = spec.catchings_of (items_json items.now) in
        IfOk result (λ r. (r.0.items ≡ nest.catches_with takes numbers.now)
        × (r.1.now ≡ nest.past takes numbers.now)) }
    ensures left { OnOk result (Spends (taken.by_each taken.by_catch (items_json items.now)) known.old known.new) }
{
    let mut catches = Vec::new(alloc);
    let mut left = numbers;
    for item in items {
        catches.push(catch_of(alloc, known, item, first_of(left))?)?;
        left = behind_first(left);
    }
    Ok((catches, left))
}

/// `doTry`: the first block is gone through, then that of the catch that takes its fault, then in any
/// case the last one.
fn try_step(
    alloc: Global,
    known: &mut Known,
    members: &[(Text, Tree)],
    numbers: &[u32],
) -> Result<Step, NoMemory>
    requires held { Holds (taken.by_step Key.DoTry (members_json members.now)) known.old }
    ensures value { let ms = members_json members.now in
        let frame = nest.tries (spec.catchings_in ms) (is_some (objects.value_at Key.DoFinally ms)) in
        IfOk result (λ s. s ≡ nest.fill frame numbers.now) }
    ensures left { OnOk result (Spends (taken.by_step Key.DoTry (members_json members.now)) known.old known.new) }
{
    let items = items_at(Key::DoCatch, members);
    let (catches, left) = catches(alloc, known, items, behind_first(numbers))?;
    let finish = last_of(value_at(Key::DoFinally, members).is_some(), left);
    Ok(Step::Try {
        block: first_of(numbers),
        catches: Series::of(catches),
        finish,
    })
}

/// `filter`: the block is gone through where the check holds.
fn filter(
    alloc: Global,
    known: &mut Known,
    members: &[(Text, Tree)],
    block: u32,
) -> Result<Step, NoMemory>
    requires held { Holds (taken.by_step Key.Filter (members_json members.now)) known.old }
    ensures value { let check = parts.check_in (members_json members.now) in
        IfOk result (λ s. s ≡ Step.Filter check block) }
    ensures left { OnOk result (Spends (taken.by_step Key.Filter (members_json members.now)) known.old known.new) }
{
    let check = check_in(alloc, known, members)?;
    Ok(Step::Filter { check, block })
}

/// `split`: the block is gone through for each part of the body.
fn split(alloc: Global, members: &[(Text, Tree)], block: u32) -> Result<Step, NoMemory>
    ensures { let ms = members_json members.now in
        let how = parts.how_given (objects.value_at Key.Tokenize ms) in
        IfOk result (λ s. s ≡ Step.Split how (parts.fan_in ms) block) }
{
    let how = how_in(alloc, members)?;
    let fan = fan_in(alloc, members)?;
    Ok(Step::Split { how, fan, block })
}

/// `multicast`: each branch is gone through with a copy of the message.
fn multicast(alloc: Global, members: &[(Text, Tree)], numbers: Vec<u32>) -> Result<Step, NoMemory>
    ensures { let fan = parts.fan_in (members_json members.now) in
        IfOk result (λ s. s ≡ Step.Multicast fan numbers.items) }
{
    let fan = fan_in(alloc, members)?;
    Ok(Step::Multicast {
        fan,
        blocks: Series::of(numbers),
    })
}

/// The repository that an idempotent consumer gives, else the one of its block.
fn repository(alloc: Global, members: &[(Text, Tree)], block: u32) -> Result<Text, NoMemory>
    ensures { let name = objects.value_at Key.IdempotentRepository (members_json members.now) in
        IfOk result (λ r. r ≡ nest.repository_of block (parts.repository_given name)) }
{
    match repository_in(alloc, members)? {
        None => own_repository(alloc, block),
        Some(name) => Ok(name),
    }
}

/// `idempotentConsumer`: the block is gone through once for each key.
fn idempotent(alloc: Global, members: &[(Text, Tree)], block: u32) -> Result<Step, NoMemory>
    ensures { let ms = members_json members.now in
        let name = parts.repository_given (objects.value_at Key.IdempotentRepository ms) in
        let skip = leaves.flag_at true Key.SkipDuplicate ms in
        let eager = leaves.flag_at true Key.Eager ms in
        let remove = leaves.flag_at true Key.RemoveOnFailure ms in
        IfOk result (λ s. s
        ≡ Step.Idempotent (parts.expr_in ms) (nest.repository_of block name) skip eager remove block) }
{
    let key = expr_in(alloc, members)?;
    let repository = repository(alloc, members, block)?;
    Ok(Step::Idempotent {
        key,
        repository,
        skip: flag_at(true, Key::SkipDuplicate, members),
        eager: flag_at(true, Key::Eager, members),
        remove: flag_at(true, Key::RemoveOnFailure, members),
        block,
    })
}

/// The step of an object with these members, where the blocks of the steps that it holds have these
/// numbers.
pub fn step_of(
    alloc: Global,
    known: &mut Known,
    step: Key,
    members: &[(Text, Tree)],
    numbers: Vec<u32>,
) -> Result<Step, NoMemory>
    requires held { Holds (taken.by_step step (members_json members.now)) known.old }
    ensures value { let said = spec.said step (members_json members.now) in
        IfOk result (λ s. s ≡ spec.with_numbers said numbers.items) }
    ensures left { OnOk result (Spends (taken.by_step step (members_json members.now)) known.old known.new) }
{
    let block = first_of(numbers.as_slice());
    match step {
        Key::Choice => choice(alloc, known, members, numbers.as_slice()),
        Key::Filter => filter(alloc, known, members, block),
        Key::Split => split(alloc, members, block),
        Key::Multicast => multicast(alloc, members, numbers),
        Key::Aggregate => Ok(Step::Aggregate(aggregate_in(alloc, block, known, members)?)),
        Key::IdempotentConsumer => idempotent(alloc, members, block),
        Key::DoTry => try_step(alloc, known, members, numbers.as_slice()),
        Key::Resequence => Ok(Step::Aggregate(batching_in(alloc, block, members)?)),
        _ => leaf_said(alloc, step, members),
    }
}
