#![tactic(auto, using(crate::proofs::Objects::trees))]

ghost use Rattle.std.specs.Prelude.{◌≡◌, ◌++◌, IfOk, OnOk, codes};
ghost use Rattle.std.specs.Option.{option_map};
ghost use Rattle.eip_text.specs.Json.{json, members_of};
ghost use Rattle.eip_uri.specs.Printed.{printed};
ghost use Rattle.eip_route.specs.Nest.{aggregates, catchings_of, chooses, checks_of, name_given, past, tries, without_block, case_numbers, catch_numbers, last_number, step_numbers};
ghost use Rattle.eip_route_canonical.specs.Canonical as spec;
ghost use Rattle.eip_route_canonical.specs.Trees as trees;

use crate::groups::Groups;
use crate::members::{
    expr_tree, put_batch_config, put_check, put_constant, put_count, put_delimiter,
    put_group_strategy, put_json_path, put_named, put_order, put_predicate, put_simple,
    put_strategy, put_token, words,
};
use crate::object::{Object, alone, word};
use eip_exchange::{How, Key, Strategy};
use eip_route::{Aggregate, Catch, Check, Expr, Fan, Step, own_repository};
use eip_simple_read::{Template, print_template};
use eip_text::{NoMemory, Series, Text, Tree};
use eip_uri::Uri;
use std::alloc::Global;

/// `setBody`.
#[tactic(auto, unfolding(crate::specs::Canonical::set_body_json), using(crate::proofs::Objects::trees))]
fn set_body(alloc: Global, value: &Expr) -> Result<Tree, NoMemory>
    ensures { IfOk result (λ t. json t ≡ spec.set_body_json value.now) }
{
    let value = expr_tree(alloc, value)?;
    Ok(alone(alloc, "setBody", value)?)
}

/// `setHeader` or `setProperty`.
#[tactic(auto, unfolding(crate::specs::Canonical::named_value_json), using(crate::proofs::Objects::trees))]
fn set(alloc: Global, key: &str, name: &Text, value: &Expr) -> Result<Tree, NoMemory>
    ensures { IfOk result (λ t. json t ≡ spec.named_value_json key.now name.now value.now) }
{
    let mut object = Object::new(alloc);
    put_constant(&mut object, value)?;
    put_named(&mut object, value)?;
    object.put_word("name", name)?;
    put_simple(alloc, &mut object, value)?;
    Ok(alone(alloc, key, object.tree())?)
}

/// A step that is written as a text.
fn step_of_text(alloc: Global, key: &str, text: &Text) -> Result<Tree, NoMemory>
    ensures { IfOk result (λ t. json t ≡ spec.text_json key.now text.now) }
{
    let text = word(text)?;
    Ok(alone(alloc, key, text)?)
}

/// `to`.
fn to(alloc: Global, uri: &Uri) -> Result<Tree, NoMemory>
    ensures { IfOk result (λ t. json t ≡ spec.text_json (codes "to") (printed uri.now)) }
{
    let uri = uri.print(alloc)?;
    Ok(step_of_text(alloc, "to", &uri)?)
}

/// `log`: a text where it has no name.
#[tactic(auto, unfolding(crate::specs::Canonical::log_json), using(crate::proofs::Objects::trees))]
fn log(alloc: Global, name: &Option<Text>, message: &Template) -> Result<Tree, NoMemory>
    ensures { IfOk result (λ t. json t ≡ spec.log_json name.now message.now) }
{
    let message = print_template(alloc, message)?;
    match name {
        Some(name) => {
            let mut object = Object::new(alloc);
            object.put_word("logName", name)?;
            object.put_text("message", message)?;
            Ok(alone(alloc, "log", object.tree())?)
        }
        None => Ok(alone(alloc, "log", Tree::Word(message))?),
    }
}

/// `throwException`.
#[tactic(auto, unfolding(crate::specs::Canonical::throw_json), using(crate::proofs::Objects::trees))]
fn throw(alloc: Global, kind: &Text, message: &Template) -> Result<Tree, NoMemory>
    ensures { IfOk result (λ t. json t ≡ spec.throw_json kind.now message.now) }
{
    let message = print_template(alloc, message)?;
    let mut object = Object::new(alloc);
    object.put_word("exceptionType", kind)?;
    object.put_text("message", message)?;
    Ok(alone(alloc, "throwException", object.tree())?)
}

/// The check and the steps of a `filter` or of a case.
#[tactic(auto, unfolding(crate::specs::Canonical::guarded_json), using(crate::proofs::Objects::trees))]
fn guarded(alloc: Global, check: &Check, steps: Tree) -> Result<Tree, NoMemory>
    ensures { IfOk result (λ t. json t ≡ spec.guarded_json check.now (json steps)) }
{
    let mut object = Object::new(alloc);
    put_check(alloc, &mut object, check)?;
    object.put("steps", steps)?;
    Ok(object.tree())
}

/// `filter`.
fn filter(alloc: Global, check: &Check, steps: Tree) -> Result<Tree, NoMemory>
    ensures { IfOk result (λ t. json t ≡ spec.alone (codes "filter") (spec.guarded_json check.now (json steps))) }
{
    let inner = guarded(alloc, check, steps)?;
    Ok(alone(alloc, "filter", inner)?)
}

/// The cases of a choice, each with the steps of a group, which goes.
#[tactic(auto, using(crate::proofs::Objects::trees, crate::proofs::Loops::case_pushed, crate::proofs::Loops::case_passed))]
fn case_trees(alloc: Global, cases: &[(Check, u32)], groups: &mut Groups) -> Result<Tree, NoMemory>
    ensures trees { IfOk result (λ t. json t ≡ spec.list_of (spec.cases_json (checks_of cases.now) (trees.left groups.old))) }
    ensures rest { OnOk result (trees.left groups.new ≡ past (checks_of cases.now) (trees.left groups.old)) }
{
    let mut items = Vec::new(alloc);
    for (check, _) in cases {
        let steps = groups.next_list();
        let tree = guarded(alloc, check, steps)?;
        items.push(tree)?;
    }
    Ok(Tree::List(Series::of(items)))
}

/// The member of the last block, where it is there, with the steps of the first group.
fn put_last(
    alloc: Global,
    object: &mut Object,
    key: &str,
    is_there: bool,
    groups: Groups,
) -> Result<(), NoMemory>
    ensures { OnOk result (trees.made object.new
        ≡ trees.made object.old ++ spec.nested_pairs key.now (spec.last_steps is_there (trees.left groups))) }
{
    let mut groups = groups;
    if is_there {
        let steps = alone(alloc, "steps", groups.next_list())?;
        object.put(key, steps)
    } else {
        Ok(())
    }
}

/// `choice`.
#[tactic(auto, unfolding(crate::specs::Canonical::choice_json), using(crate::proofs::Objects::trees))]
fn choice(
    alloc: Global,
    conditions: &[(Check, u32)],
    has_last: bool,
    groups: Groups,
) -> Result<Tree, NoMemory>
    ensures { IfOk result (λ t. json t ≡ spec.frame_json (chooses (checks_of conditions.now) has_last) (trees.left groups)) }
{
    let mut groups = groups;
    let cases = case_trees(alloc, conditions, &mut groups)?;
    let mut object = Object::new(alloc);
    put_last(alloc, &mut object, "otherwise", has_last, groups)?;
    object.put("when", cases)?;
    Ok(alone(alloc, "choice", object.tree())?)
}

/// `split`.
#[tactic(auto, unfolding(crate::specs::Canonical::split_json), using(crate::proofs::Objects::trees))]
fn split(alloc: Global, how: &How, fan: &Fan, steps: Tree) -> Result<Tree, NoMemory>
    ensures { IfOk result (λ t. json t ≡ spec.split_json how.now fan.now (json steps)) }
{
    let mut object = Object::new(alloc);
    put_strategy(alloc, &mut object, fan)?;
    put_json_path(alloc, &mut object, how)?;
    object.put_set("parallelProcessing", fan.parallel)?;
    object.put_set("shareUnitOfWork", fan.share)?;
    object.put("steps", steps)?;
    object.put_set("stopOnException", fan.stop)?;
    put_token(&mut object, how)?;
    Ok(alone(alloc, "split", object.tree())?)
}

/// What a batch's split gives to its `resequence`: what the messages are put in order by, and the steps.
#[tactic(auto, unfolding(crate::specs::Canonical::batch_json), using(crate::proofs::Objects::trees))]
fn batch(alloc: Global, key: &Key, steps: Tree) -> Result<Tree, NoMemory>
    ensures { IfOk result (λ t. json t ≡ spec.batch_json key.now (json steps)) }
{
    let mut object = Object::new(alloc);
    put_order(alloc, &mut object, key)?;
    object.put("steps", steps)?;
    Ok(object.tree())
}

/// `split`, or what one of a batch gives to its `resequence`.
fn any_split(alloc: Global, how: &How, fan: &Fan, steps: Tree) -> Result<Tree, NoMemory>
    ensures { IfOk result (λ t. json t ≡ spec.splits_json how.now fan.now (json steps)) }
{
    match how {
        How::Batch(key) => batch(alloc, key, steps),
        How::Token(_) | How::JsonArray => split(alloc, how, fan, steps),
    }
}

/// `multicast`.
#[tactic(auto, unfolding(crate::specs::Canonical::multicast_json), using(crate::proofs::Objects::trees))]
fn multicast(alloc: Global, fan: &Fan, steps: Tree) -> Result<Tree, NoMemory>
    ensures { IfOk result (λ t. json t ≡ spec.multicast_json fan.now (json steps)) }
{
    let mut object = Object::new(alloc);
    put_strategy(alloc, &mut object, fan)?;
    object.put_set("parallelProcessing", fan.parallel)?;
    object.put_set("shareUnitOfWork", fan.share)?;
    object.put("steps", steps)?;
    object.put_set("stopOnException", fan.stop)?;
    Ok(alone(alloc, "multicast", object.tree())?)
}

/// `recipientList`.
#[tactic(auto, unfolding(crate::specs::Canonical::recipients_json), using(crate::proofs::Objects::trees))]
fn recipients(alloc: Global, list: &Expr, delimiter: &Text, fan: &Fan) -> Result<Tree, NoMemory>
    ensures { IfOk result (λ t. json t ≡ spec.recipients_json list.now delimiter.now fan.now) }
{
    let mut object = Object::new(alloc);
    put_strategy(alloc, &mut object, fan)?;
    put_constant(&mut object, list)?;
    put_delimiter(&mut object, delimiter)?;
    put_named(&mut object, list)?;
    object.put_set("parallelProcessing", fan.parallel)?;
    object.put_set("shareUnitOfWork", fan.share)?;
    put_simple(alloc, &mut object, list)?;
    object.put_set("stopOnException", fan.stop)?;
    Ok(alone(alloc, "recipientList", object.tree())?)
}

/// `aggregate`.
#[tactic(auto, unfolding(crate::specs::Canonical::aggregate_json), using(crate::proofs::Objects::trees))]
fn aggregate(alloc: Global, setting: &Aggregate, steps: Tree) -> Result<Tree, NoMemory>
    ensures { IfOk result (λ t. json t ≡ spec.aggregate_json (without_block setting.now) (json steps)) }
{
    let mut object = Object::new(alloc);
    put_group_strategy(alloc, &mut object, &setting.strategy)?;
    put_predicate(alloc, &mut object, &setting.predicate)?;
    put_count(&mut object, "completionSize", setting.size)?;
    object.put_given("completionTimeout", setting.timeout)?;
    let key = expr_tree(alloc, &setting.key)?;
    object.put("correlationExpression", key)?;
    object.put_set("forceCompletionOnStop", setting.force)?;
    object.put("steps", steps)?;
    Ok(alone(alloc, "aggregate", object.tree())?)
}

/// The members of an object.
#[tactic(auto, using(eip_text::proofs::Levels::json_levels, crate::proofs::Objects::members_same))]
fn object_members(alloc: Global, tree: Tree) -> Vec<(Text, Tree)>
    ensures { members_of (trees.pairs_of result.items) ≡ spec.object_members (json tree) }
{
    match tree {
        Tree::Object(members) => members.into_vec(),
        Tree::Null | Tree::Flag(_) | Tree::Whole(_) | Tree::Float | Tree::Word(_) | Tree::List(_) =>
            Vec::new(alloc),
    }
}

/// The members of the first of these, where it is an object.
fn members_first(alloc: Global, steps: Vec<Tree>) -> Vec<(Text, Tree)>
    ensures { members_of (trees.pairs_of result.items) ≡ spec.members_first (trees.values_of steps.items) }
{
    match steps.into_iter().next() {
        Some(step) => object_members(alloc, step),
        None => Vec::new(alloc),
    }
}

/// `resequence`: the attributes of its batches, and what its split gives.
#[tactic(auto, unfolding(crate::specs::Canonical::resequence_json), using(crate::proofs::Objects::trees, crate::proofs::Objects::members_behind))]
fn resequence(alloc: Global, setting: &Aggregate, steps: Vec<Tree>) -> Result<Tree, NoMemory>
    ensures { IfOk result (λ t. json t
        ≡ spec.resequence_json (without_block setting.now) (trees.values_of steps.items)) }
{
    let mut object = Object::new(alloc);
    put_batch_config(alloc, &mut object, setting)?;
    object.put_all(members_first(alloc, steps))?;
    Ok(alone(alloc, "resequence", object.tree())?)
}

/// `aggregate`, or the `resequence` of one that gathers batches.
fn any_aggregate(alloc: Global, setting: &Aggregate, groups: Groups) -> Result<Tree, NoMemory>
    ensures { IfOk result (λ t. json t
        ≡ spec.frame_json (aggregates (without_block setting.now)) (trees.left groups)) }
{
    let mut groups = groups;
    match setting.strategy {
        Strategy::Batch => resequence(alloc, setting, groups.next_steps()),
        Strategy::Latest
        | Strategy::Original
        | Strategy::Joined(_)
        | Strategy::Grouped
        | Strategy::Sum => aggregate(alloc, setting, groups.next_list()),
    }
}

/// What an idempotent consumer has beside its steps.
#[derive(Clone, Copy)]
struct Once<'a> {
    key: &'a Expr,
    /// The repository that it names.
    repository: Option<&'a Text>,
    skip: bool,
    eager: bool,
    remove: bool,
}

fn put_repository(object: &mut Object, repository: Option<&Text>) -> Result<(), NoMemory>
    ensures { OnOk result (trees.made object.new ≡ trees.made object.old
        ++ spec.given_word (codes "idempotentRepository") (option_map (λ t. t.now) repository.entry)) }
{
    match repository {
        Some(name) => object.put_word("idempotentRepository", name),
        None => Ok(()),
    }
}

/// `idempotentConsumer`.
#[tactic(auto, unfolding(crate::specs::Canonical::idempotent_json), using(crate::proofs::Objects::trees))]
fn idempotent(alloc: Global, once: Once<'_>, steps: Tree) -> Result<Tree, NoMemory>
    ensures { IfOk result (λ t. json t ≡ spec.idempotent_json once.entry.key.now
        (option_map (λ t. t.now) once.entry.repository) once.entry.skip once.entry.eager once.entry.remove (json steps)) }
{
    let mut object = Object::new(alloc);
    put_constant(&mut object, once.key)?;
    object.put_unset("eager", once.eager)?;
    put_named(&mut object, once.key)?;
    put_repository(&mut object, once.repository)?;
    object.put_unset("removeOnFailure", once.remove)?;
    put_simple(alloc, &mut object, once.key)?;
    object.put_unset("skipDuplicate", once.skip)?;
    object.put("steps", steps)?;
    Ok(alone(alloc, "idempotentConsumer", object.tree())?)
}

/// What a catch asks of a fault's message, where it asks anything.
fn put_when(alloc: Global, object: &mut Object, check: &Option<Check>) -> Result<(), NoMemory>
    ensures { OnOk result (trees.made object.new ≡ trees.made object.old ++ spec.when_pairs check.now) }
{
    match check {
        Some(check) => {
            let mut inner = Object::new(alloc);
            put_check(alloc, &mut inner, check)?;
            object.put("onWhen", inner.tree())
        }
        None => Ok(()),
    }
}

/// A catch, with its steps.
#[tactic(auto, unfolding(crate::specs::Canonical::catch_json), using(crate::proofs::Objects::trees))]
fn catch_tree(alloc: Global, catch: &Catch, steps: Tree) -> Result<Tree, NoMemory>
    ensures { IfOk result (λ t. json t ≡ spec.catch_json catch.now.names catch.now.when (json steps)) }
{
    let mut object = Object::new(alloc);
    let names = words(alloc, catch.names.items())?;
    object.put("exception", names)?;
    put_when(alloc, &mut object, &catch.when)?;
    object.put("steps", steps)?;
    Ok(object.tree())
}

/// The catches, each with the steps of a group, which goes.
#[tactic(auto, using(crate::proofs::Objects::trees, crate::proofs::Loops::catch_pushed, crate::proofs::Loops::catch_passed))]
fn catch_trees(alloc: Global, catches: &[Catch], groups: &mut Groups) -> Result<Tree, NoMemory>
    ensures trees { IfOk result (λ t. json t ≡ spec.list_of (spec.catches_json (catchings_of catches.now) (trees.left groups.old))) }
    ensures rest { OnOk result (trees.left groups.new ≡ past (catchings_of catches.now) (trees.left groups.old)) }
{
    let mut items = Vec::new(alloc);
    for catch in catches {
        let steps = groups.next_list();
        let tree = catch_tree(alloc, catch, steps)?;
        items.push(tree)?;
    }
    Ok(Tree::List(Series::of(items)))
}

/// The member of the catches, where there are any, each with the steps of a group, which goes.
fn put_catches(
    alloc: Global,
    object: &mut Object,
    catches: &[Catch],
    groups: &mut Groups,
) -> Result<(), NoMemory>
    ensures member { OnOk result (trees.made object.new ≡ trees.made object.old
        ++ spec.catches_pairs (spec.catches_json (catchings_of catches.now) (trees.left groups.old))) }
    ensures rest { OnOk result (trees.left groups.new ≡ past (catchings_of catches.now) (trees.left groups.old)) }
{
    match catches {
        [] => Ok(()),
        [_, ..] => {
            let list = catch_trees(alloc, catches, groups)?;
            object.put("doCatch", list)
        }
    }
}

/// `doTry`.
#[tactic(auto, unfolding(crate::specs::Canonical::try_json), using(crate::proofs::Objects::trees))]
fn try_tree(
    alloc: Global,
    catches: &[Catch],
    has_last: bool,
    groups: Groups,
) -> Result<Tree, NoMemory>
    ensures { IfOk result (λ t. json t ≡ spec.frame_json (tries (catchings_of catches.now) has_last) (trees.left groups)) }
{
    let mut groups = groups;
    let steps = groups.next_list();
    let mut object = Object::new(alloc);
    put_catches(alloc, &mut object, catches, &mut groups)?;
    put_last(alloc, &mut object, "doFinally", has_last, groups)?;
    object.put("steps", steps)?;
    Ok(alone(alloc, "doTry", object.tree())?)
}

/// The name of a repository, where it isn't the block's own.
fn name_given<'a>(
    alloc: Global,
    repository: &'a Text,
    block: u32,
) -> Result<Option<&'a Text>, NoMemory>
    ensures { IfOk result (λ o. option_map (λ t. t.now) o ≡ name_given block repository.now) }
{
    let own = own_repository(alloc, block)?;
    if repository.as_str() == own.as_str() {
        Ok(None)
    } else {
        Ok(Some(repository))
    }
}

fn push_cases(numbers: &mut Vec<u32>, cases: &[(Check, u32)]) -> Result<(), NoMemory>
    ensures { OnOk result (numbers.new.items ≡ numbers.old.items ++ case_numbers cases.now) }
{
    for (_, block) in cases {
        numbers.push(*block)?;
    }
    Ok(())
}

fn push_catches(numbers: &mut Vec<u32>, catches: &[Catch]) -> Result<(), NoMemory>
    ensures { OnOk result (numbers.new.items ≡ numbers.old.items ++ catch_numbers catches.now) }
{
    for catch in catches {
        numbers.push(catch.block)?;
    }
    Ok(())
}

fn push_last(numbers: &mut Vec<u32>, last: Option<u32>) -> Result<(), NoMemory>
    ensures { OnOk result (numbers.new.items ≡ numbers.old.items ++ last_number last) }
{
    match last {
        Some(block) => {
            numbers.push(block)?;
            Ok(())
        }
        None => Ok(()),
    }
}

/// The numbers of a step's blocks, in the order of its groups.
#[tactic(auto, unfolding(eip_route::specs::Nest::step_numbers))]
pub fn block_numbers(alloc: Global, step: &Step) -> Result<Vec<u32>, NoMemory>
    ensures { IfOk result (λ ns. ns.items ≡ step_numbers step.now) }
{
    let mut numbers = Vec::new(alloc);
    match step {
        Step::Choice { cases, otherwise } => {
            push_cases(&mut numbers, cases.items())?;
            push_last(&mut numbers, *otherwise)?;
        }
        Step::Filter { block, .. } | Step::Split { block, .. } | Step::Idempotent { block, .. } => {
            numbers.push(*block)?;
        }
        Step::Multicast { blocks, .. } => numbers.extend_from_slice(blocks.items())?,
        Step::Aggregate(setting) => numbers.push(setting.block)?,
        Step::Try {
            block,
            catches,
            finish,
        } => {
            numbers.push(*block)?;
            push_catches(&mut numbers, catches.items())?;
            push_last(&mut numbers, *finish)?;
        }
        _ => {}
    }
    Ok(numbers)
}

/// The tree of a step whose blocks are printed so.
#[tactic(auto, unfolding(crate::specs::Canonical::step_with))]
pub fn step_tree(alloc: Global, step: &Step, groups: Groups) -> Result<Tree, NoMemory>
    ensures { IfOk result (λ t. json t ≡ spec.step_with step.now (trees.left groups)) }
{
    let mut groups = groups;
    match step {
        Step::SetBody(value) => set_body(alloc, value),
        Step::SetHeader { name, value } => set(alloc, "setHeader", name, value),
        Step::SetProperty { name, value } => set(alloc, "setProperty", name, value),
        Step::RemoveHeader(name) => step_of_text(alloc, "removeHeader", name),
        Step::To(uri) => to(alloc, uri),
        Step::Log { name, message } => log(alloc, name, message),
        Step::Throw { kind, message } => throw(alloc, kind, message),
        Step::Process(name) => step_of_text(alloc, "process", name),
        Step::Recipients {
            list,
            delimiter,
            fan,
        } => recipients(alloc, list, delimiter, fan),
        Step::Choice { cases, otherwise } => {
            choice(alloc, cases.items(), otherwise.is_some(), groups)
        }
        Step::Filter { check, .. } => filter(alloc, check, groups.next_list()),
        Step::Split { how, fan, .. } => any_split(alloc, how, fan, groups.next_list()),
        Step::Multicast { fan, .. } => multicast(alloc, fan, groups.all()?),
        Step::Aggregate(setting) => any_aggregate(alloc, setting, groups),
        Step::Idempotent {
            key,
            repository,
            skip,
            eager,
            remove,
            block,
        } => {
            let once = Once {
                key,
                repository: name_given(alloc, repository, *block)?,
                skip: *skip,
                eager: *eager,
                remove: *remove,
            };
            idempotent(alloc, once, groups.next_list())
        }
        Step::Try {
            catches,
            finish,
            ..
        } => try_tree(alloc, catches.items(), finish.is_some(), groups),
    }
}
