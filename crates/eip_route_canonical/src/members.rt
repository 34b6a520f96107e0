#![tactic(auto, using(crate::proofs::Objects::trees))]

ghost use Rattle.std.specs.Prelude.{◌≡◌, ◌++◌, IfOk, OnOk};
ghost use Rattle.eip_text.specs.Json.{json};
ghost use Rattle.eip_route.specs.Nest.{without_block};
ghost use Rattle.eip_route_canonical.specs.Canonical as spec;
ghost use Rattle.eip_route_canonical.specs.Trees as trees;

use crate::object::{Object, alone, word};
use eip_exchange::{How, Key, Policy, Strategy};
use eip_route::{Aggregate, Check, Expr, Fan};
use eip_simple_read::{Predicate, print_predicate, print_template};
use eip_text::{NoMemory, Series, Text, Tree};
use std::alloc::Global;

/// The member of a constant.
pub fn put_constant(object: &mut Object, expr: &Expr) -> Result<(), NoMemory>
    ensures { OnOk result (trees.made object.new ≡ trees.made object.old ++ spec.constant_pairs expr.now) }
{
    match expr {
        Expr::Constant(text) => object.put_word("constant", text),
        Expr::Simple(_) | Expr::Header(_) | Expr::Property(_) => Ok(()),
    }
}

/// The member of a header or a property.
pub fn put_named(object: &mut Object, expr: &Expr) -> Result<(), NoMemory>
    ensures { OnOk result (trees.made object.new ≡ trees.made object.old ++ spec.named_pairs expr.now) }
{
    match expr {
        Expr::Header(name) => object.put_word("header", name),
        Expr::Property(name) => object.put_word("exchangeProperty", name),
        Expr::Simple(_) | Expr::Constant(_) => Ok(()),
    }
}

/// The member of a template.
pub fn put_simple(alloc: Global, object: &mut Object, expr: &Expr) -> Result<(), NoMemory>
    ensures { OnOk result (trees.made object.new ≡ trees.made object.old ++ spec.simple_pairs expr.now) }
{
    match expr {
        Expr::Simple(template) => object.put_text("simple", print_template(alloc, template)?),
        Expr::Constant(_) | Expr::Header(_) | Expr::Property(_) => Ok(()),
    }
}

/// An expression as an object of its own.
pub fn expr_tree(alloc: Global, expr: &Expr) -> Result<Tree, NoMemory>
    ensures { IfOk result (λ t. json t ≡ spec.object_of (spec.expr_pairs expr.now)) }
{
    let mut object = Object::new(alloc);
    put_constant(&mut object, expr)?;
    put_named(&mut object, expr)?;
    put_simple(alloc, &mut object, expr)?;
    Ok(object.tree())
}

/// The member of a check.
pub fn put_check(alloc: Global, object: &mut Object, check: &Check) -> Result<(), NoMemory>
    ensures { OnOk result (trees.made object.new ≡ trees.made object.old ++ spec.check_pairs check.now) }
{
    match check {
        Check::Simple(predicate) => object.put_text("simple", print_predicate(alloc, predicate)?),
        Check::Fixed(holds) => object.put_flag("constant", *holds),
        Check::Stored(name) => object.put_word("ref", name),
    }
}

/// The strategy, as `joined:;`.
#[tactic(auto, unfolding(crate::specs::Canonical::strategy_text))]
fn strategy_text(alloc: Global, strategy: &Strategy) -> Result<Text, NoMemory>
    ensures { IfOk result (λ t. t ≡ spec.strategy_text strategy.now) }
{
    match strategy {
        Strategy::Original => Text::of_str(alloc, "original"),
        Strategy::Latest => Text::of_str(alloc, "latest"),
        Strategy::Joined(between) => joined_text(alloc, between),
        Strategy::Grouped => Text::of_str(alloc, "grouped"),
        Strategy::Sum => Text::of_str(alloc, "sum"),
        Strategy::Batch => Text::of_str(alloc, "batch"),
    }
}

#[tactic(auto, unfolding(crate::specs::Canonical::is_comma))]
fn is_comma(text: &Text) -> bool
    ensures { result ≡ spec.is_comma text.now }
{
    text.as_str() == ","
}

fn joined_text(alloc: Global, between: &Text) -> Result<Text, NoMemory>
    ensures { IfOk result (λ t. t ≡ spec.joined_text between.now) }
{
    if is_comma(between) {
        return Text::of_str(alloc, "joined");
    }
    let mut text = String::from_str(alloc, "joined:")?;
    text.push_str(between.as_str())?;
    Ok(Text::of(text))
}

fn put_this_strategy(
    alloc: Global,
    object: &mut Object,
    strategy: &Strategy,
) -> Result<(), NoMemory>
    ensures { OnOk result (trees.made object.new ≡ trees.made object.old ++ spec.this_strategy strategy.now) }
{
    let text = strategy_text(alloc, strategy)?;
    object.put_text("aggregationStrategy", text)?;
    Ok(())
}

/// The strategy of a fan-out, where it has one.
pub fn put_strategy(alloc: Global, object: &mut Object, fan: &Fan) -> Result<(), NoMemory>
    ensures { OnOk result (trees.made object.new ≡ trees.made object.old ++ spec.strategy_pairs fan.now.strategy) }
{
    match &fan.strategy {
        Some(strategy) => put_this_strategy(alloc, object, strategy),
        None => Ok(()),
    }
}

/// The strategy of an aggregator, where it isn't the latest message.
pub fn put_group_strategy(
    alloc: Global,
    object: &mut Object,
    strategy: &Strategy,
) -> Result<(), NoMemory>
    ensures { OnOk result (trees.made object.new ≡ trees.made object.old ++ spec.group_pairs strategy.now) }
{
    match strategy {
        Strategy::Latest => Ok(()),
        Strategy::Original
        | Strategy::Joined(_)
        | Strategy::Grouped
        | Strategy::Sum
        | Strategy::Batch => put_this_strategy(alloc, object, strategy),
    }
}

/// The predicate of a completion, where there is one.
pub fn put_predicate(
    alloc: Global,
    object: &mut Object,
    predicate: &Option<Predicate>,
) -> Result<(), NoMemory>
    ensures { OnOk result (trees.made object.new ≡ trees.made object.old ++ spec.predicate_pairs predicate.now) }
{
    match predicate {
        Some(predicate) => {
            let text = Tree::Word(print_predicate(alloc, predicate)?);
            object.put("completionPredicate", alone(alloc, "simple", text)?)
        }
        None => Ok(()),
    }
}

/// The delimiter of a list, where it isn't a comma.
pub fn put_delimiter(object: &mut Object, delimiter: &Text) -> Result<(), NoMemory>
    ensures { OnOk result (trees.made object.new ≡ trees.made object.old ++ spec.delimiter_pairs delimiter.now) }
{
    if is_comma(delimiter) {
        return Ok(());
    }
    object.put_word("delimiter", delimiter)?;
    Ok(())
}

/// The member of a body that is cut as a JSON array.
pub fn put_json_path(alloc: Global, object: &mut Object, how: &How) -> Result<(), NoMemory>
    ensures { OnOk result (trees.made object.new ≡ trees.made object.old ++ spec.json_path how.now) }
{
    match how {
        How::JsonArray => object.put_text("jsonpath", Text::of_str(alloc, "$[*]")?),
        How::Token(_) | How::Batch(_) => Ok(()),
    }
}

/// The member of a body that is cut at a token.
pub fn put_token(object: &mut Object, how: &How) -> Result<(), NoMemory>
    ensures { OnOk result (trees.made object.new ≡ trees.made object.old ++ spec.token_pairs how.now) }
{
    match how {
        How::Token(token) => object.put_word("tokenize", token),
        How::JsonArray | How::Batch(_) => Ok(()),
    }
}

fn wide(number: Option<u32>) -> Option<u64>
    ensures { result ≡ number }
{
    match number {
        Some(number) => Some(u64::from(number)),
        None => None,
    }
}

/// A count where it is given.
pub fn put_count(object: &mut Object, key: &str, count: Option<u32>) -> Result<(), NoMemory>
    ensures { OnOk result (trees.made object.new ≡ trees.made object.old ++ spec.given_number key.now count) }
{
    object.put_given(key, wide(count))
}

fn put_backing_off(object: &mut Object, backing_off: Option<bool>) -> Result<(), NoMemory>
    ensures { OnOk result (trees.made object.new ≡ trees.made object.old ++ spec.backing_pairs backing_off) }
{
    match backing_off {
        Some(set) => object.put_flag("useExponentialBackOff", set),
        None => Ok(()),
    }
}

#[tactic(auto, unfolding(crate::specs::Canonical::policy_pairs))]
fn policy_object(alloc: Global, policy: &Policy) -> Result<Object, NoMemory>
    ensures { IfOk result (λ o. trees.made o ≡ spec.policy_pairs policy.now) }
{
    let mut object = Object::new(alloc);
    object.put_given("backOffMultiplier", policy.multiplier)?;
    put_count(&mut object, "maximumRedeliveries", policy.maximum)?;
    object.put_given("maximumRedeliveryDelay", policy.greatest)?;
    object.put_given("redeliveryDelay", policy.delay)?;
    put_backing_off(&mut object, policy.backing_off)?;
    Ok(object)
}

/// The policy, where it gives an attribute.
pub fn put_policy(alloc: Global, object: &mut Object, policy: &Policy) -> Result<(), NoMemory>
    ensures { OnOk result (trees.made object.new ≡ trees.made object.old ++ spec.policy_in policy.now) }
{
    object.put_any("redeliveryPolicy", policy_object(alloc, policy)?)
}

/// The list of these texts.
pub fn words(alloc: Global, texts: &[Text]) -> Result<Tree, NoMemory>
    ensures { IfOk result (λ t. json t ≡ spec.list_of (spec.words texts.now)) }
{
    let mut items = Vec::new(alloc);
    for text in texts {
        let tree = word(text)?;
        items.push(tree)?;
    }
    Ok(Tree::List(Series::of(items)))
}

/// What a resequencer puts its messages in order by.
pub fn put_order(alloc: Global, object: &mut Object, key: &Key) -> Result<(), NoMemory>
    ensures { OnOk result (trees.made object.new ≡ trees.made object.old ++ spec.order_pairs key.now) }
{
    match key {
        Key::Body => object.put_text("simple", Text::of_str(alloc, "${body}")?),
        Key::Header(name) => object.put_word("header", name),
        Key::Property(name) => object.put_word("exchangeProperty", name),
    }
}

/// A number, where it isn't the default.
fn put_other(
    object: &mut Object,
    key: &str,
    default: u64,
    number: Option<u64>,
) -> Result<(), NoMemory>
    ensures { OnOk result (trees.made object.new ≡ trees.made object.old ++ spec.where_other key.now default number) }
{
    match number {
        Some(number) => {
            if number == default {
                Ok(())
            } else {
                object.put_number(key, number)
            }
        }
        None => Ok(()),
    }
}

#[tactic(auto, unfolding(crate::specs::Canonical::batch_pairs))]
fn batch_config(alloc: Global, setting: &Aggregate) -> Result<Object, NoMemory>
    ensures { IfOk result (λ o. trees.made o ≡ spec.batch_pairs (without_block setting.now)) }
{
    let mut object = Object::new(alloc);
    put_other(&mut object, "batchSize", 100, wide(setting.size))?;
    put_other(&mut object, "batchTimeout", 1000, setting.timeout)?;
    Ok(object)
}

/// The size and the timeout of a batch, where one isn't the default.
pub fn put_batch_config(
    alloc: Global,
    object: &mut Object,
    setting: &Aggregate,
) -> Result<(), NoMemory>
    ensures { OnOk result (trees.made object.new ≡ trees.made object.old ++ spec.config_pairs (without_block setting.now)) }
{
    object.put_any("batchConfig", batch_config(alloc, setting)?)
}
