#![tactic(auto, using(eip_text::proofs::Levels::json_levels))]

ghost use Rattle.std.specs.Prelude.{◌≡◌, [], ◌∷◌, None, IfOk, OnOk, option_map, unwrap_or};
ghost use Rattle.eip_text.specs.Json.{json, members_json};
ghost use Rattle.eip_route.specs.Nest.{plain_fan, with_block};
ghost use Rattle.eip_route_grammar.specs.Objects as objects;
ghost use Rattle.eip_route_grammar.specs.Texts.{key_of, key_of_part, strategy_of};
ghost use Rattle.eip_route_values.specs.Leaves as leaves;
ghost use Rattle.eip_route_values.specs.Parts as spec;
ghost use Rattle.eip_route_values.specs.Taken as taken;
ghost use Rattle.eip_route_values.specs.Taken.{Holds, Spends};

use crate::leaves::{
    constant_of, count_at, expression_of, flag_at, members_at, small_count_at, text_at, text_of,
};
use eip_exchange::{How, Key as OrderKey, Strategy};
use eip_route::{Aggregate, Check, Expr, Fan};
use eip_route_grammar::keys::Key;
use eip_route_grammar::known::Known;
use eip_route_grammar::objects::{is_fixed, parameters_of, value_at};
use eip_route_grammar::texts::unhashed;
use eip_simple_read::{Function, Part, Predicate, SimpleFault, Template, read_template};
use eip_text::cuts::behind;
use eip_text::{NoMemory, Series, Text, Tree};
use eip_uri::{Uri, UriFault};
use std::alloc::Global;

fn empty_template(alloc: Global) -> Template
    ensures { result ≡ record { parts = [] } }
{
    Template {
        parts: Series::of(Vec::new(alloc)),
    }
}

/// The template that a text spells.
pub fn template(alloc: Global, text: &str) -> Result<Template, NoMemory>
    ensures { IfOk result (λ t. t ≡ spec.template text.now) }
{
    let text = Text::of_str(alloc, text)?;
    match read_template(alloc, &text) {
        Ok(template) => Ok(template),
        Err(fault) => match fault {
            SimpleFault::NoMemory => Err(NoMemory),
            SimpleFault::BadSimple(_) => Ok(empty_template(alloc)),
            SimpleFault::UnknownFunction(_) => Ok(empty_template(alloc)),
            SimpleFault::BadPattern(_) => Ok(empty_template(alloc)),
            SimpleFault::PatternTooLarge(_) => Ok(empty_template(alloc)),
        },
    }
}

/// The predicate that a text spells, which is known, since it was read before. It is taken out.
fn predicate(known: &mut Known, text: &str) -> Predicate
    requires held { Holds (text.now ∷ []) known.old }
    ensures value { result ≡ spec.predicate text.now }
    ensures left { Spends (text.now ∷ []) known.old known.new }
{
    match known.take(text) {
        None => unreachable!(),
        Some(predicate) => predicate,
    }
}

/// The endpoint of a URI and its parameters.
pub fn endpoint(alloc: Global, text: &str, parameters: &[(Text, Text)]) -> Result<Uri, NoMemory>
    ensures { IfOk result (λ u. u ≡ spec.endpoint text.now parameters.now) }
{
    let text = Text::of_str(alloc, text)?;
    match Uri::read(alloc, &text, parameters) {
        Ok(uri) => Ok(uri),
        Err(fault) => match &fault {
            UriFault::NoMemory => Err(NoMemory),
            UriFault::UnknownScheme => Ok(Uri::StreamIn),
            UriFault::BadUri(_) => Ok(Uri::StreamIn),
            UriFault::UnknownOption(_) => Ok(Uri::StreamIn),
            UriFault::BadOption(_) => Ok(Uri::StreamIn),
            UriFault::DoubleOption(_) => Ok(Uri::StreamIn),
        },
    }
}

/// The endpoint of an object with `uri` and `parameters`.
pub fn endpoint_in(alloc: Global, members: &[(Text, Tree)]) -> Result<Uri, NoMemory>
    ensures { IfOk result (λ u. u ≡ spec.endpoint_in (members_json members.now)) }
{
    let parameters = parameters_of(alloc, members)?;
    endpoint(alloc, text_at(Key::Uri, members), parameters.as_slice())
}

fn plain_expr_in(alloc: Global, members: &[(Text, Tree)]) -> Result<Expr, NoMemory>
    ensures { IfOk result (λ e. e ≡ spec.plain_expr_in (members_json members.now)) }
{
    if let Some(tree) = value_at(Key::Simple, members) {
        return Ok(Expr::Simple(template(alloc, expression_of(tree))?));
    }
    if let Some(tree) = value_at(Key::Constant, members) {
        return Ok(Expr::Constant(constant_of(alloc, tree)?));
    }
    if let Some(tree) = value_at(Key::Header, members) {
        return Ok(Expr::Header(Text::of_str(alloc, text_of(tree))?));
    }
    let name = Text::of_str(alloc, text_at(Key::ExchangeProperty, members))?;
    Ok(Expr::Property(name))
}

/// The expression of an object (Camel manual, *Languages*).
pub fn expr_in(alloc: Global, members: &[(Text, Tree)]) -> Result<Expr, NoMemory>
    ensures { IfOk result (λ e. e ≡ spec.expr_in (members_json members.now)) }
{
    match members_at(Key::Expression, members) {
        None => plain_expr_in(alloc, members),
        Some(inner) => plain_expr_in(alloc, inner),
    }
}

fn expr_at(alloc: Global, key: Key, members: &[(Text, Tree)]) -> Result<Expr, NoMemory>
    ensures { IfOk result (λ e. e
        ≡ spec.expr_of (leaves.members_at key (members_json members.now))) }
{
    match members_at(key, members) {
        None => Ok(Expr::Property(Text::of_str(alloc, "")?)),
        Some(inner) => expr_in(alloc, inner),
    }
}

fn plain_check_in(
    alloc: Global,
    known: &mut Known,
    members: &[(Text, Tree)],
) -> Result<Check, NoMemory>
    requires held { Holds (taken.by_plain_check (members_json members.now)) known.old }
    ensures value { IfOk result (λ c. c ≡ spec.plain_check_in (members_json members.now)) }
    ensures left { OnOk result (Spends (taken.by_plain_check (members_json members.now)) known.old known.new) }
{
    if let Some(tree) = value_at(Key::Simple, members) {
        return Ok(Check::Simple(predicate(known, expression_of(tree))));
    }
    if let Some(tree) = value_at(Key::Constant, members) {
        return Ok(Check::Fixed(is_fixed(tree)));
    }
    let name = Text::of_str(alloc, unhashed(text_at(Key::Ref, members)))?;
    Ok(Check::Stored(name))
}

/// What an object asks of a message (Camel manual, *Predicate*). Its predicate is known, and is taken out.
pub fn check_in(
    alloc: Global,
    known: &mut Known,
    members: &[(Text, Tree)],
) -> Result<Check, NoMemory>
    requires held { Holds (taken.by_check (members_json members.now)) known.old }
    ensures value { IfOk result (λ c. c ≡ spec.check_in (members_json members.now)) }
    ensures left { OnOk result (Spends (taken.by_check (members_json members.now)) known.old known.new) }
{
    match members_at(Key::Expression, members) {
        None => plain_check_in(alloc, known, members),
        Some(inner) => plain_check_in(alloc, known, inner),
    }
}

/// The strategy of a name (Camel manual, *Aggregate EIP*, *AggregationStrategy*).
#[tactic(auto, unfolding(eip_route_grammar::specs::Texts::strategy_of))]
fn strategy(alloc: Global, name: &str) -> Result<Option<Strategy>, NoMemory>
    ensures { IfOk result (λ s. s ≡ strategy_of name.now) }
{
    if name == "original" {
        return Ok(Some(Strategy::Original));
    }
    if name == "latest" {
        return Ok(Some(Strategy::Latest));
    }
    if name == "joined" {
        return Ok(Some(Strategy::Joined(Text::of_str(alloc, ",")?)));
    }
    if name == "grouped" {
        return Ok(Some(Strategy::Grouped));
    }
    if name == "sum" {
        return Ok(Some(Strategy::Sum));
    }
    match behind(name, "joined:") {
        None => Ok(None),
        Some(text) => Ok(Some(Strategy::Joined(Text::of_str(alloc, text)?))),
    }
}

fn strategy_at(alloc: Global, members: &[(Text, Tree)]) -> Result<Option<Strategy>, NoMemory>
    ensures { IfOk result (λ s. s
        ≡ spec.strategy_given (objects.value_at Key.AggregationStrategy (members_json members.now))) }
{
    match value_at(Key::AggregationStrategy, members) {
        None => Ok(None),
        Some(tree) => strategy(alloc, unhashed(text_of(tree))),
    }
}

/// How the parts of an object's fan-out run and become one message.
pub fn fan_in(alloc: Global, members: &[(Text, Tree)]) -> Result<Fan, NoMemory>
    ensures { IfOk result (λ f. f ≡ spec.fan_in (members_json members.now)) }
{
    Ok(Fan {
        strategy: strategy_at(alloc, members)?,
        parallel: flag_at(false, Key::ParallelProcessing, members),
        stop: flag_at(false, Key::StopOnException, members),
        share: flag_at(false, Key::ShareUnitOfWork, members),
    })
}

fn token_of(tree: &Tree) -> &str
    ensures { result.now ≡ spec.token_of (json tree.now) }
{
    match tree {
        Tree::Word(text) => text.as_str(),
        Tree::Object(members) => text_at(Key::Token, members.items()),
        Tree::Null => "",
        Tree::Flag(_) => "",
        Tree::Whole(_) => "",
        Tree::Float => "",
        Tree::List(_) => "",
    }
}

/// How a split cuts the body: by `tokenize`, else into the elements of a JSON array.
pub fn how_in(alloc: Global, members: &[(Text, Tree)]) -> Result<How, NoMemory>
    ensures { IfOk result (λ h. h
        ≡ spec.how_given (objects.value_at Key.Tokenize (members_json members.now))) }
{
    match value_at(Key::Tokenize, members) {
        None => Ok(How::JsonArray),
        Some(tree) => Ok(How::Token(Text::of_str(alloc, token_of(tree))?)),
    }
}

/// What stands between the endpoints of a recipient list.
pub fn delimiter_in(alloc: Global, members: &[(Text, Tree)]) -> Result<Text, NoMemory>
    ensures { IfOk result (λ d. d
        ≡ spec.delimiter_given (objects.value_at Key.Delimiter (members_json members.now))) }
{
    match value_at(Key::Delimiter, members) {
        None => Text::of_str(alloc, ","),
        Some(tree) => Text::of_str(alloc, text_of(tree)),
    }
}

/// The name of the repository that an idempotent consumer gives.
pub fn repository_in(alloc: Global, members: &[(Text, Tree)]) -> Result<Option<Text>, NoMemory>
    ensures { IfOk result (λ r. r
        ≡ spec.repository_given (objects.value_at Key.IdempotentRepository (members_json members.now))) }
{
    match value_at(Key::IdempotentRepository, members) {
        None => Ok(None),
        Some(tree) => Ok(Some(Text::of_str(alloc, unhashed(text_of(tree)))?)),
    }
}

fn completion_given(known: &mut Known, members: &[(Text, Tree)]) -> Option<Predicate>
    requires held { Holds (taken.by_plain_check (members_json members.now)) known.old }
    ensures value { result ≡ spec.completion_given (objects.value_at Key.Simple (members_json members.now)) }
    ensures left { Spends (taken.by_plain_check (members_json members.now)) known.old known.new }
{
    match value_at(Key::Simple, members) {
        None => None,
        Some(tree) => Some(predicate(known, expression_of(tree))),
    }
}

fn completion_in(known: &mut Known, members: &[(Text, Tree)]) -> Option<Predicate>
    requires held { let inner = leaves.members_at Key.CompletionPredicate (members_json members.now) in
        Holds (taken.by_completion inner) known.old }
    ensures value { let inner = leaves.members_at Key.CompletionPredicate (members_json members.now) in
        result ≡ spec.completion_of inner }
    ensures left { let inner = leaves.members_at Key.CompletionPredicate (members_json members.now) in
        Spends (taken.by_completion inner) known.old known.new }
{
    match members_at(Key::CompletionPredicate, members) {
        None => None,
        Some(inner) => completion_given(known, inner),
    }
}

fn group_strategy(alloc: Global, members: &[(Text, Tree)]) -> Result<Strategy, NoMemory>
    ensures { IfOk result (λ s. s ≡ (spec.gathering_in (members_json members.now)).strategy) }
{
    match strategy_at(alloc, members)? {
        None => Ok(Strategy::Latest),
        Some(strategy) => Ok(strategy),
    }
}

/// The setting of an aggregate whose block has this number. Its predicate is known, and is taken out.
pub fn aggregate_in(
    alloc: Global,
    block: u32,
    known: &mut Known,
    members: &[(Text, Tree)],
) -> Result<Aggregate, NoMemory>
    requires held { Holds (taken.by_step Key.Aggregate (members_json members.now)) known.old }
    ensures value { IfOk result (λ a. a ≡ with_block (spec.gathering_in (members_json members.now)) block) }
    ensures left { OnOk result (Spends (taken.by_step Key.Aggregate (members_json members.now)) known.old known.new) }
{
    Ok(Aggregate {
        key: expr_at(alloc, Key::CorrelationExpression, members)?,
        strategy: group_strategy(alloc, members)?,
        predicate: completion_in(known, members),
        size: small_count_at(Key::CompletionSize, members),
        timeout: count_at(Key::CompletionTimeout, members),
        force: flag_at(false, Key::ForceCompletionOnStop, members),
        block,
    })
}

/// The part of a message that a template is, or the body where it is none.
fn order_key_of(template: &Template) -> Result<OrderKey, NoMemory>
    ensures { IfOk result (λ k. k ≡ unwrap_or (key_of template.now) OrderKey.Body) }
{
    match template.parts.items() {
        [part] => order_key_of_part(part),
        [] | [_, _, ..] => Ok(OrderKey::Body),
    }
}

fn order_key_of_part(part: &Part) -> Result<OrderKey, NoMemory>
    ensures { IfOk result (λ k. k ≡ unwrap_or (key_of_part part.now) OrderKey.Body) }
{
    match part {
        Part::Plain(_) => Ok(OrderKey::Body),
        Part::Call(function) => match function {
            Function::Header(name) => Ok(OrderKey::Header(name.copy()?)),
            Function::Property(name) => Ok(OrderKey::Property(name.copy()?)),
            Function::Body
            | Function::ExchangeId
            | Function::RouteId
            | Function::ExceptionMessage => Ok(OrderKey::Body),
        },
    }
}

fn named_order_key(alloc: Global, members: &[(Text, Tree)]) -> Result<OrderKey, NoMemory>
    ensures { let ms = members_json members.now in
        let header = objects.value_at Key.Header ms in
        let property = objects.value_at Key.ExchangeProperty ms in
        IfOk result (λ k. k ≡ spec.order_key_given None header property) }
{
    match value_at(Key::Header, members) {
        Some(tree) => Ok(OrderKey::Header(Text::of_str(alloc, text_of(tree))?)),
        None => Ok(OrderKey::Property(Text::of_str(
            alloc,
            text_at(Key::ExchangeProperty, members),
        )?)),
    }
}

/// What a resequencer puts its messages in order by.
pub fn order_key_in(alloc: Global, members: &[(Text, Tree)]) -> Result<OrderKey, NoMemory>
    ensures { IfOk result (λ k. k ≡ spec.order_key_in (members_json members.now)) }
{
    match value_at(Key::Simple, members) {
        Some(tree) => order_key_of(&template(alloc, expression_of(tree))?),
        None => named_order_key(alloc, members),
    }
}

fn batch_size(config: Option<&[(Text, Tree)]>) -> u32
    ensures { result ≡ spec.batch_size (option_map (λ ms. members_json ms.now) config.entry) }
{
    match config {
        None => 100,
        Some(members) => small_count_at(Key::BatchSize, members).unwrap_or(100),
    }
}

fn batch_timeout(config: Option<&[(Text, Tree)]>) -> u64
    ensures { result ≡ spec.batch_timeout (option_map (λ ms. members_json ms.now) config.entry) }
{
    match config {
        None => 1000,
        Some(members) => count_at(Key::BatchTimeout, members).unwrap_or(1000),
    }
}

/// The aggregator that gathers the batches of a resequencer, whose block has this number.
pub fn batching_in(
    alloc: Global,
    block: u32,
    members: &[(Text, Tree)],
) -> Result<Aggregate, NoMemory>
    ensures { IfOk result (λ a. a ≡ with_block (spec.batching_in (members_json members.now)) block) }
{
    let config = members_at(Key::BatchConfig, members);
    Ok(Aggregate {
        key: Expr::Constant(Text::of_str(alloc, "batch")?),
        strategy: Strategy::Batch,
        predicate: None,
        size: Some(batch_size(config)),
        timeout: Some(batch_timeout(config)),
        force: true,
        block,
    })
}

/// How the parts of a batch run: one behind the other.
pub fn plain_fan() -> Fan
    ensures { result ≡ plain_fan }
{
    Fan {
        strategy: None,
        parallel: false,
        stop: false,
        share: false,
    }
}
