#![tactic(auto, using(eip_text::proofs::Levels::json_levels))]

ghost use Rattle.std.specs.Prelude.{◌≡◌, ◌^◌, [], ◌∷◌, IfOk, Some, option_map};
ghost use Rattle.eip_text.specs.Json.{json, items_json, members_json};
ghost use Rattle.eip_text.specs.Numbers.{whole_of};
ghost use Rattle.eip_route_grammar.specs.Objects as objects;
ghost use Rattle.eip_route_values.specs.Leaves as spec;

use eip_exchange::Policy;
use eip_route_grammar::keys::Key;
use eip_route_grammar::objects::{is_outcome, is_plainly, parameter_text, value_at};
use eip_route_grammar::texts::whole;
use eip_text::{NoMemory, Text, Tree};
use std::alloc::Global;

/// The value of a key of an object.
pub fn value_in(key: Key, tree: &Tree) -> Option<&Tree>
    ensures { option_map (λ t. json t.now) result ≡ spec.value_in key (json tree.now) }
{
    match tree {
        Tree::Object(members) => value_at(key, members.items()),
        Tree::Null => None,
        Tree::Flag(_) => None,
        Tree::Whole(_) => None,
        Tree::Float => None,
        Tree::Word(_) => None,
        Tree::List(_) => None,
    }
}

fn members_of(tree: &Tree) -> Option<&[(Text, Tree)]>
    ensures { option_map (λ ms. members_json ms.now) result ≡ spec.members_of (json tree.now) }
{
    match tree {
        Tree::Object(members) => Some(members.items()),
        Tree::Null => None,
        Tree::Flag(_) => None,
        Tree::Whole(_) => None,
        Tree::Float => None,
        Tree::Word(_) => None,
        Tree::List(_) => None,
    }
}

/// The members of the object that a key has as its value.
pub fn members_at(key: Key, members: &[(Text, Tree)]) -> Option<&[(Text, Tree)]>
    ensures { option_map (λ ms. members_json ms.now) result
        ≡ spec.members_at key (members_json members.now) }
{
    match value_at(key, members) {
        None => None,
        Some(tree) => members_of(tree),
    }
}

/// The same of an object.
pub fn members_in(key: Key, tree: &Tree) -> Option<&[(Text, Tree)]>
    ensures { option_map (λ ms. members_json ms.now) result ≡ spec.members_in key (json tree.now) }
{
    match value_in(key, tree) {
        None => None,
        Some(inner) => members_of(inner),
    }
}

/// The text that a value is.
pub fn text_of(tree: &Tree) -> &str
    ensures { result.now ≡ spec.text_of (json tree.now) }
{
    match tree {
        Tree::Word(text) => text.as_str(),
        Tree::Null => "",
        Tree::Flag(_) => "",
        Tree::Whole(_) => "",
        Tree::Float => "",
        Tree::List(_) => "",
        Tree::Object(_) => "",
    }
}

/// The text of a key, or the empty one where it is absent.
pub fn text_at(key: Key, members: &[(Text, Tree)]) -> &str
    ensures { result.now ≡ spec.text_at key (members_json members.now) }
{
    match value_at(key, members) {
        None => "",
        Some(tree) => text_of(tree),
    }
}

/// A text, or an object that has it as its `expression`.
pub fn expression_of(tree: &Tree) -> &str
    ensures { result.now ≡ spec.expression_of (json tree.now) }
{
    match tree {
        Tree::Word(text) => text.as_str(),
        Tree::Object(members) => text_at(Key::Expression, members.items()),
        Tree::Null => "",
        Tree::Flag(_) => "",
        Tree::Whole(_) => "",
        Tree::Float => "",
        Tree::List(_) => "",
    }
}

fn scalar_at(alloc: Global, key: Key, members: &[(Text, Tree)]) -> Result<Text, NoMemory>
    ensures { IfOk result (λ t. t ≡ spec.scalar_given (objects.value_at key (members_json members.now))) }
{
    match value_at(key, members) {
        None => Text::of_str(alloc, ""),
        Some(tree) => parameter_text(alloc, tree),
    }
}

/// The text for which a constant stands, which may be in an object as its `expression`.
pub fn constant_of(alloc: Global, tree: &Tree) -> Result<Text, NoMemory>
    ensures { IfOk result (λ t. t ≡ spec.constant_of (json tree.now)) }
{
    match tree {
        Tree::Object(members) => scalar_at(alloc, Key::Expression, members.items()),
        Tree::Null => parameter_text(alloc, tree),
        Tree::Flag(_) => parameter_text(alloc, tree),
        Tree::Whole(_) => parameter_text(alloc, tree),
        Tree::Float => parameter_text(alloc, tree),
        Tree::Word(_) => parameter_text(alloc, tree),
        Tree::List(_) => parameter_text(alloc, tree),
    }
}

fn texts_of(alloc: Global, items: &[Tree]) -> Result<Vec<Text>, NoMemory>
    ensures { IfOk result (λ v. v.items ≡ spec.texts_of (items_json items.now)) }
{
    let mut texts = Vec::new(alloc);
    for item in items {
        texts.push(Text::of_str(alloc, text_of(item))?)?;
    }
    Ok(texts)
}

fn one_text(alloc: Global, tree: &Tree) -> Result<Vec<Text>, NoMemory>
    ensures { IfOk result (λ v. v.items ≡ spec.text_of (json tree.now) ∷ []) }
{
    let mut texts = Vec::new(alloc);
    texts.push(Text::of_str(alloc, text_of(tree))?)?;
    Ok(texts)
}

fn exceptions_of(alloc: Global, tree: &Tree) -> Result<Vec<Text>, NoMemory>
    ensures { IfOk result (λ v. v.items ≡ spec.exceptions_of (json tree.now)) }
{
    match tree {
        Tree::List(items) => texts_of(alloc, items.items()),
        Tree::Null => one_text(alloc, tree),
        Tree::Flag(_) => one_text(alloc, tree),
        Tree::Whole(_) => one_text(alloc, tree),
        Tree::Float => one_text(alloc, tree),
        Tree::Word(_) => one_text(alloc, tree),
        Tree::Object(_) => one_text(alloc, tree),
    }
}

/// The names of exceptions that a clause gives, as a text or a list.
pub fn exceptions_at(alloc: Global, members: &[(Text, Tree)]) -> Result<Vec<Text>, NoMemory>
    ensures { IfOk result (λ v. v.items
        ≡ spec.exceptions_given (objects.value_at Key.Exception (members_json members.now))) }
{
    match value_at(Key::Exception, members) {
        None => Ok(Vec::new(alloc)),
        Some(tree) => exceptions_of(alloc, tree),
    }
}

/// The truth value of a key, or the default one where it is absent.
pub fn flag_at(default: bool, key: Key, members: &[(Text, Tree)]) -> bool
    ensures { result ≡ spec.flag_at default key (members_json members.now) }
{
    match value_at(key, members) {
        None => default,
        Some(tree) => is_plainly(tree),
    }
}

/// A truth value, or an object that has it as its `constant`; false where the key is absent.
pub fn outcome_at(key: Key, members: &[(Text, Tree)]) -> bool
    ensures { result ≡ objects.outcome (objects.value_at key (members_json members.now)) }
{
    match value_at(key, members) {
        None => false,
        Some(tree) => is_outcome(tree),
    }
}

fn natural(number: i128) -> u64
    ensures { result ≡ spec.natural (2 ^ 64) number }
{
    match u64::try_from(number) {
        Ok(natural) => natural,
        Err(_) => 0,
    }
}

fn small_natural(number: i128) -> u32
    ensures { result ≡ spec.natural (2 ^ 32) number }
{
    match u32::try_from(number) {
        Ok(natural) => natural,
        Err(_) => 0,
    }
}

fn spelled_natural(text: &str) -> u64
    ensures { result ≡ spec.natural_given (2 ^ 64) (whole_of text.now) }
{
    match whole(text) {
        None => 0,
        Some(number) => natural(i128::from(number)),
    }
}

fn spelled_small_natural(text: &str) -> u32
    ensures { result ≡ spec.natural_given (2 ^ 32) (whole_of text.now) }
{
    match whole(text) {
        None => 0,
        Some(number) => small_natural(i128::from(number)),
    }
}

fn count_of(tree: &Tree) -> u64
    ensures { result ≡ spec.count_of (2 ^ 64) (json tree.now) }
{
    match tree {
        Tree::Whole(number) => natural(*number),
        Tree::Word(text) => spelled_natural(text.as_str()),
        Tree::Null => 0,
        Tree::Flag(_) => 0,
        Tree::Float => 0,
        Tree::List(_) => 0,
        Tree::Object(_) => 0,
    }
}

fn small_count_of(tree: &Tree) -> u32
    ensures { result ≡ spec.count_of (2 ^ 32) (json tree.now) }
{
    match tree {
        Tree::Whole(number) => small_natural(*number),
        Tree::Word(text) => spelled_small_natural(text.as_str()),
        Tree::Null => 0,
        Tree::Flag(_) => 0,
        Tree::Float => 0,
        Tree::List(_) => 0,
        Tree::Object(_) => 0,
    }
}

/// The number of a key, of 64 bits.
pub fn count_at(key: Key, members: &[(Text, Tree)]) -> Option<u64>
    ensures { result ≡ spec.count_at key (members_json members.now) }
{
    match value_at(key, members) {
        None => None,
        Some(tree) => Some(count_of(tree)),
    }
}

/// The number of a key, of 32 bits.
pub fn small_count_at(key: Key, members: &[(Text, Tree)]) -> Option<u32>
    ensures { result ≡ spec.small_count_at key (members_json members.now) }
{
    match value_at(key, members) {
        None => None,
        Some(tree) => Some(small_count_of(tree)),
    }
}

fn given_flag(key: Key, members: &[(Text, Tree)]) -> Option<bool>
    ensures { result ≡ option_map (λ t. objects.plainly (Some t)) (objects.value_at key (members_json members.now)) }
{
    match value_at(key, members) {
        None => None,
        Some(tree) => Some(is_plainly(tree)),
    }
}

/// A policy that gives nothing.
pub fn no_policy() -> Policy
    ensures { result ≡ spec.no_policy }
{
    Policy {
        maximum: None,
        delay: None,
        multiplier: None,
        backing_off: None,
        greatest: None,
    }
}

fn policy_in(members: &[(Text, Tree)]) -> Policy
    ensures { result ≡ spec.policy_in (members_json members.now) }
{
    Policy {
        maximum: small_count_at(Key::MaximumRedeliveries, members),
        delay: count_at(Key::RedeliveryDelay, members),
        multiplier: count_at(Key::BackOffMultiplier, members),
        backing_off: given_flag(Key::UseExponentialBackOff, members),
        greatest: count_at(Key::MaximumRedeliveryDelay, members),
    }
}

/// The policy of redelivery that an object gives, or the one that gives nothing.
pub fn policy_at(members: &[(Text, Tree)]) -> Policy
    ensures { result ≡ spec.policy_at (members_json members.now) }
{
    match members_at(Key::RedeliveryPolicy, members) {
        None => no_policy(),
        Some(inner) => policy_in(inner),
    }
}
