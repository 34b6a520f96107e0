#![tactic(auto, using(eip_text::proofs::Levels::json_levels))]

ghost use Rattle.std.specs.Prelude.{◌≡◌, IfOk, option_map};
ghost use Rattle.std.specs.Fmt.{signed_decimal};
ghost use Rattle.eip_text.specs.Json.{json, object, members_json};
ghost use Rattle.eip_route_grammar.specs.Objects as spec;

use crate::fault::Cause;
use crate::keys::Key;
use crate::table::Kind;
use eip_text::{NoMemory, Text, Tree};
use itoa::Buffer;
use std::alloc::Global;

/// The value of a key.
pub fn value_at(key: Key, members: &[(Text, Tree)]) -> Option<&Tree>
    ensures { option_map (λ t. json t.now) result ≡ spec.value_at key (members_json members.now) }
{
    for member in members {
        if key.is(member.0.as_str()) {
            return Some(&member.1);
        }
    }
    None
}

/// Whether the key stands there.
pub fn has_key(key: Key, members: &[(Text, Tree)]) -> bool
    ensures { result ≡ spec.has_key key (members_json members.now) }
{
    for member in members {
        if key.is(member.0.as_str()) {
            return true;
        }
    }
    false
}

fn whole_text(alloc: Global, number: i128) -> Result<Text, NoMemory>
    ensures { IfOk result (λ t. t ≡ signed_decimal number) }
{
    let mut digits = Buffer::new();
    Text::of_str(alloc, digits.format(number))
}

/// The text that a parameter stands for.
pub fn parameter_text(alloc: Global, tree: &Tree) -> Result<Text, NoMemory>
    ensures { IfOk result (λ t. t ≡ spec.parameter_text (json tree.now)) }
{
    match tree {
        Tree::Null => Text::of_str(alloc, ""),
        Tree::Flag(flag) => Text::of_str(alloc, if *flag { "true" } else { "false" }),
        Tree::Whole(number) => whole_text(alloc, *number),
        Tree::Float => Text::of_str(alloc, ""),
        Tree::Word(text) => text.copy(),
        Tree::List(_) => Text::of_str(alloc, ""),
        Tree::Object(_) => Text::of_str(alloc, ""),
    }
}

fn parameter_pairs(alloc: Global, members: &[(Text, Tree)]) -> Result<Vec<(Text, Text)>, NoMemory>
    ensures { IfOk result (λ ps. ps.items ≡ spec.parameter_pairs (members_json members.now)) }
{
    let mut pairs = Vec::new(alloc);
    for member in members {
        pairs.push((member.0.copy()?, parameter_text(alloc, &member.1)?))?;
    }
    Ok(pairs)
}

fn pairs_in(alloc: Global, tree: &Tree) -> Result<Vec<(Text, Text)>, NoMemory>
    ensures { IfOk result (λ ps. ps.items ≡ spec.pairs_in (Some (json tree.now))) }
{
    match tree {
        Tree::Null => Ok(Vec::new(alloc)),
        Tree::Flag(_) => Ok(Vec::new(alloc)),
        Tree::Whole(_) => Ok(Vec::new(alloc)),
        Tree::Float => Ok(Vec::new(alloc)),
        Tree::Word(_) => Ok(Vec::new(alloc)),
        Tree::List(_) => Ok(Vec::new(alloc)),
        Tree::Object(members) => parameter_pairs(alloc, members.items()),
    }
}

/// The parameters that stand beside a URI, as names and values.
pub fn parameters_of(alloc: Global, members: &[(Text, Tree)]) -> Result<Vec<(Text, Text)>, NoMemory>
    ensures { IfOk result (λ ps. ps.items ≡ spec.parameters_of (members_json members.now)) }
{
    match value_at(Key::Parameters, members) {
        None => Ok(Vec::new(alloc)),
        Some(tree) => pairs_in(alloc, tree),
    }
}

/// Whether a value is a truth value that holds, or the text of one.
pub fn is_plainly(tree: &Tree) -> bool
    ensures { result ≡ spec.plainly (Some (json tree.now)) }
{
    match tree {
        Tree::Null => false,
        Tree::Flag(flag) => *flag,
        Tree::Whole(_) => false,
        Tree::Float => false,
        Tree::Word(text) => text.as_str() == "true",
        Tree::List(_) => false,
        Tree::Object(_) => false,
    }
}

fn holds_plainly(key: Key, members: &[(Text, Tree)]) -> bool
    ensures { result ≡ spec.plainly (spec.value_at key (members_json members.now)) }
{
    match value_at(key, members) {
        None => false,
        Some(tree) => is_plainly(tree),
    }
}

/// The same, where it may also stand as `expression` in an object.
pub fn is_fixed(tree: &Tree) -> bool
    ensures { result ≡ spec.fixed (Some (json tree.now)) }
{
    match tree {
        Tree::Object(members) => holds_plainly(Key::Expression, members.items()),
        Tree::Null => is_plainly(tree),
        Tree::Flag(_) => is_plainly(tree),
        Tree::Whole(_) => is_plainly(tree),
        Tree::Float => is_plainly(tree),
        Tree::Word(_) => is_plainly(tree),
        Tree::List(_) => is_plainly(tree),
    }
}

fn constant_holds(members: &[(Text, Tree)]) -> bool
    ensures { result ≡ spec.outcome (Some (object (members_json members.now))) }
{
    match value_at(Key::Constant, members) {
        None => false,
        Some(tree) => is_fixed(tree),
    }
}

/// The same, where it may also stand as `constant` in an object.
pub fn is_outcome(tree: &Tree) -> bool
    ensures { result ≡ spec.outcome (Some (json tree.now)) }
{
    match tree {
        Tree::Object(members) => constant_holds(members.items()),
        Tree::Null => is_plainly(tree),
        Tree::Flag(_) => is_plainly(tree),
        Tree::Whole(_) => is_plainly(tree),
        Tree::Float => is_plainly(tree),
        Tree::Word(_) => is_plainly(tree),
        Tree::List(_) => is_plainly(tree),
    }
}

fn has_outcome(key: Key, members: &[(Text, Tree)]) -> bool
    ensures { result ≡ spec.outcome (spec.value_at key (members_json members.now)) }
{
    match value_at(key, members) {
        None => false,
        Some(tree) => is_outcome(tree),
    }
}

fn has_key_in(key: Key, tree: &Tree) -> bool
    ensures { result ≡ spec.has_key_in key (Some (json tree.now)) }
{
    match tree {
        Tree::Object(members) => has_key(key, members.items()),
        Tree::Null => false,
        Tree::Flag(_) => false,
        Tree::Whole(_) => false,
        Tree::Float => false,
        Tree::Word(_) => false,
        Tree::List(_) => false,
    }
}

/// Whether steps stand in a route and in its `from`.
fn has_steps_twice(members: &[(Text, Tree)]) -> bool
    ensures { spec.when result Cause.StepsTwice ≡ spec.whole_object Kind.Route (members_json members.now) }
{
    match value_at(Key::From, members) {
        None => false,
        Some(from) => has_key(Key::Steps, members) && has_key_in(Key::Steps, from),
    }
}

fn completes(members: &[(Text, Tree)]) -> bool
    ensures { result ≡ spec.completes (members_json members.now) }
{
    has_key(Key::CompletionSize, members)
        || has_key(Key::CompletionTimeout, members)
        || has_key(Key::CompletionPredicate, members)
        || holds_plainly(Key::ForceCompletionOnStop, members)
}

fn when(holds: bool, cause: Cause) -> Option<Cause>
    ensures { result ≡ spec.when holds cause }
{
    if holds { Some(cause) } else { None }
}

/// What is wrong with an object as a whole, once its keys and its values are judged.
pub fn whole_object(kind: Kind, members: &[(Text, Tree)]) -> Option<Cause>
    ensures { result ≡ spec.whole_object kind (members_json members.now) }
{
    match kind {
        Kind::Route => when(has_steps_twice(members), Cause::StepsTwice),
        Kind::OnException => when(
            has_outcome(Key::Handled, members) && has_outcome(Key::Continued, members),
            Cause::BothHandledAndContinued,
        ),
        Kind::Aggregate => when(!completes(members), Cause::NoCompletion),
        _ => None,
    }
}
