ghost use Rattle.std.specs.Prelude.{◌≡◌, IfOk, option_map, option_copied};
ghost use Rattle.std.specs.List.{list_all};
ghost use Rattle.eip_simple.specs.Views.{seen};
ghost use Rattle.eip_simple.specs.Found.{found_text};
ghost use Rattle.eip_simple.specs.Matching.{is_whole_match};
ghost use Rattle.eip_simple.specs.Holding.{is_truthy, matches_pattern, test_holds, predicate_holds};

use crate::functions::Found;
use crate::operators::op_holds;
use crate::sides::side_value;
use crate::view::View;
use eip_simple_read::{Pattern, Predicate, Side, Test};
use eip_text::{NoMemory, Text, same_name};
use std::alloc::Global;

/// Whether a predicate holds of what the view shows: some conjunction of it has all its tests true. An absent side makes
/// each operator but `==` false, and a negation is true exactly where its operator is false (the page "Simple" of Camel's
/// manual).
#[tactic(auto, unfolding(crate::specs::Holding::predicate_holds))]
pub fn holds(alloc: Global, predicate: &Predicate, view: &View) -> Result<bool, NoMemory>
    ensures { IfOk result (λ b. b ≡ predicate_holds predicate.now (seen view.now)) }
{
    for all in predicate.any.items() {
        if all_hold(alloc, all.items(), view)? {
            return Ok(true);
        }
    }
    Ok(false)
}

/// Whether each test of a conjunction holds.
fn all_hold(alloc: Global, tests: &[Test], view: &View) -> Result<bool, NoMemory>
    ensures { IfOk result (λ b. b ≡ list_all (test_holds (seen view.now)) tests.now) }
{
    for test in tests {
        if !test_holds(alloc, test, view)? {
            return Ok(false);
        }
    }
    Ok(true)
}

fn test_holds(alloc: Global, test: &Test, view: &View) -> Result<bool, NoMemory>
    ensures { IfOk result (λ b. b ≡ test_holds (seen view.now) test.now) }
{
    match test {
        Test::Single(side) => Ok(is_truthy(&side_value(alloc, side, view)?)),
        Test::Compare { left, op, right } => {
            let left = side_value(alloc, left, view)?;
            let right = side_value(alloc, right, view)?;
            op_holds(alloc, *op, text_of(&left), text_of(&right))
        }
        Test::Matches {
            left,
            pattern,
            negated,
        } => {
            let left = side_value(alloc, left, view)?;
            Ok(matches_pattern(alloc, pattern, &left)? != *negated)
        }
    }
}

/// The text of a side that is there.
fn text_of<'a>(side: &'a Option<Found<'_>>) -> Option<&'a str>
    ensures { option_copied result ≡ option_map found_text side.now }
{
    match side {
        Some(found) => Some(found.as_str()),
        None => None,
    }
}

/// Whether a side is there and is not `false` in any ASCII case.
fn is_truthy(side: &Option<Found>) -> bool
    ensures { result ≡ is_truthy (option_map found_text side.now) }
{
    match side {
        Some(found) => !same_name(found.as_str().as_bytes(), b"false"),
        None => false,
    }
}

/// Whether a side is there and matches the pattern as a whole.
fn matches_pattern(alloc: Global, pattern: &Pattern, side: &Option<Found>) -> Result<bool, NoMemory>
    ensures { IfOk result (λ b. b ≡ matches_pattern pattern.now (option_map found_text side.now)) }
{
    match side {
        Some(Found::Lent(text)) => is_whole_match(alloc, pattern, text),
        Some(Found::Made(text)) => is_whole_match(alloc, pattern, text),
        None => Ok(false),
    }
}

/// Whether the pattern matches the whole of the text.
fn is_whole_match(alloc: Global, pattern: &Pattern, text: &Text) -> Result<bool, NoMemory>
    ensures { IfOk result (λ b. b ≡ is_whole_match pattern.now text.now) }
{
    let _bytes = text.bytes();
    pattern.matches(alloc, text)
}
