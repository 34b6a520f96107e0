ghost use Rattle.std.specs.Prelude.{◌≡◌, ◌↔◌, List, ℕ, IsTrue, Some, None, map, option_map, option_copied, IfOk, option_and_then};
ghost use Rattle.memchr.specs.Find.{OccursAt};
ghost use Rattle.eip_text.specs.Names.{folded};
ghost use Rattle.eip_text.specs.Numbers.{whole_of};
ghost use Rattle.eip_simple.specs.Operators as spec;

use crate::orders::{number, order};
use eip_simple_read::Op;
use eip_text::cuts::{behind, cut};
use eip_text::{NoMemory, same_name};
use memchr::memmem;
use std::alloc::Global;

/// Whether two sides stand as the operator says, each `None` where it is absent.
pub fn op_holds(
    alloc: Global,
    op: Op,
    left: Option<&str>,
    right: Option<&str>,
) -> Result<bool, NoMemory>
    ensures { IfOk result (λ b. b ≡ spec.op_holds op (option_copied left.entry) (option_copied right.entry)) }
{
    match (left, right) {
        (Some(left), Some(right)) => of_texts(alloc, op, left, right),
        (None, None) => Ok(of_absent(op)),
        _ => Ok(of_one(op)),
    }
}

/// The same of two absent sides.
fn of_absent(op: Op) -> bool
    ensures { result ≡ spec.op_holds op None None }
{
    matches!(op, Op::Equal | Op::NotContains | Op::NotIn | Op::NotRange)
}

/// The same of sides of which one is absent and one is not.
fn of_one(op: Op) -> bool
    ensures left { (a : List ℕ) → result ≡ spec.op_holds op (Some a) None }
    ensures right { (b : List ℕ) → result ≡ spec.op_holds op None (Some b) }
{
    matches!(
        op,
        Op::NotEqual | Op::NotContains | Op::NotIn | Op::NotRange
    )
}

/// The same of two texts.
fn of_texts(alloc: Global, op: Op, left: &str, right: &str) -> Result<bool, NoMemory>
    ensures { IfOk result (λ b. b ≡ spec.op_holds op (Some left.now) (Some right.now)) }
{
    match op {
        Op::Equal => Ok(order(left, right).is_eq()),
        Op::NotEqual => Ok(!order(left, right).is_eq()),
        Op::EqualFold => Ok(same_name(left.as_bytes(), right.as_bytes())),
        Op::Less => Ok(order(left, right).is_lt()),
        Op::AtMost => Ok(order(left, right).is_le()),
        Op::Greater => Ok(order(left, right).is_gt()),
        Op::AtLeast => Ok(order(left, right).is_ge()),
        Op::Contains => Ok(contains(left.as_bytes(), right.as_bytes())),
        Op::NotContains => Ok(!contains(left.as_bytes(), right.as_bytes())),
        Op::ContainsFold => contains_folded(alloc, left, right),
        Op::StartsWith => Ok(left.as_bytes().starts_with(right.as_bytes())),
        Op::EndsWith => Ok(left.as_bytes().ends_with(right.as_bytes())),
        Op::In => Ok(is_among(left, right)),
        Op::NotIn => Ok(!is_among(left, right)),
        Op::Range => Ok(is_within(left, right)),
        Op::NotRange => Ok(!is_within(left, right)),
    }
}

/// Whether the second text occurs in the first.
fn contains(text: &[u8], needle: &[u8]) -> bool
    ensures value { result ≡ spec.occurs text.now needle.now }
    ensures place { IsTrue result ↔ ((k : ℕ) × OccursAt text.now needle.now k) }
{
    memmem::find(text, needle).is_some()
}

/// The same up to ASCII case.
fn contains_folded(alloc: Global, text: &str, needle: &str) -> Result<bool, NoMemory>
    ensures { IfOk result (λ b. b ≡ spec.occurs (folded text.now) (folded needle.now)) }
{
    let text = lowered(alloc, text)?;
    let needle = lowered(alloc, needle)?;
    Ok(contains(&text, &needle))
}

/// The bytes of a text with its ASCII letters in lower case.
fn lowered(alloc: Global, text: &str) -> Result<Vec<u8>, NoMemory>
    ensures { IfOk result (λ v. v.items ≡ folded text.now) }
{
    let bytes = text.as_bytes().iter();
    Ok(bytes.map(|byte| byte.to_ascii_lowercase()).collect(alloc)?)
}

/// Whether the first text is one of the second one's pieces between commas.
#[tactic(auto, unfolding(crate::specs::Operators::is_among))]
fn is_among(text: &str, list: &str) -> bool
    ensures { result ≡ spec.is_among text.now list.now }
{
    let mut rest = list;
    while let Some((piece, more)) = cut(rest, ',') {
        if order(text, piece).is_eq() {
            return true;
        }
        rest = more;
    }
    order(text, rest).is_eq()
}

/// The texts before and behind the `..` of a range.
fn bounds(range: &str) -> Option<(&str, &str)>
    ensures { option_map (λ x. (x.0.now, x.1.now)) result ≡ spec.bounds range.now }
{
    let (low, rest) = cut(range, '.')?;
    let high = behind(rest, ".")?;
    Some((low, high))
}

/// Whether the second text is `LOW..HIGH`, and the first lies between these whole numbers, both included.
#[tactic(auto, unfolding(crate::specs::Operators::is_within))]
fn is_within(text: &str, range: &str) -> bool
    ensures value { result ≡ spec.is_within text.now range.now }
    ensures range { IsTrue result ↔ spec.IsInRange text.now range.now }
{
    bounds(range).is_some_and(|(low, high)| is_between(text, low, high))
}

/// Whether the first of three texts is a whole number from the second one up to the third, both included.
fn is_between(text: &str, low: &str, high: &str) -> bool
    ensures { result ≡ spec.is_between (whole_of text.now) (whole_of low.now) (whole_of high.now) }
{
    match (number(text), number(low), number(high)) {
        (Some(number), Some(low), Some(high)) => low <= number && number <= high,
        _ => false,
    }
}
