ghost use Rattle.std.specs.Prelude.{◌≡◌, ◌<◌, length, IfSome, option_map};
ghost use Rattle.eip_simple_read.specs.Reading as spec;

use crate::tree::Op;
use eip_text::cuts::behind;

/// What stands between the sides of a test.
#[derive(Clone, Copy, Debug, PartialEq, Eq)]
pub enum Operator {
    Compares(Op),
    Matches { negated: bool },
}

/// The operator in front that is spelled with no letter, and what stands behind it.
#[tactic(auto, unfolding(crate::specs::Reading::symbol))]
fn symbol(text: &str) -> Option<(Op, &str)>
    ensures reads { option_map (λ x. (x.0, x.1.now)) result ≡ spec.symbol text.now }
    ensures shorter { IfSome result (λ x. length x.1.now < length text.now) }
{
    if let Some(rest) = behind(text, "==") {
        return Some((Op::Equal, rest));
    }
    if let Some(rest) = behind(text, "!=") {
        return Some((Op::NotEqual, rest));
    }
    if let Some(rest) = behind(text, "=~") {
        return Some((Op::EqualFold, rest));
    }
    if let Some(rest) = behind(text, "<=") {
        return Some((Op::AtMost, rest));
    }
    if let Some(rest) = behind(text, "<") {
        return Some((Op::Less, rest));
    }
    if let Some(rest) = behind(text, ">=") {
        return Some((Op::AtLeast, rest));
    }
    if let Some(rest) = behind(text, ">") {
        return Some((Op::Greater, rest));
    }
    let rest = behind(text, "~~")?;
    Some((Op::ContainsFold, rest))
}

/// The operator in front that is a word, and what stands behind it.
#[tactic(auto, unfolding(crate::specs::Reading::named_operator))]
fn named_operator(text: &str) -> Option<(Op, &str)>
    ensures reads { option_map (λ x. (x.0, x.1.now)) result ≡ spec.named_operator text.now }
    ensures shorter { IfSome result (λ x. length x.1.now < length text.now) }
{
    if let Some(rest) = behind(text, "contains") {
        return Some((Op::Contains, rest));
    }
    if let Some(rest) = behind(text, "!contains") {
        return Some((Op::NotContains, rest));
    }
    if let Some(rest) = behind(text, "startsWith").or(behind(text, "starts with")) {
        return Some((Op::StartsWith, rest));
    }
    if let Some(rest) = behind(text, "endsWith").or(behind(text, "ends with")) {
        return Some((Op::EndsWith, rest));
    }
    if let Some(rest) = behind(text, "in") {
        return Some((Op::In, rest));
    }
    if let Some(rest) = behind(text, "!in") {
        return Some((Op::NotIn, rest));
    }
    if let Some(rest) = behind(text, "range") {
        return Some((Op::Range, rest));
    }
    let rest = behind(text, "!range")?;
    Some((Op::NotRange, rest))
}

/// The operator in front, and what stands behind it.
#[tactic(auto, unfolding(crate::specs::Reading::operator_at))]
pub fn operator_at(text: &str) -> Option<(Operator, &str)>
    ensures reads { option_map (λ x. (x.0, x.1.now)) result ≡ spec.operator_at text.now }
    ensures shorter { IfSome result (λ x. length x.1.now < length text.now) }
{
    if let Some((op, rest)) = symbol(text) {
        return Some((Operator::Compares(op), rest));
    }
    if let Some((op, rest)) = named_operator(text) {
        return Some((Operator::Compares(op), rest));
    }
    if let Some(rest) = behind(text, "regex") {
        return Some((Operator::Matches { negated: false }, rest));
    }
    let rest = behind(text, "!regex")?;
    Some((Operator::Matches { negated: true }, rest))
}
