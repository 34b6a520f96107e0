ghost use Rattle.std.specs.Prelude.{◌≡◌, ◌<◌, ◌≤◌, ℕ, length, IfOk, false};
ghost use Rattle.eip_text.specs.Causes.{Rises};
ghost use Rattle.eip_simple_read.specs.Reading as spec;
ghost use Rattle.eip_simple_read.specs.Reading.{GivesAt, StopsWithin, stop_failures};
ghost use Rattle.eip_simple_read.specs.Patterns.{IsGoodPattern};
ghost use Rattle.eip_simple_read.specs.Reading.{HasGoodPattern};
ghost use Rattle.eip_simple_read.specs.Builds.{AsksAt, operated_patterns, test_patterns};
ghost use Rattle.eip_simple_read.specs.declared.operators.Operator.TheVariants.{Matches};

use crate::fault::Stop;
use crate::joints::{gap, spaced};
use crate::operators::{Operator, operator_at};
use crate::pattern::{Pattern, PatternFault, Patterns};
use crate::sides::side_at;
use crate::tree::{Part, Side, Test};
use eip_text::cuts::behind;
use eip_text::{NoMemory, Text};
use std::alloc::Global;

/// The plain text that the parts are, where they have no function.
fn plain_text(alloc: Global, parts: &[Part]) -> Result<Option<Text>, NoMemory>
    ensures { IfOk result (λ o. o ≡ spec.plain_text parts.now) }
{
    let Some((first, others)) = parts.split_first() else {
        return Ok(Some(Text::of_str(alloc, "")?));
    };
    match first {
        Part::Plain(text) if others.is_empty() => Ok(Some(text.copy()?)),
        _ => Ok(None),
    }
}

/// The text of the side with which `text` begins, where it is quoted and has no function.
fn pattern_text(alloc: Global, text: &str, side: &Side) -> Result<Option<Text>, NoMemory>
    ensures { IfOk result (λ o. o ≡ spec.pattern_text text.now side.now) }
{
    let is_quoted = behind(text, "'").is_some() || behind(text, "\"").is_some();
    match side {
        Side::Value(template) if is_quoted => plain_text(alloc, template.parts.items()),
        _ => Ok(None),
    }
}

/// The pattern of the right side of `regex` that stands in front, and what stands behind it.
#[tactic(auto, unfolding(crate::specs::Reading::pattern_at))]
fn pattern_at<'t, P: Patterns>(
    alloc: Global,
    text: &'t str,
    patterns: &mut P,
) -> Result<(Pattern, &'t str), Stop>
    ensures reads { GivesAt (λ x. (x.0, x.1.now)) result (λ refused. spec.pattern_at refused text.now) }
    ensures later { IfOk result (λ x. (left : ℕ) → left ≤ length x.1.now → spec.pattern_at (Some left) text.now ≡ Ok (x.0, x.1.now)) }
    ensures shorter { IfOk result (λ x. length x.1.now < length text.now) }
    ensures within { StopsWithin (length text.now) result }
    ensures grammar { IfOk result (λ x. IsGoodPattern x.0) }
    ensures cause { Rises (stop_failures result) (P.pattern_faults patterns.old) (P.pattern_faults patterns.new) }
    ensures asks { AsksAt result (λ _. operated_patterns text.now (Matches false)) (P.pattern_builds patterns.old) (P.pattern_builds patterns.new) }
{
    let (side, rest) = side_at(alloc, text)?;
    let Some(plain) = pattern_text(alloc, text, &side)? else {
        return Err(Stop::Bad(text.len()));
    };
    match patterns.build(alloc, &plain) {
        Ok(pattern) => Ok((pattern, rest)),
        Err(PatternFault::NoMemory) => Err(Stop::Memory),
        Err(PatternFault::Bad) => Err(Stop::Pattern(text.len(), PatternFault::Bad)),
        Err(PatternFault::TooLarge) => Err(Stop::Pattern(text.len(), PatternFault::TooLarge)),
    }
}

/// Lets a side go that is no part of a test, since the reading stopped.
fn stopped(side: Side, stop: Stop) -> Stop
    ensures { result ≡ stop }
{
    drop(side);
    stop
}

/// The test that this side, this operator and what stands behind them are, and what stands behind it and its spaces.
#[tactic(auto, unfolding(crate::specs::Reading::operated))]
fn operated<'t, P: Patterns>(
    alloc: Global,
    left: Side,
    operator: Operator,
    text: &'t str,
    patterns: &mut P,
) -> Result<(Test, &'t str), Stop>
    ensures reads { GivesAt (λ x. (x.0, x.1.now)) result (λ refused. spec.operated refused left text.now operator) }
    ensures later { IfOk result (λ x. (least : ℕ) → least ≤ length x.1.now → spec.operated (Some least) left text.now operator ≡ Ok (x.0, x.1.now)) }
    ensures shorter { IfOk result (λ x. length x.1.now < length text.now) }
    ensures within { StopsWithin (length text.now) result }
    ensures grammar { IfOk result (λ x. HasGoodPattern x.0) }
    ensures cause { Rises (stop_failures result) (P.pattern_faults patterns.old) (P.pattern_faults patterns.new) }
    ensures asks { AsksAt result (λ _. operated_patterns text.now operator) (P.pattern_builds patterns.old) (P.pattern_builds patterns.new) }
{
    match operator {
        Operator::Compares(op) => {
            let (right, end) = side_at(alloc, text)?;
            let rest = gap(end)?;
            Ok((Test::Compare { left, op, right }, rest))
        }
        Operator::Matches { negated } => {
            let (pattern, end) = pattern_at(alloc, text, patterns)?;
            let rest = gap(end)?;
            let test = Test::Matches {
                left,
                pattern,
                negated,
            };
            Ok((test, rest))
        }
    }
}

/// The test that stands in front, and what stands behind it and its spaces.
#[tactic(auto, unfolding(crate::specs::Reading::test_at))]
pub fn test_at<'t, P: Patterns>(
    alloc: Global,
    text: &'t str,
    patterns: &mut P,
) -> Result<(Test, &'t str), Stop>
    ensures reads { GivesAt (λ x. (x.0, x.1.now)) result (λ refused. spec.test_at refused text.now) }
    ensures later { IfOk result (λ x. (left : ℕ) → left ≤ length x.1.now → spec.test_at (Some left) text.now ≡ Ok (x.0, x.1.now)) }
    ensures shorter { IfOk result (λ x. length x.1.now < length text.now) }
    ensures within { StopsWithin (length text.now) result }
    ensures grammar { IfOk result (λ x. HasGoodPattern x.0) }
    ensures cause { Rises (stop_failures result) (P.pattern_faults patterns.old) (P.pattern_faults patterns.new) }
    ensures asks { AsksAt result (λ _. test_patterns text.now) (P.pattern_builds patterns.old) (P.pattern_builds patterns.new) }
{
    let (left, after) = side_at(alloc, text)?;
    let rest = match gap(after) {
        Ok(rest) => rest,
        Err(stop) => return Err(stopped(left, stop)),
    };
    let Some((operator, more)) = operator_at(rest) else {
        return Ok((Test::Single(left), rest));
    };
    match spaced(more) {
        Ok(next) => operated(alloc, left, operator, next, patterns),
        Err(stop) => Err(stopped(left, stop)),
    }
}
