ghost use Rattle.std.specs.Prelude.{◌≡◌, length, IfOk, All, None};
ghost use Rattle.eip_text.specs.Causes.{Rises};
ghost use Rattle.eip_simple_read.specs.Reading as spec;
ghost use Rattle.eip_simple_read.specs.Reading.{GivesAt, StopsWithin, stop_failures, HasGoodPattern};
ghost use Rattle.eip_simple_read.specs.Meaning.{IsReading, predicate_of, fault_failures};
ghost use Rattle.eip_simple_read.specs.Spelling.{predicate_text};
ghost use Rattle.eip_simple_read.specs.Builds.{AsksAt, IsAsked, any_patterns, patterns_in};

use crate::comparisons::test_at;
use crate::fault::{SimpleFault, Stop};
use crate::joints::{Joint, joint_at};
use crate::pattern::Patterns;
use crate::tree::{Predicate, Test};
use eip_text::cuts::unspaced;
use eip_text::{Series, Text};
use std::alloc::Global;

/// The conjunctions that the text spells.
fn all_tests<P: Patterns>(
    alloc: Global,
    text: &str,
    patterns: &mut P,
) -> Result<Vec<Series<Test>>, Stop>
    ensures reads { GivesAt (λ v. v.items) result (λ refused. spec.all_tests refused text.now) }
    ensures within { StopsWithin (length text.now) result }
    ensures grammar { IfOk result (λ v. All (All HasGoodPattern) v.items) }
    ensures cause { Rises (stop_failures result) (P.pattern_faults patterns.old) (P.pattern_faults patterns.new) }
    ensures asks { AsksAt result (λ refused. patterns_in refused text.now) (P.pattern_builds patterns.old) (P.pattern_builds patterns.new) }
{
    let mut any = Vec::new(alloc);
    let mut all = Vec::new(alloc);
    let mut rest = unspaced(text);
    loop {
        let (test, after) = test_at(alloc, rest, patterns)?;
        all.push(test)?;
        let (joint, next) = joint_at(after)?;
        rest = next;
        match joint {
            Joint::End => {
                any.push(Series::of(all))?;
                return Ok(any);
            }
            Joint::And => {}
            Joint::Or => {
                any.push(Series::of(all))?;
                all = Vec::new(alloc);
            }
        }
    }
}

/// The predicate that the text spells, or its first fault. `BadPattern` and `PatternTooLarge` stand at the right side of
/// a `regex` that `patterns` refused, where nothing is wrong before it.
#[tactic(auto, unfolding(crate::specs::Meaning::predicate_of))]
pub fn read_predicate<P: Patterns>(
    alloc: Global,
    text: &Text,
    patterns: &mut P,
) -> Result<Predicate, SimpleFault>
    ensures exact { IsReading text.now result }
    ensures again { IfOk result (λ p. predicate_of (predicate_text p) ≡ Ok p) }
    ensures grammar { IfOk result (λ p. All (All HasGoodPattern) p.any) }
    ensures cause { Rises (fault_failures result) (P.pattern_faults patterns.old) (P.pattern_faults patterns.new) }
    ensures spelled { IfOk result (λ p. patterns_in None text.now ≡ any_patterns p.any) }
    ensures asks { IsAsked text.now result (P.pattern_builds patterns.old) (P.pattern_builds patterns.new) }
{
    let whole = text.as_str();
    match all_tests(alloc, whole, patterns) {
        Ok(any) => Ok(Predicate {
            any: Series::of(any),
        }),
        Err(stop) => Err(stop.fault(whole.len())),
    }
}
