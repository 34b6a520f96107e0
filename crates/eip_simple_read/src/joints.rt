ghost use Rattle.std.specs.Prelude.{◌<◌, ◌≤◌, length, IfOk};
ghost use Rattle.eip_simple_read.specs.Reading as spec;
ghost use Rattle.eip_simple_read.specs.Reading.{Gives};

use crate::fault::Stop;
use eip_text::cuts::{behind, unspaced};

/// What follows a test.
#[derive(Clone, Copy, Debug, PartialEq, Eq)]
pub enum Joint {
    End,
    And,
    Or,
}

/// What stands behind one space or more.
#[tactic(auto, unfolding(crate::specs::Reading::spaced))]
pub fn spaced(text: &str) -> Result<&str, Stop>
    ensures reads { Gives (λ x. x.now) result (spec.spaced text.now) }
    ensures shorter { IfOk result (λ x. length x.now < length text.now) }
{
    match behind(text, " ") {
        Some(rest) => Ok(unspaced(rest)),
        None => Err(Stop::Bad(text.len())),
    }
}

/// What stands behind one space or more, or the end.
#[tactic(auto, unfolding(crate::specs::Reading::gap))]
pub fn gap(text: &str) -> Result<&str, Stop>
    ensures reads { Gives (λ x. x.now) result (spec.gap text.now) }
    ensures shorter { IfOk result (λ x. length x.now ≤ length text.now) }
{
    if text.is_empty() {
        return Ok(text);
    }
    let rest = spaced(text)?;
    Ok(rest)
}

/// What follows a test, and the text of the next test.
#[tactic(auto, unfolding(crate::specs::Reading::joint_at))]
pub fn joint_at(text: &str) -> Result<(Joint, &str), Stop>
    ensures reads { Gives (λ x. (x.0, x.1.now)) result (spec.joint_at text.now) }
    ensures shorter { IfOk result (λ x. length x.1.now ≤ length text.now) }
{
    if text.is_empty() {
        return Ok((Joint::End, text));
    }
    if let Some(rest) = behind(text, "&&") {
        let next = spaced(rest)?;
        return Ok((Joint::And, next));
    }
    if let Some(rest) = behind(text, "||") {
        let next = spaced(rest)?;
        return Ok((Joint::Or, next));
    }
    Err(Stop::Bad(text.len()))
}
