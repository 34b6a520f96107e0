ghost use Rattle.std.specs.Prelude.{◌≡◌, ◌+◌, ◌<◌, ◌^◌, length, IfOk, IfSome, option_map};
ghost use Rattle.eip_simple_read.specs.Reading as spec;
ghost use Rattle.eip_simple_read.specs.Reading.{Gives};

use crate::fault::Stop;
use crate::functions::function_behind;
use crate::templates::template;
use crate::tree::{Part, Side, Template};
use eip_text::cuts::{behind, cut, digits};
use eip_text::{NoMemory, Series, Text};
use std::alloc::Global;

/// A value of plain text.
fn plain_value(alloc: Global, text: Text) -> Result<Side, NoMemory>
    ensures { IfOk result (λ s. s ≡ spec.plain_value text) }
{
    let mut parts = Vec::new(alloc);
    parts.push(Part::Plain(text))?;
    Ok(Side::Value(Template {
        parts: Series::of(parts),
    }))
}

/// An optional `-` and digits, as a text, and what stands behind them.
#[tactic(auto, unfolding(crate::specs::Reading::numeral))]
fn numeral(alloc: Global, text: &str) -> Result<Option<(Text, &str)>, NoMemory>
    ensures reads { IfOk result (λ o. option_map (λ x. (x.0, x.1.now)) o ≡ spec.numeral text.now) }
    ensures shorter { IfOk result (λ o. IfSome o (λ x. length x.1.now < length text.now)) }
{
    if let Some(more) = behind(text, "-") {
        let (number, rest) = digits(more);
        if !number.is_empty() {
            let mut string = String::from_str(alloc, "-")?;
            string.push_str(number)?;
            return Ok(Some((Text::of(string), rest)));
        }
    }
    let (number, rest) = digits(text);
    if number.is_empty() {
        return Ok(None);
    }
    Ok(Some((Text::of_str(alloc, number)?, rest)))
}

/// `null`, `true` or `false`, and what stands behind it.
#[tactic(auto, unfolding(crate::specs::Reading::word))]
fn word(alloc: Global, text: &str) -> Result<Option<(Side, &str)>, NoMemory>
    ensures reads { IfOk result (λ o. option_map (λ x. (x.0, x.1.now)) o ≡ spec.word text.now) }
    ensures shorter { IfOk result (λ o. IfSome o (λ x. length x.1.now < length text.now)) }
{
    if let Some(rest) = behind(text, "null") {
        return Ok(Some((Side::Null, rest)));
    }
    if let Some(rest) = behind(text, "true") {
        let side = plain_value(alloc, Text::of_str(alloc, "true")?)?;
        return Ok(Some((side, rest)));
    }
    if let Some(rest) = behind(text, "false") {
        let side = plain_value(alloc, Text::of_str(alloc, "false")?)?;
        return Ok(Some((side, rest)));
    }
    Ok(None)
}

/// The value that stands behind an opening quote, up to the closing one, and what stands behind that.
#[tactic(auto, unfolding(crate::specs::Reading::quoted))]
fn quoted(alloc: Global, inner: &str, quote: char) -> Result<(Side, &str), Stop>
    requires ascii { quote < 128 }
    requires room { length inner.now + 1 < 2 ^ 64 }
    ensures reads { Gives (λ x. (x.0, x.1.now)) result (spec.quoted quote inner.now) }
    ensures shorter { IfOk result (λ x. length x.1.now < length inner.now) }
{
    let Some((text, rest)) = cut(inner, quote) else {
        return Err(Stop::Bad(inner.len() + 1));
    };
    let parts = template(alloc, text, rest.len() + 1)?;
    let template = Template {
        parts: Series::of(parts),
    };
    Ok((Side::Value(template), rest))
}

/// The side that stands in front, and what stands behind it.
#[tactic(auto, unfolding(crate::specs::Reading::side_at))]
pub fn side_at(alloc: Global, text: &str) -> Result<(Side, &str), Stop>
    ensures reads { Gives (λ x. (x.0, x.1.now)) result (spec.side_at text.now) }
    ensures shorter { IfOk result (λ x. length x.1.now < length text.now) }
{
    if let Some(inner) = behind(text, "${") {
        let (function, rest) = function_behind(alloc, inner, text.len())?;
        return Ok((Side::Call(function), rest));
    }
    if let Some(inner) = behind(text, "'") {
        let (side, rest) = quoted(alloc, inner, '\'')?;
        return Ok((side, rest));
    }
    if let Some(inner) = behind(text, "\"") {
        let (side, rest) = quoted(alloc, inner, '"')?;
        return Ok((side, rest));
    }
    if let Some((number, rest)) = numeral(alloc, text)? {
        let side = plain_value(alloc, number)?;
        return Ok((side, rest));
    }
    match word(alloc, text)? {
        Some((side, rest)) => Ok((side, rest)),
        None => Err(Stop::Bad(text.len())),
    }
}
