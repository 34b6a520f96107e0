ghost use Rattle.std.specs.Prelude.{◌<◌, length, IfOk, ◌≡◌};
ghost use Rattle.eip_simple_read.specs.Reading as spec;
ghost use Rattle.eip_simple_read.specs.Reading.{Gives};

use crate::fault::Stop;
use crate::tree::Function;
use eip_text::cuts::{behind, cut};
use eip_text::{NoMemory, Text, is_name};
use std::alloc::Global;

/// The function that a whole word is.
fn whole_word(name: &str) -> Option<Function>
    ensures { result ≡ spec.whole_word name.now }
{
    match name {
        "body" => Some(Function::Body),
        "exchangeId" => Some(Function::ExchangeId),
        "routeId" => Some(Function::RouteId),
        "exception.message" => Some(Function::ExceptionMessage),
        _ => None,
    }
}

/// The function that names a header.
fn header(alloc: Global, name: &str) -> Result<Option<Function>, NoMemory>
    ensures { IfOk result (λ f. f ≡ spec.header name.now) }
{
    match behind(name, "header.").or(behind(name, "headers.")) {
        Some(header) if is_name(header.as_bytes()) => {
            Ok(Some(Function::Header(Text::of_str(alloc, header)?)))
        }
        _ => Ok(None),
    }
}

/// The function that names a property.
fn property(alloc: Global, name: &str) -> Result<Option<Function>, NoMemory>
    ensures { IfOk result (λ f. f ≡ spec.property name.now) }
{
    match behind(name, "exchangeProperty.") {
        Some(property) if is_name(property.as_bytes()) => {
            Ok(Some(Function::Property(Text::of_str(alloc, property)?)))
        }
        _ => Ok(None),
    }
}

/// The function of a name.
#[tactic(auto, unfolding(crate::specs::Reading::named))]
fn named(alloc: Global, name: &str) -> Result<Option<Function>, NoMemory>
    ensures { IfOk result (λ f. f ≡ spec.named name.now) }
{
    if let Some(function) = whole_word(name) {
        return Ok(Some(function));
    }
    if let Some(function) = header(alloc, name)? {
        return Ok(Some(function));
    }
    property(alloc, name)
}

/// The function whose name stands in front, and what stands behind its brace.
#[tactic(auto, unfolding(crate::specs::Reading::function_behind))]
pub fn function_behind(alloc: Global, inner: &str, left: usize) -> Result<(Function, &str), Stop>
    ensures reads { Gives (λ x. (x.0, x.1.now)) result (spec.function_behind left inner.now) }
    ensures shorter { IfOk result (λ x. length x.1.now < length inner.now) }
{
    let Some((name, rest)) = cut(inner, '}') else {
        return Err(Stop::Bad(left));
    };
    match named(alloc, name)? {
        Some(function) => Ok((function, rest)),
        None => Err(Stop::Unknown(left)),
    }
}
