ghost use Rattle.std.specs.Prelude.{◌≡◌, ◌<◌, length, option_map, IfOk, IfSome};
ghost use Rattle.eip_dump.specs.Reading as spec;
ghost use Rattle.eip_dump.specs.Reading.{Gives};

use crate::fault::Stop;
use crate::number_reader::behind;
use eip_text::{NoMemory, Text, TextFault};
use std::alloc::Global;

/// The value of a hexadecimal digit, with letters in lower case.
fn hex_value(digit: u8) -> Option<u8>
    ensures value { result ≡ spec.hex_value digit }
    ensures small { IfSome result (λ v. v < 16) }
{
    match digit {
        b'0'..=b'9' => Some(digit - b'0'),
        b'a'..=b'f' => Some(digit - b'a' + 10),
        _ => None,
    }
}

/// The hexadecimal digit in front, and what stands behind it.
fn hex_digit_at(bytes: &[u8]) -> Option<(u8, &[u8])>
    ensures value { option_map (λ x. (x.0, x.1.now)) result ≡ spec.hex_digit_at bytes.now }
    ensures small { IfSome result (λ x. x.0 < 16) }
    ensures shorter { IfSome result (λ x. length x.1.now < length bytes.now) }
{
    let (first, rest) = bytes.split_first()?;
    Some((hex_value(*first)?, rest))
}

/// The byte that two hexadecimal digits in front spell, and what stands behind them.
#[tactic(auto, unfolding(crate::specs::Reading::hex_at))]
fn hex_at(bytes: &[u8]) -> Option<(u8, &[u8])>
    ensures value { option_map (λ x. (x.0, x.1.now)) result ≡ spec.hex_at bytes.now }
    ensures shorter { IfSome result (λ x. length x.1.now < length bytes.now) }
{
    let (high, behind_high) = hex_digit_at(bytes)?;
    let (low, rest) = hex_digit_at(behind_high)?;
    Some((high * 16 + low, rest))
}

/// The byte that is escaped behind a backslash, and what stands behind it.
#[tactic(auto, unfolding(crate::specs::Reading::escape_at))]
fn escape_at(bytes: &[u8]) -> Option<(u8, &[u8])>
    ensures value { option_map (λ x. (x.0, x.1.now)) result ≡ spec.escape_at bytes.now }
    ensures shorter { IfSome result (λ x. length x.1.now < length bytes.now) }
{
    let (first, rest) = bytes.split_first()?;
    match *first {
        b'\\' => Some((b'\\', rest)),
        b'"' => Some((b'"', rest)),
        b'n' => Some((b'\n', rest)),
        b'r' => Some((b'\r', rest)),
        b'x' => hex_at(rest),
        _ => None,
    }
}

/// The next byte of a quoted text, and what stands behind it; `None` at a quotation mark, and where no byte is spelled.
#[tactic(auto, unfolding(crate::specs::Reading::shown_at))]
fn shown_at(bytes: &[u8]) -> Option<(u8, &[u8])>
    ensures value { option_map (λ x. (x.0, x.1.now)) result ≡ spec.shown_at bytes.now }
    ensures shorter { IfSome result (λ x. length x.1.now < length bytes.now) }
{
    let (first, rest) = bytes.split_first()?;
    match *first {
        b'"' => None,
        b'\\' => escape_at(rest),
        byte => Some((byte, rest)),
    }
}

/// The bytes of a quoted text, and what stands behind them.
fn unquoted(alloc: Global, bytes: &[u8]) -> Result<(Vec<u8>, &[u8]), NoMemory>
    ensures { IfOk result (λ x. (x.0.items, x.1.now) ≡ spec.unquoted (length bytes.now) bytes.now) }
{
    let mut out = Vec::new(alloc);
    let mut rest = bytes;
    while let Some((byte, more)) = shown_at(rest) {
        out.push(byte)?;
        rest = more;
    }
    Ok((out, rest))
}

/// The text of these bytes.
fn text_of(alloc: Global, bytes: &[u8]) -> Result<Text, Stop>
    ensures { Gives (λ t. t) result (spec.text_of bytes.now) }
{
    match Text::read(alloc, bytes) {
        Ok(text) => Ok(text),
        Err(TextFault::NotText) => Err(Stop::Bad),
        Err(TextFault::NoMemory) => Err(Stop::Memory),
    }
}

/// A quoted text behind a space, and what stands behind it.
#[tactic(auto, unfolding(crate::specs::Reading::phrase_at))]
pub fn phrase_at(alloc: Global, bytes: &[u8]) -> Result<(Text, &[u8]), Stop>
    ensures { Gives (λ x. (x.0, x.1.now)) result (spec.phrase_at bytes.now) }
{
    let Some(inner) = behind(bytes, b" \"") else {
        return Err(Stop::Bad);
    };
    let (text, more) = unquoted(alloc, inner)?;
    let Some(rest) = behind(more, b"\"") else {
        return Err(Stop::Bad);
    };
    Ok((text_of(alloc, text.as_slice())?, rest))
}
