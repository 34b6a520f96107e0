ghost use Rattle.std.specs.Prelude.{◌≡◌, ◌+◌, ◌<◌, ◌≤◌, length, map, IfOk, IfSome, option_map};
ghost use Rattle.eip_text.specs.Cuts as spec;

use crate::memory::NoMemory;
use std::alloc::Global;

/// The text without the spaces in front.
pub fn unspaced(text: &str) -> &str
    ensures value { result.now ≡ spec.unspaced text.now }
    ensures shorter { length result.now ≤ length text.now }
{
    let mut rest = text;
    while let Some(more) = rest.strip_prefix(' ') {
        rest = more;
    }
    rest
}

/// What stands behind `word`, where the text begins with it.
pub fn behind<'t>(text: &'t str, word: &str) -> Option<&'t str>
    ensures value { option_map (λ x. x.now) result ≡ spec.behind word.now text.now }
    ensures shorter { IfSome result (λ x. length x.now + length word.now ≡ length text.now) }
{
    text.strip_prefix(word)
}

/// The text before the first `mark`, and the text behind that mark.
pub fn cut(text: &str, mark: char) -> Option<(&str, &str)>
    requires { mark < 128 }
    ensures value { option_map (λ x. (x.0.now, x.1.now)) result ≡ spec.cut mark text.now }
    ensures shorter { IfSome result (λ x. length x.0.now + length x.1.now + 1 ≡ length text.now) }
{
    text.split_once(mark)
}

/// Whether the byte `mark` stands in the text.
pub fn holds(text: &str, mark: char) -> bool
    requires { mark < 128 }
    ensures { result ≡ spec.holds_byte mark text.now }
{
    cut(text, mark).is_some()
}

/// The ASCII digits in front, and what stands behind them.
pub fn digits(text: &str) -> (&str, &str)
    ensures front { result.0.now ≡ (spec.digits text.now).0 }
    ensures rest { result.1.now ≡ (spec.digits text.now).1 }
    ensures shorter { length result.0.now + length result.1.now ≡ length text.now }
{
    let bytes = text.as_bytes();
    let mut end = 0;
    while end < bytes.len() && bytes[end].is_ascii_digit() {
        end += 1;
    }
    text.split_at(end)
}

/// The pieces of the text between the marks, from the left: one more than it has marks.
pub fn pieces(alloc: Global, text: &str, mark: char) -> Result<Vec<&str>, NoMemory>
    requires { mark < 128 }
    ensures { IfOk result (λ v. map (λ x. x.now) v.items ≡ spec.pieces mark text.now) }
{
    let mut found = Vec::new(alloc);
    let mut rest = text;
    while let Some((piece, more)) = cut(rest, mark) {
        found.push(piece)?;
        rest = more;
    }
    found.push(rest)?;
    Ok(found)
}
