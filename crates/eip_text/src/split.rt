ghost use Rattle.std.specs.Prelude.{◌<◌, None, length, IfOk, MatchOption};
ghost use Rattle.memchr.specs.Find.{FindsNeedle};
ghost use Rattle.eip_text.specs.Pieces.{CutAt, Pieces};

use crate::memory::NoMemory;
use crate::text::Text;
use memchr::memmem;
use std::alloc::Global;

/// All pieces of a text that is cut at each occurrence of `by`, from the left. A text without `by`
/// is one piece; a text that ends with `by` has an empty piece at its end.
pub fn split_by(alloc: Global, text: &Text, by: &Text) -> Result<Vec<Text>, NoMemory>
    requires { 0 < length by.now }
    ensures { IfOk result (λ ps. Pieces text.now by.now ps.items) }
{
    let mut pieces = Vec::new(alloc);
    let mut rest = text.as_str();
    while let Some((front, more)) = cut_at(rest, by.as_str()) {
        pieces.push(Text::of_str(alloc, front)?)?;
        rest = more;
    }
    pieces.push(Text::of_str(alloc, rest)?)?;
    Ok(pieces)
}

/// What stands before and behind the first occurrence of `by`.
fn cut_at<'t>(text: &'t str, by: &str) -> Option<(&'t str, &'t str)>
    requires { 0 < length by.now }
    ensures { MatchOption result (FindsNeedle text.now by.now 0 None)
        (λ p. CutAt text.now by.now p.0.now p.1.now) }
{
    match memmem::find(text.as_bytes(), by.as_bytes()) {
        None => None,
        Some(at) => Some((&text[..at], &text[at + by.len()..])),
    }
}
