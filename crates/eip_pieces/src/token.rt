ghost use Rattle.std.specs.Prelude.{◌≡◌, ◌+◌, ◌<◌, None, Some, length, map, take, drop, IfOk, MatchOption};
ghost use Rattle.std.specs.Str.{IsUtf8};
ghost use Rattle.memchr.specs.Find.{FindsNeedle};
ghost use Rattle.eip_pieces.specs.Found.{FoundAt};
ghost use Rattle.eip_pieces.specs.Pieces as spec;

use eip_text::NoMemory;
use memchr::memmem::Finder;
use std::alloc::Global;

/// The pieces of a text that is cut at each place of the token, from the left, in one pass: one more than
/// it has cuts. A text that ends with the token has an empty piece at its end (Camel manual, *Split EIP*,
/// `tokenize`).
pub fn pieces<'t>(alloc: Global, text: &'t str, token: &str) -> Result<Vec<&'t str>, NoMemory>
    requires { 0 < length token.now }
    ensures { IfOk result (λ v. map (λ x. x.now) v.items ≡ spec.pieces token.now text.now) }
{
    let finder = Finder::new(token.as_bytes());
    let mut found = Vec::new(alloc);
    let mut rest = text;
    while let Some((piece, more)) = cut_at(rest, token, &finder) {
        found.push(piece)?;
        rest = more;
    }
    found.push(rest)?;
    Ok(found)
}

/// What stands before and behind the first place of the token.
fn cut_at<'t>(text: &'t str, token: &str, finder: &Finder) -> Option<(&'t str, &'t str)>
    requires token { 0 < length token.now }
    requires same { finder.now ≡ token.now }
    ensures { MatchOption result (FindsNeedle text.now token.now 0 None)
        (λ p. FoundAt text.now token.now p.0.now p.1.now) }
{
    match finder.find(text.as_bytes()) {
        None => None,
        Some(at) => Some((&text[..at], &text[at + token.len()..])),
    }
}
