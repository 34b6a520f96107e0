ghost use Rattle.std.specs.Prelude.{◌≡◌, IfOk};
ghost use Rattle.eip_text.specs.Numbers.{whole_of};
ghost use Rattle.eip_route_grammar.specs.Texts as spec;

use eip_text::cuts::{behind, cut};
use eip_text::{NoMemory, Text, decimal, read_i64};
use std::alloc::Global;

/// A text without the number sign in front.
pub fn unhashed(text: &str) -> &str
    ensures { result.now ≡ spec.unhashed text.now }
{
    match behind(text, "#") {
        None => text,
        Some(more) => more,
    }
}

/// What stands behind the last dot.
pub fn last_segment(text: &str) -> &str
    ensures { result.now ≡ spec.last_segment text.now }
{
    let mut rest = text;
    while let Some((_, more)) = cut(rest, '.') {
        rest = more;
    }
    rest
}

/// The whole number of 64 bits that the text spells.
pub fn whole(text: &str) -> Option<i64>
    ensures { result ≡ whole_of text.now }
{
    read_i64(text.as_bytes())
}

/// The id of a route that names none, by its position among the routes, from 1.
pub fn own_id(alloc: Global, position: u64) -> Result<Text, NoMemory>
    ensures { IfOk result (λ t. t ≡ spec.own_id position) }
{
    let mut id = String::from_str(alloc, "route")?;
    id.push_str(decimal(alloc, position)?.as_str())?;
    Ok(Text::of(id))
}
