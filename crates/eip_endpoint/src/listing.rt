ghost use Rattle.std.specs.Prelude.{◌≡◌, ℕ, List, IfOk, map};
ghost use Rattle.eip_endpoint.specs.Files.{IsAscending, is_among};

use eip_text::{NoMemory, Text};
use std::alloc::Global;

/// Puts names in byte order, each once.
fn order(names: &mut Vec<&str>)
    ensures ascending { IsAscending (map (λ n. n.now) names.new.items) }
    ensures same { (name : List ℕ) → is_among name (map (λ n. n.now) names.new.items) ≡ is_among name (map (λ n. n.now) names.old.items) }
{
    names.sort_unstable();
    names.dedup();
}

/// The names as texts of their own.
fn texts_of(alloc: Global, names: &[&str]) -> Result<Vec<Text>, NoMemory>
    ensures { IfOk result (λ texts. texts.items ≡ map (λ n. n.now) names.now) }
{
    let mut texts = Vec::new(alloc);
    for name in names {
        texts.push(Text::of_str(alloc, name)?)?;
    }
    Ok(texts)
}

/// The names in byte order, each once, as `Files::list` answers them.
pub fn in_byte_order(alloc: Global, mut names: Vec<&str>) -> Result<Vec<Text>, NoMemory>
    ensures ascending { IfOk result (λ texts. IsAscending texts.items) }
    ensures same { IfOk result (λ texts. (name : List ℕ) → is_among name texts.items ≡ is_among name (map (λ n. n.now) names.entry.items)) }
{
    order(&mut names);
    texts_of(alloc, names.as_slice())
}
