ghost use Rattle.std.specs.Prelude.{◌≡◌, ◌≢◌, ◌≤◌, ℕ, List, true, ◌∷◌, ◌++◌, [], length, map, IfOk, OnOk, MatchOption};
ghost use Rattle.eip_router.specs.Blanks as blanks;
ghost use Rattle.eip_router.specs.Recipients as spec;

use eip_text::NoMemory;
use std::alloc::Global;

/// The items of a list, without the blanks round them; those that are empty then are left out.
pub fn items_of<'t>(alloc: Global, pieces: &[&'t str]) -> Result<Vec<&'t str>, NoMemory>
    ensures { IfOk result (λ v. map (λ x. x.now) v.items ≡ spec.items_of (map (λ x. x.now) pieces.now)) }
{
    let mut items = Vec::new(alloc);
    for piece in pieces {
        push_item(&mut items, trimmed(piece))?;
    }
    Ok(items)
}

/// Appends an item that isn't empty.
fn push_item<'t>(items: &mut Vec<&'t str>, item: &'t str) -> Result<(), NoMemory>
    ensures { OnOk result (map (λ x. x.now) items.new.items
        ≡ map (λ x. x.now) items.old.items ++ spec.kept item.now []) }
{
    if item.is_empty() {
        return Ok(());
    }
    Ok(items.push(item)?)
}

/// The text without the blanks at both its ends.
fn trimmed(text: &str) -> &str
    ensures { result.now ≡ blanks.trimmed text.now }
{
    unblanked_end(unblanked(text))
}

/// The text without the blanks in front.
fn unblanked(text: &str) -> &str
    ensures { result.now ≡ blanks.unblanked text.now }
{
    let mut rest = text;
    while let Some(more) = behind_blank(rest) {
        rest = more;
    }
    rest
}

/// The text without the blanks at its end.
fn unblanked_end(text: &str) -> &str
    ensures { result.now ≡ blanks.unblanked_end text.now }
{
    let mut rest = text;
    while let Some(more) = before_blank(rest) {
        rest = more;
    }
    rest
}

/// What stands behind a blank in front.
fn behind_blank(text: &str) -> Option<&str>
    ensures { MatchOption result (blanks.BeginsFilled text.now) (λ x. blanks.BeginsBlank text.now x.now) }
{
    match text.strip_prefix(' ') {
        Some(rest) => Some(rest),
        None => text.strip_prefix('\t'),
    }
}

/// What stands before a blank at the end.
fn before_blank(text: &str) -> Option<&str>
    ensures { MatchOption result (blanks.EndsFilled text.now) (λ x. blanks.EndsBlank text.now x.now) }
{
    match text.strip_suffix(' ') {
        Some(front) => Some(front),
        None => text.strip_suffix('\t'),
    }
}
