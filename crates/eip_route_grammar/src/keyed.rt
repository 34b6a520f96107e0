ghost use Rattle.std.specs.Prelude.{◌≡◌, List, [], ℕ, false, IfOk};
ghost use Rattle.eip_text.specs.Json.{members_json};
ghost use Rattle.eip_route_grammar.specs.Keys.{spelled};
ghost use Rattle.eip_route_grammar.specs.Table.{rows, row_for, shape_of};
ghost use Rattle.eip_route_grammar.specs.Objects as spec;

use crate::fault::Cause;
use crate::keys::Key;
use crate::table::{Kind, Row, Shape};
use eip_text::{NoMemory, Text, Tree};
use std::alloc::Global;

fn text_of(alloc: Global, key: Key) -> Result<Text, NoMemory>
    ensures { IfOk result (λ t. t ≡ spelled key) }
{
    Text::of_str(alloc, key.spell())
}

fn is_one(row: Row) -> bool
    ensures { result ≡ spec.is_one row }
{
    match row {
        Row::Must(_, _) => false,
        Row::May(_, _) => false,
        Row::One(_, _) => true,
    }
}

/// Whether two rows are one key, or two of which an object has one.
fn is_clash(row: Row, other: Row) -> bool
    ensures { result ≡ spec.clash row other }
{
    row.key().spell() == other.key().spell() || (is_one(row) && is_one(other))
}

fn clashes(row: Row, seen: &[Row]) -> bool
    ensures { result ≡ spec.clashes row seen.now }
{
    for other in seen {
        if is_clash(row, *other) {
            return true;
        }
    }
    false
}

/// What is wrong where a row wasn't seen.
fn missed(alloc: Global, row: Row) -> Result<Option<Cause>, NoMemory>
    ensures { IfOk result (λ c. c ≡ spec.missed row) }
{
    match row {
        Row::Must(key, _) => Ok(Some(Cause::MissingKey(text_of(alloc, key)?))),
        Row::May(_, _) => Ok(None),
        Row::One(_, _) => Ok(Some(Cause::MissingKey(Text::of_str(alloc, "expression")?))),
    }
}

fn missing(alloc: Global, kind: Kind, seen: &[Row]) -> Result<Option<Cause>, NoMemory>
    ensures { IfOk result (λ c. c ≡ spec.missing seen.now (rows kind)) }
{
    for row in kind.rows() {
        if !clashes(*row, seen) {
            if let Some(cause) = missed(alloc, *row)? {
                return Ok(Some(cause));
            }
        }
    }
    Ok(None)
}

/// What is wrong with keys that are judged each for itself.
fn keyed(alloc: Global, kind: Kind, members: &[(Text, Tree)]) -> Result<Option<Cause>, NoMemory>
    ensures { IfOk result (λ c. c ≡ spec.keyed (rows kind) [] (spec.keys_of (members_json members.now))) }
{
    let mut seen = Vec::new(alloc);
    for member in members {
        let Some(row) = kind.row(member.0.as_str()) else {
            return Ok(Some(Cause::UnknownKey(member.0.copy()?)));
        };
        if clashes(row, seen.as_slice()) {
            return Ok(Some(Cause::DoubleKey(text_of(alloc, row.key())?)));
        }
        seen.push(row)?;
    }
    missing(alloc, kind, seen.as_slice())
}

fn item_key(kind: Kind, members: &[(Text, Tree)]) -> Result<Option<Cause>, NoMemory>
    ensures { IfOk result (λ c. c ≡ spec.one_key (rows kind) (λ (k : List ℕ). Cause.UnknownKey k)
        (spec.keys_of (members_json members.now))) }
{
    match members {
        [] => Ok(Some(Cause::NotOneKey)),
        [member] => match kind.row(member.0.as_str()) {
            Some(_) => Ok(None),
            None => Ok(Some(Cause::UnknownKey(member.0.copy()?))),
        },
        [_, _, ..] => Ok(Some(Cause::NotOneKey)),
    }
}

fn step_key(kind: Kind, members: &[(Text, Tree)]) -> Result<Option<Cause>, NoMemory>
    ensures { IfOk result (λ c. c ≡ spec.one_key (rows kind) (λ (k : List ℕ). Cause.UnknownStep k)
        (spec.keys_of (members_json members.now))) }
{
    match members {
        [] => Ok(Some(Cause::NotOneKey)),
        [member] => match kind.row(member.0.as_str()) {
            Some(_) => Ok(None),
            None => Ok(Some(Cause::UnknownStep(member.0.copy()?))),
        },
        [_, _, ..] => Ok(Some(Cause::NotOneKey)),
    }
}

fn is_note(key: &str) -> bool
    ensures { result ≡ spec.is_note key.now }
{
    Key::Id.is(key) || Key::Description.is(key)
}

/// `NotOneKey`, unless one key stands beside `id` and `description`.
fn one_aside(members: &[(Text, Tree)]) -> Option<Cause>
    ensures { result ≡ spec.one_aside false (spec.keys_of (members_json members.now)) }
{
    let mut met = false;
    for member in members {
        if !is_note(member.0.as_str()) {
            if met {
                return Some(Cause::NotOneKey);
            }
            met = true;
        }
    }
    if met { None } else { Some(Cause::NotOneKey) }
}

fn handler_keys(
    alloc: Global,
    kind: Kind,
    members: &[(Text, Tree)],
) -> Result<Option<Cause>, NoMemory>
    ensures { IfOk result (λ c. c ≡ spec.own_keys Shape.Handler (rows kind)
        (spec.keys_of (members_json members.now))) }
{
    if let Some(cause) = one_aside(members) {
        return Ok(Some(cause));
    }
    keyed(alloc, kind, members)
}

/// What is wrong with an object by its keys alone.
pub fn own_keys(
    alloc: Global,
    kind: Kind,
    members: &[(Text, Tree)],
) -> Result<Option<Cause>, NoMemory>
    ensures { IfOk result (λ c. c ≡ spec.own_keys (shape_of kind) (rows kind)
        (spec.keys_of (members_json members.now))) }
{
    match kind.shape() {
        Shape::Keyed => keyed(alloc, kind, members),
        Shape::Item => item_key(kind, members),
        Shape::Step => step_key(kind, members),
        Shape::Handler => handler_keys(alloc, kind, members),
        Shape::Free => Ok(None),
        Shape::Closed => Ok(Some(Cause::WrongKind)),
    }
}
