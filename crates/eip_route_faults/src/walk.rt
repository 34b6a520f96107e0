#![tactic(auto, using(eip_text::proofs::Levels::json_levels))]

ghost use Rattle.std.specs.Prelude.{◌≡◌, ◌≤◌, ◌∷◌, [], IfOk, IfErr, Some, option_map};
ghost use Rattle.eip_text.specs.Json.{json, word, list, object, items_json, members_json};
ghost use Rattle.eip_route_grammar.specs.Objects as objects;
ghost use Rattle.eip_route_grammar.specs.Paths as paths;
ghost use Rattle.eip_route_faults.specs.Sites as spec;
ghost use Rattle.eip_route_faults.specs.Sites.{Walked, builder};

use crate::values::{flag_cause, simple_cause, whole_cause, word_cause};
use eip_route::Names;
use eip_route_grammar::fault::{Cause, RouteFault};
use eip_route_grammar::keyed::own_keys;
use eip_route_grammar::known::Known;
use eip_route_grammar::objects::{parameters_of, whole_object};
use eip_route_grammar::table::{Kind, Listed, Nests, Rule};
use eip_simple_read::{Patterns, read_predicate};
use eip_text::{NoMemory, Text, Tree};
use std::alloc::Global;

/// A cause at the place itself.
fn at_place(alloc: Global, cause: Option<Cause>) -> Result<Option<RouteFault>, NoMemory>
    ensures { IfOk result (λ a. a ≡ option_map paths.at_once cause) }
{
    match cause {
        None => Ok(None),
        Some(cause) => Ok(Some(RouteFault::here(alloc, cause)?)),
    }
}

fn is_predicate(rule: Rule) -> bool
    ensures { result ≡ spec.is_predicate rule }
{
    matches!(rule, Rule::Predicate)
}

fn has_none(items: &[Tree]) -> bool
    ensures { result ≡ spec.has_none (items_json items.now) }
{
    match items {
        [] => true,
        [_, ..] => false,
    }
}

fn item_kind(list: Option<Listed>) -> Kind
    ensures { result ≡ spec.item_kind list }
{
    match list {
        None => Kind::Leaf(Rule::Word),
        Some(list) => list.item,
    }
}

/// How many blocks are around the items of a list inside so many blocks, or what is wrong with the
/// list itself.
fn enter(depth: u32, list: Option<Listed>, empty: bool) -> Result<u32, Cause>
    requires { depth ≤ 16 }
    ensures wrong { IfErr result (λ c. Some c ≡ spec.own_list depth list empty) }
    ensures sound { IfOk result (λ d. spec.own_list depth list empty ≡ None) }
    ensures deeper { IfOk result (λ d. d ≡ spec.deeper depth list) }
    ensures bound { IfOk result (λ d. d ≤ 16) }
{
    let Some(list) = list else {
        return Err(Cause::WrongKind);
    };
    if list.filled && empty {
        return Err(Cause::BadValue);
    }
    match list.nests {
        Nests::Nowhere => Ok(depth),
        Nests::Block => {
            if depth >= 16 {
                return Err(Cause::TooNested);
            }
            Ok(depth + 1)
        }
        Nests::Batch => {
            if depth >= 15 {
                return Err(Cause::TooNested);
            }
            Ok(depth + 2)
        }
    }
}

/// The kind of the value of a key: that of a parameter, where the object's table lacks the key.
fn value_kind(kind: Kind, key: &str) -> Kind
    ensures { result ≡ objects.value_kind kind key.now }
{
    match kind.row(key) {
        None => Kind::Leaf(Rule::Constant),
        Some(row) => row.kind(),
    }
}

/// A predicate that can be read is known from then on.
fn find_in_predicate<P: Patterns>(
    alloc: Global,
    patterns: &mut P,
    known: &mut Known,
    text: &Text,
) -> Result<Option<RouteFault>, NoMemory>
    ensures { Walked (([], spec.predicate text.now) ∷ []) result
        (builder P.Patterns patterns.old) known.old
        (builder P.Patterns patterns.new) known.new }
{
    match read_predicate(alloc, text, patterns) {
        Ok(predicate) => {
            known.add(text.copy()?, predicate)?;
            Ok(None)
        }
        Err(fault) => {
            let cause = simple_cause(fault)?;
            Ok(Some(RouteFault::here(alloc, cause)?))
        }
    }
}

fn find_by_rule<P: Patterns>(
    alloc: Global,
    names: &Names,
    patterns: &mut P,
    known: &mut Known,
    parameters: &[(Text, Text)],
    rule: Rule,
    text: &Text,
) -> Result<Option<RouteFault>, NoMemory>
    ensures { Walked (spec.word_sites names.now parameters.now (Some rule) text.now) result
        (builder P.Patterns patterns.old) known.old
        (builder P.Patterns patterns.new) known.new }
{
    if is_predicate(rule) {
        let found = find_in_predicate(alloc, patterns, known, text)?;
        return Ok(found);
    }
    let cause = word_cause(alloc, names, parameters, rule, text)?;
    let plain = at_place(alloc, cause)?;
    Ok(plain)
}

fn find_in_word<P: Patterns>(
    alloc: Global,
    names: &Names,
    patterns: &mut P,
    known: &mut Known,
    parameters: &[(Text, Text)],
    rule: Option<Rule>,
    text: &Text,
) -> Result<Option<RouteFault>, NoMemory>
    ensures { Walked (spec.word_sites names.now parameters.now rule text.now) result
        (builder P.Patterns patterns.old) known.old
        (builder P.Patterns patterns.new) known.new }
{
    match rule {
        None => {
            let found = at_place(alloc, Some(Cause::WrongKind))?;
            Ok(found)
        }
        Some(rule) => {
            let found = find_by_rule(alloc, names, patterns, known, parameters, rule, text)?;
            Ok(found)
        }
    }
}

/// The first fault of a value that is to be of this kind, inside so many blocks, beside these
/// parameters: what the table of route files says of it, or that of a refused pattern before any
/// other fault. The predicates that are read are appended to `known`.
#[cycle(find)]
pub fn find_fault<P: Patterns>(
    alloc: Global,
    names: &Names,
    patterns: &mut P,
    known: &mut Known,
    depth: u32,
    parameters: &[(Text, Text)],
    kind: Kind,
    tree: &Tree,
) -> Result<Option<RouteFault>, NoMemory>
    requires { depth ≤ 16 }
    ensures { Walked (spec.sites_at names.now depth parameters.now kind (json tree.now)) result
        (builder P.Patterns patterns.old) known.old
        (builder P.Patterns patterns.new) known.new }
{
    match tree {
        Tree::Null => {
            let found = at_place(alloc, Some(Cause::WrongKind))?;
            Ok(found)
        }
        Tree::Flag(flag) => {
            let found = at_place(alloc, flag_cause(kind.rule(), *flag))?;
            Ok(found)
        }
        Tree::Whole(number) => {
            let found = at_place(alloc, whole_cause(kind.rule(), *number))?;
            Ok(found)
        }
        Tree::Float => {
            let found = at_place(alloc, Some(Cause::WrongKind))?;
            Ok(found)
        }
        Tree::Word(text) => {
            let rule = kind.rule();
            let found = find_in_word(alloc, names, patterns, known, parameters, rule, text)?;
            Ok(found)
        }
        Tree::List(items) => {
            let items = items.items();
            let found = find_in_list(alloc, names, patterns, known, depth, kind, items)?;
            Ok(found)
        }
        Tree::Object(members) => {
            let members = members.items();
            let found = find_in_object(alloc, names, patterns, known, depth, kind, members)?;
            Ok(found)
        }
    }
}

#[cycle(find)]
fn find_in_list<P: Patterns>(
    alloc: Global,
    names: &Names,
    patterns: &mut P,
    known: &mut Known,
    depth: u32,
    kind: Kind,
    items: &[Tree],
) -> Result<Option<RouteFault>, NoMemory>
    requires { depth ≤ 16 }
    ensures { Walked (spec.list_sites names.now depth kind (items_json items.now)) result
        (builder P.Patterns patterns.old) known.old
        (builder P.Patterns patterns.new) known.new }
{
    let list = kind.list();
    match enter(depth, list, has_none(items)) {
        Err(cause) => {
            let fault = RouteFault::here(alloc, cause)?;
            Ok(Some(fault))
        }
        Ok(inside) => {
            let item = item_kind(list);
            let found = find_in_items(alloc, names, patterns, known, inside, item, items)?;
            Ok(found)
        }
    }
}

#[cycle(find)]
fn find_in_object<P: Patterns>(
    alloc: Global,
    names: &Names,
    patterns: &mut P,
    known: &mut Known,
    depth: u32,
    kind: Kind,
    members: &[(Text, Tree)],
) -> Result<Option<RouteFault>, NoMemory>
    requires { depth ≤ 16 }
    ensures { Walked (spec.object_sites names.now depth kind (members_json members.now)) result
        (builder P.Patterns patterns.old) known.old
        (builder P.Patterns patterns.new) known.new }
{
    let own = own_keys(alloc, kind, members)?;
    match own {
        Some(cause) => {
            let fault = RouteFault::here(alloc, cause)?;
            Ok(Some(fault))
        }
        None => {
            let found = find_inside(alloc, names, patterns, known, depth, kind, members)?;
            Ok(found)
        }
    }
}

/// The same of an object whose keys are as they are to be.
#[cycle(find)]
fn find_inside<P: Patterns>(
    alloc: Global,
    names: &Names,
    patterns: &mut P,
    known: &mut Known,
    depth: u32,
    kind: Kind,
    members: &[(Text, Tree)],
) -> Result<Option<RouteFault>, NoMemory>
    requires { depth ≤ 16 }
    ensures { Walked (spec.inner_sites names.now depth kind (members_json members.now)) result
        (builder P.Patterns patterns.old) known.old
        (builder P.Patterns patterns.new) known.new }
{
    let parameters = parameters_of(alloc, members)?;
    let beside = parameters.as_slice();
    let found = find_in_members(alloc, names, patterns, known, depth, beside, kind, members)?;
    match found {
        Some(fault) => Ok(Some(fault)),
        None => {
            let rest = at_place(alloc, whole_object(kind, members))?;
            Ok(rest)
        }
    }
}

/// The same of the items of a list, one behind the other.
#[cycle(find)]
pub fn find_in_items<P: Patterns>(
    alloc: Global,
    names: &Names,
    patterns: &mut P,
    known: &mut Known,
    depth: u32,
    kind: Kind,
    items: &[Tree],
) -> Result<Option<RouteFault>, NoMemory>
    requires { depth ≤ 16 }
    ensures { Walked (spec.items_sites names.now depth kind 0 (items_json items.now)) result
        (builder P.Patterns patterns.old) known.old
        (builder P.Patterns patterns.new) known.new }
{
    for (k, item) in items.iter().enumerate() {
        let found = find_fault(alloc, names, patterns, known, depth, &[], kind, item)?;
        if let Some(fault) = found {
            let placed = fault.under_index(alloc, k)?;
            return Ok(Some(placed));
        }
    }
    Ok(None)
}

#[cycle(find)]
fn find_in_members<P: Patterns>(
    alloc: Global,
    names: &Names,
    patterns: &mut P,
    known: &mut Known,
    depth: u32,
    parameters: &[(Text, Text)],
    kind: Kind,
    members: &[(Text, Tree)],
) -> Result<Option<RouteFault>, NoMemory>
    requires { depth ≤ 16 }
    ensures { Walked
        (spec.members_sites names.now depth parameters.now kind (members_json members.now)) result
        (builder P.Patterns patterns.old) known.old
        (builder P.Patterns patterns.new) known.new }
{
    for member in members {
        let inner = value_kind(kind, member.0.as_str());
        let found = find_fault(
            alloc, names, patterns, known, depth, parameters, inner, &member.1,
        )?;
        if let Some(fault) = found {
            let placed = fault.under_key(alloc, member.0.as_str())?;
            return Ok(Some(placed));
        }
    }
    Ok(None)
}
