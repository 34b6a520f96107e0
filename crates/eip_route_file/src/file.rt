#![tactic(auto, using(eip_text::proofs::Levels::json_levels))]

ghost use Rattle.std.specs.Prelude.{◌≡◌, IfOk, option_map};
ghost use Rattle.eip_text.specs.Causes.{Rises};
ghost use Rattle.eip_text.specs.Json.{json, items_json};
ghost use Rattle.eip_route_grammar.specs.Objects.{when};
ghost use Rattle.eip_route_faults.specs.Sites.{Walked, builder, found_failures};
ghost use Rattle.eip_route_file.specs.Later as spec;

use crate::later::{has_more_routes, later_fault};
use eip_route::Names;
use eip_route_faults::walk::find_in_items;
use eip_route_grammar::table::Kind;
use eip_route_grammar::{Cause, Known, RouteFault};
use eip_simple_read::Patterns;
use eip_text::{NoMemory, Tree};
use std::alloc::Global;

fn items_in(tree: &Tree) -> Option<&[Tree]>
    ensures { option_map (λ ts. items_json ts.now) result ≡ spec.items_in (json tree.now) }
{
    match tree {
        Tree::List(items) => Some(items.items()),
        Tree::Null => None,
        Tree::Flag(_) => None,
        Tree::Whole(_) => None,
        Tree::Float => None,
        Tree::Word(_) => None,
        Tree::Object(_) => None,
    }
}

fn many_routes(items: &[Tree]) -> Option<Cause>
    ensures { result ≡ when (spec.too_many 256 (items_json items.now)) Cause.TooManyRoutes }
{
    if has_more_routes(256, items) {
        Some(Cause::TooManyRoutes)
    } else {
        None
    }
}

fn find_in_list<P: Patterns>(
    alloc: Global,
    names: &Names,
    patterns: &mut P,
    known: &mut Known,
    items: &[Tree],
) -> Result<Option<RouteFault>, NoMemory>
    ensures { Walked (spec.list_file names.now (items_json items.now)) result
        (builder P.Patterns patterns.old) known.old
        (builder P.Patterns patterns.new) known.new }
{
    let found = find_in_items(alloc, names, patterns, known, 0, Kind::Item, items)?;
    match found {
        Some(fault) => Ok(Some(fault)),
        None => {
            let later = later_fault(alloc, items)?;
            Ok(later)
        }
    }
}

fn find_in_file<P: Patterns>(
    alloc: Global,
    names: &Names,
    patterns: &mut P,
    known: &mut Known,
    items: &[Tree],
) -> Result<Option<RouteFault>, NoMemory>
    ensures { Walked (spec.items_file names.now (items_json items.now)) result
        (builder P.Patterns patterns.old) known.old
        (builder P.Patterns patterns.new) known.new }
{
    let many = many_routes(items);
    match many {
        Some(cause) => {
            let fault = RouteFault::here(alloc, cause)?;
            Ok(Some(fault))
        }
        None => {
            let found = find_in_list(alloc, names, patterns, known, items)?;
            Ok(found)
        }
    }
}

fn find_whole<P: Patterns>(
    alloc: Global,
    names: &Names,
    patterns: &mut P,
    known: &mut Known,
    tree: &Tree,
) -> Result<Option<RouteFault>, NoMemory>
    ensures { Walked (spec.whole_sites names.now (json tree.now)) result
        (builder P.Patterns patterns.old) known.old
        (builder P.Patterns patterns.new) known.new }
{
    let list = items_in(tree);
    match list {
        None => {
            let fault = RouteFault::here(alloc, Cause::WrongKind)?;
            Ok(Some(fault))
        }
        Some(items) => {
            let found = find_in_file(alloc, names, patterns, known, items)?;
            Ok(found)
        }
    }
}

/// The first fault of a route file's tree, where these names are handed in, or `None` where it has
/// none: what the tables of `table` say of its items, one behind the other; then `DoubleErrorHandler`
/// at a second error handler; then by route `DoubleRouteId` and `SecondConsumer`.
///
/// `patterns` builds the pattern of each `regex` once. `BadPattern` and `PatternTooLarge` stand at a
/// pattern that it refused, before any other fault. Where there is no fault, the predicates of the
/// file are appended to `known`, in the order in which they stand there.
pub fn find_fault<P: Patterns>(
    alloc: Global,
    names: &Names,
    patterns: &mut P,
    known: &mut Known,
    tree: &Tree,
) -> Result<Option<RouteFault>, NoMemory>
    ensures finds { Walked (spec.file_sites names.now (json tree.now)) result
        (builder P.Patterns patterns.old) known.old
        (builder P.Patterns patterns.new) known.new }
    ensures cause { IfOk result (λ a. Rises (found_failures a)
        (P.pattern_faults patterns.old) (P.pattern_faults patterns.new)) }
{
    let found = find_whole(alloc, names, patterns, known, tree)?;
    match found {
        None => Ok(None),
        Some(fault) => {
            let placed = fault.behind(alloc, "$")?;
            Ok(Some(placed))
        }
    }
}
