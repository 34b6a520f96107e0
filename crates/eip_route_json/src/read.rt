ghost use Rattle.std.specs.Prelude.{◌≡◌, IfOk};
ghost use Rattle.eip_text.specs.Json.{json};
ghost use Rattle.eip_route.specs.Nest.{flat_set};
ghost use Rattle.eip_route_file.specs.Later.{file_sites};
ghost use Rattle.eip_route_values.specs.Sets.{nest};
ghost use Rattle.eip_route_values.specs.Taken.{Holds, in_file};
ghost use Rattle.eip_route_json.specs.Reading.{AsksFor, ReadsAt, Refuses, byte_sites, is_too_long, set_of};

use crate::sets::build_routes;
use eip_route::{Names, RouteSet};
use eip_route_file::find_fault;
use eip_route_grammar::known::Known;
use eip_route_grammar::{Cause, RouteFault};
use eip_simple_read::Patterns;
use eip_text::{JsonFault, NoMemory, Series, Text, Tree, read_json};
use std::alloc::Global;
use thiserror::Error;

/// The most bytes of a route file.
const FILE_LIMIT: usize = 1_048_576;

/// Why the bytes of a file are no routes.
#[derive(Debug, Drop, Error)]
pub enum RouteRefusal {
    /// Their first fault, or that of a refused pattern that comes before it.
    #[error("the route file is refused")]
    Refused(RouteFault),
    #[error("out of memory")]
    NoMemory,
}

impl From<NoMemory> for RouteRefusal {
    ghost use Rattle.std.specs.Prelude.{◌≡◌};
    ghost use Rattle.eip_route_json.specs.declared.read.RouteRefusal.TheVariants.{NoMemory};

    ghost from_gives = { λ _ e. e ≡ NoMemory };

    fn from(_refused: NoMemory) -> RouteRefusal {
        RouteRefusal::NoMemory
    }
}

/// The routes of a file, in a subset of what Camel's YAML DSL writes as JSON (RFC 8259), where these names are handed in.
/// `patterns` builds the pattern of each `regex` once.
///
/// Refused for the first fault: `TooLong` over 1,048,576 bytes, with the path `$`; `NotJson` where `serde_json` reads no
/// value; else the first fault of the tree. `BadPattern` and `PatternTooLarge` stand at a pattern that `patterns` refused
/// before any other fault, `PatternTooLarge` only where its count of faults rose.
#[tactic(auto, unfolding(crate::specs::Reading::byte_sites, crate::specs::Reading::set_of))]
pub fn read_routes<P: Patterns>(
    alloc: Global,
    bytes: &[u8],
    names: &Names,
    patterns: &mut P,
) -> Result<RouteSet, RouteRefusal>
    ensures reads { ReadsAt (byte_sites names.now bytes.now) (set_of names.now bytes.now) (P.pattern_faults patterns.old) (P.pattern_faults patterns.new) result }
    ensures asks { AsksFor (byte_sites names.now bytes.now) (P.pattern_builds patterns.old) (P.pattern_builds patterns.new) result }
{
    if is_too_long(bytes) {
        return Err(refused(alloc, Cause::TooLong));
    }
    match read_json(alloc, bytes) {
        Ok(tree) => read_tree(alloc, &tree, names, patterns),
        Err(JsonFault::NotJson) => Err(refused(alloc, Cause::NotJson)),
        Err(JsonFault::NoMemory) => Err(RouteRefusal::NoMemory),
    }
}

/// Whether there are more bytes than a route file may have.
fn is_too_long(bytes: &[u8]) -> bool
    ensures { result ≡ is_too_long bytes.now }
{
    bytes.len() > FILE_LIMIT
}

/// The routes of a file's tree.
fn read_tree<P: Patterns>(
    alloc: Global,
    tree: &Tree,
    names: &Names,
    patterns: &mut P,
) -> Result<RouteSet, RouteRefusal>
    ensures reads { ReadsAt (file_sites names.now (json tree.now)) (flat_set names.now (nest (json tree.now))) (P.pattern_faults patterns.old) (P.pattern_faults patterns.new) result }
    ensures asks { AsksFor (file_sites names.now (json tree.now)) (P.pattern_builds patterns.old) (P.pattern_builds patterns.new) result }
{
    let mut known = Known::new(alloc);
    let found = find_fault(alloc, names, patterns, &mut known, tree)?;
    match found {
        Some(fault) => Err(RouteRefusal::Refused(fault)),
        None => {
            let set = built(alloc, tree, names, &mut known)?;
            Ok(set)
        }
    }
}

/// The set of a tree that has no fault, and of which each predicate is known.
fn built(alloc: Global, tree: &Tree, names: &Names, known: &mut Known) -> Result<RouteSet, NoMemory>
    requires held { Holds (in_file (json tree.now)) known.old }
    ensures { IfOk result (λ s. s ≡ flat_set names.now (nest (json tree.now))) }
{
    let names = copied(alloc, names)?;
    build_routes(alloc, tree, names, known)
}

/// A copy of names.
fn copied(alloc: Global, names: &Names) -> Result<Names, NoMemory>
    ensures { IfOk result (λ n. n ≡ names.now) }
{
    Ok(Names {
        lanes: copied_texts(alloc, names.lanes.items())?,
        inlets: copied_texts(alloc, names.inlets.items())?,
        processors: copied_texts(alloc, names.processors.items())?,
        predicates: copied_texts(alloc, names.predicates.items())?,
    })
}

/// A copy of texts.
fn copied_texts(alloc: Global, texts: &[Text]) -> Result<Series<Text>, NoMemory>
    ensures { IfOk result (λ s. s ≡ texts.now) }
{
    let mut copies = Vec::with_capacity(alloc, texts.len())?;
    for text in texts {
        copies.push(text.copy()?)?;
    }
    Ok(Series::of(copies))
}

/// The refusal of the whole file for a cause.
fn refused(alloc: Global, cause: Cause) -> RouteRefusal
    ensures { Refuses cause result }
{
    match Text::of_str(alloc, "$") {
        Ok(path) => RouteRefusal::Refused(RouteFault { path, cause }),
        Err(NoMemory) => RouteRefusal::NoMemory,
    }
}
