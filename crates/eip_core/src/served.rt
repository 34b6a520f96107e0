ghost use Rattle.std.specs.Prelude.{◌≡◌, IfOk};
ghost use Rattle.eip_endpoint.specs.Lanes.{lane_names};
ghost use Rattle.eip_endpoint.specs.Inlets.{inlet_names};
ghost use Rattle.eip_core.specs.Served as spec;

use eip_endpoint::{Inlets, Lanes};
use eip_processor::Registered;
use eip_route::Names;
use eip_text::{NoMemory, Series, Text};
use std::alloc::Global;

/// The names of what is handed in: of the lanes, the inlets, and what the registry has.
pub fn names_of<L: Lanes, I: Inlets, R: Registered>(
    alloc: Global,
    registry: &R,
    lanes: &L,
    inlets: &I,
) -> Result<Names, NoMemory>
    ensures { IfOk result (λ n. n ≡ spec.names_of (L.views lanes.now) (I.views inlets.now) (R.view registry.now)) }
{
    Ok(Names {
        lanes: Series::of(names_of_lanes(alloc, lanes)?),
        inlets: Series::of(names_of_inlets(alloc, inlets)?),
        processors: Series::of(names_of_processors(alloc, registry)?),
        predicates: Series::of(names_of_predicates(alloc, registry)?),
    })
}

/// The names of lanes.
fn names_of_lanes<L: Lanes>(alloc: Global, lanes: &L) -> Result<Vec<Text>, NoMemory>
    ensures { IfOk result (λ v. v.items ≡ lane_names (L.views lanes.now)) }
{
    let mut names = Vec::with_capacity(alloc, lanes.count())?;
    for index in 0..lanes.count() {
        names.push(lanes.name_at(index).copy()?)?;
    }
    Ok(names)
}

/// The names of inlets.
fn names_of_inlets<I: Inlets>(alloc: Global, inlets: &I) -> Result<Vec<Text>, NoMemory>
    ensures { IfOk result (λ v. v.items ≡ inlet_names (I.views inlets.now)) }
{
    let mut names = Vec::with_capacity(alloc, inlets.count())?;
    for index in 0..inlets.count() {
        names.push(inlets.name_at(index).copy()?)?;
    }
    Ok(names)
}

/// The names of a registry's processors.
fn names_of_processors<R: Registered>(alloc: Global, registry: &R) -> Result<Vec<Text>, NoMemory>
    ensures { IfOk result (λ v. v.items ≡ (R.view registry.now).processors) }
{
    let mut names: Vec<Text> = Vec::new(alloc);
    while let Some(name) = registry.processor_name(names.len()) {
        names.push(name.copy()?)?;
    }
    Ok(names)
}

/// The names of a registry's predicates.
fn names_of_predicates<R: Registered>(alloc: Global, registry: &R) -> Result<Vec<Text>, NoMemory>
    ensures { IfOk result (λ v. v.items ≡ (R.view registry.now).predicates) }
{
    let mut names: Vec<Text> = Vec::new(alloc);
    while let Some(name) = registry.predicate_name(names.len()) {
        names.push(name.copy()?)?;
    }
    Ok(names)
}
