ghost use Rattle.std.specs.Prelude.{◌≡◌, ◌++◌, ◌∷◌, [], None, IfOk, OnOk, codes};
ghost use Rattle.eip_keyed.specs.Keyed.{found};
ghost use Rattle.eip_samples.specs.Samples.{samples};

use crate::sample::{Sample, SampleProcessor};
use crate::test::SamplePredicate;
use eip_processor::{AddFault, Registry};
use eip_text::{NoMemory, Text};
use std::alloc::Global;

/// The registry of the shipped command (Camel manual, *Registry*): the processors `keep`, `field` and `refuse`, in this
/// order, and the predicate `empty`.
pub fn registry(alloc: Global) -> Result<Registry<SampleProcessor, SamplePredicate>, NoMemory>
    ensures processors { IfOk result (λ r. r.processors.items ≡ samples) }
    ensures predicates { IfOk result (λ r. r.predicates.items ≡ (codes "empty", SamplePredicate.Empty) ∷ []) }
{
    let mut registry = Registry::new(alloc);
    add(&mut registry, alloc, "keep", Sample::Keep)?;
    add(&mut registry, alloc, "field", Sample::Field)?;
    add(&mut registry, alloc, "refuse", Sample::Refuse)?;
    match registry.add_predicate(Text::of_str(alloc, "empty")?, SamplePredicate::Empty) {
        Ok(()) => Ok(registry),
        Err(AddFault::NameTaken) => unreachable!(),
        Err(AddFault::NoMemory) => Err(NoMemory),
    }
}

/// Adds a sample under a name that is free.
fn add(
    registry: &mut Registry<SampleProcessor, SamplePredicate>,
    alloc: Global,
    name: &str,
    sample: Sample,
) -> Result<(), NoMemory>
    requires { found name.now registry.old.processors.items ≡ None }
    ensures added { OnOk result (registry.new.processors.items ≡ registry.old.processors.items ++ (name.now, sample) ∷ []) }
    ensures predicates { registry.new.predicates ≡ registry.old.predicates }
{
    let object = SampleProcessor::new(alloc, sample);
    match registry.add_processor(Text::of_str(alloc, name)?, object) {
        Ok(()) => Ok(()),
        Err(AddFault::NameTaken) => unreachable!(),
        Err(AddFault::NoMemory) => Err(NoMemory),
    }
}
