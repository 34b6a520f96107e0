ghost use Rattle.std.specs.Prelude.{◌≡◌, ◌++◌, ◌∷◌, ◌↔◌, [], Some, IsTrue, OnOk, OnErr, IsErrOf, is_some, slice_get};
ghost use Rattle.std.specs.Option.{option_map};
ghost use Rattle.eip_keyed.specs.Keyed.{found, keys_of};

use crate::predicate::Predicate;
use crate::processor::Processor;
use eip_keyed::{key_at, value_of};
use eip_text::Text;
use std::alloc::Global;
use thiserror::Error;

/// Why something was not added to a registry.
#[derive(Clone, Copy, Debug, PartialEq, Eq, Error)]
pub enum AddFault {
    /// The name is there already.
    #[error("the name is taken")]
    NameTaken,
    #[error("out of memory")]
    NoMemory,
}

/// Processors and predicates under names (Camel manual, *Registry*): what is added is called by its name from then on.
#[derive(Drop)]
pub struct Registry<P, Q> {
    /// The processors in the order in which they were added.
    pub processors: Vec<(Text, P)>,
    /// The predicates in the order in which they were added.
    pub predicates: Vec<(Text, Q)>,
}

/// Whether an entry has this name.
fn has<V>(entries: &[(Text, V)], name: &Text) -> bool
    ensures { result ≡ is_some (found name.now entries.now) }
{
    value_of(entries, name.bytes()).is_some()
}

impl<P: Processor, Q: Predicate> Registry<P, Q> {
    /// An empty registry. It takes no memory.
    pub fn new(alloc: Global) -> Registry<P, Q>
        ensures processors { result.processors.items ≡ [] }
        ensures predicates { result.predicates.items ≡ [] }
    {
        Registry {
            processors: Vec::new(alloc),
            predicates: Vec::new(alloc),
        }
    }

    /// Adds a processor under a name. `NameTaken` exactly where a processor has it; on any `Err` the registry stays.
    pub fn add_processor(&mut self, name: Text, object: P) -> Result<(), AddFault>
        ensures added { OnOk result (self.new.processors.items ≡ self.old.processors.items ++ (name, object) ∷ []) }
        ensures found { OnOk result (found name self.new.processors.items ≡ Some object) }
        ensures err { OnErr result (self.new.processors.items ≡ self.old.processors.items) }
        ensures taken { IsErrOf result AddFault.NameTaken ↔ IsTrue (is_some (found name self.old.processors.items)) }
        ensures predicates { self.new.predicates ≡ self.old.predicates }
    {
        if has(self.processors.as_slice(), &name) {
            return Err(AddFault::NameTaken);
        }
        match self.processors.push((name, object)) {
            Ok(()) => Ok(()),
            Err(_) => Err(AddFault::NoMemory),
        }
    }

    /// Adds a predicate under a name. `NameTaken` exactly where a predicate has it; on any `Err` the registry stays.
    pub fn add_predicate(&mut self, name: Text, object: Q) -> Result<(), AddFault>
        ensures added { OnOk result (self.new.predicates.items ≡ self.old.predicates.items ++ (name, object) ∷ []) }
        ensures found { OnOk result (found name self.new.predicates.items ≡ Some object) }
        ensures err { OnErr result (self.new.predicates.items ≡ self.old.predicates.items) }
        ensures taken { IsErrOf result AddFault.NameTaken ↔ IsTrue (is_some (found name self.old.predicates.items)) }
        ensures processors { self.new.processors ≡ self.old.processors }
    {
        if has(self.predicates.as_slice(), &name) {
            return Err(AddFault::NameTaken);
        }
        match self.predicates.push((name, object)) {
            Ok(()) => Ok(()),
            Err(_) => Err(AddFault::NoMemory),
        }
    }

    /// The processor of this name; `None` exactly where none has it. It takes no memory.
    pub fn find(&self, name: &[u8]) -> Option<&P>
        ensures { option_map (λ p. p.now) result ≡ found name.now self.now.processors.items }
    {
        value_of(self.processors.as_slice(), name)
    }

    /// The predicate of this name; `None` exactly where none has it. It takes no memory.
    pub fn find_predicate(&self, name: &[u8]) -> Option<&Q>
        ensures { option_map (λ p. p.now) result ≡ found name.now self.now.predicates.items }
    {
        value_of(self.predicates.as_slice(), name)
    }

    /// The name of the processor that was added behind `k` others; `None` exactly where there are not so many.
    pub fn processor_at(&self, k: usize) -> Option<&Text>
        ensures { option_map (λ name. name.now) result ≡ slice_get (keys_of self.now.processors.items) k }
    {
        key_at(self.processors.as_slice(), k)
    }

    /// The name of the predicate that was added behind `k` others; `None` exactly where there are not so many.
    pub fn predicate_at(&self, k: usize) -> Option<&Text>
        ensures { option_map (λ name. name.now) result ≡ slice_get (keys_of self.now.predicates.items) k }
    {
        key_at(self.predicates.as_slice(), k)
    }
}
