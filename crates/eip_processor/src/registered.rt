ghost use Rattle.std.specs.Prelude.{◌≡◌, IsTrue, bytes_eq, slice_get};
ghost use Rattle.std.specs.List.{list_any};
ghost use Rattle.std.specs.Option.{option_map};
ghost use Rattle.eip_exchange.specs.Limits.{IsWithinLimits};
ghost use Rattle.eip_processor.specs.Processed.{KeepsLimits, IsNamed};
ghost use Rattle.eip_processor.specs.Registered.{RegistryView, registry_view};

use crate::predicate::Predicate;
use crate::processor::{ProcessFault, Processor};
use crate::registry::Registry;
use eip_exchange::Message;
use eip_keyed::{key_at, value_of};
use eip_text::Text;

/// Processors and predicates as a run calls them, by their names (Camel manual, *Registry*).
pub trait Registered {
    /// The names, and what may be answered under each.
    ghost view: { Self → RegistryView };

    /// The name of the processor that was added behind `k` others; `None` exactly where there are not so many.
    fn processor_name(&self, k: usize) -> Option<&Text>
        ensures { option_map (λ name. name.now) result ≡ slice_get (view self.now).processors k };

    /// The name of the predicate that was added behind `k` others; `None` exactly where there are not so many.
    fn predicate_name(&self, k: usize) -> Option<&Text>
        ensures { option_map (λ name. name.now) result ≡ slice_get (view self.now).predicates k };

    /// What the first processor of a name answers to a message.
    fn process(&self, name: &[u8], message: &Message) -> Result<Message, ProcessFault>
        requires there { IsTrue (list_any (λ n. bytes_eq n name.now) (view self.now).processors) }
        ensures related { (view self.now).processes name.now message.now result }
        ensures limits { IsWithinLimits message.now → KeepsLimits result }
        ensures named { IsNamed result };

    /// Whether a message passes the first predicate of a name.
    fn test(&self, name: &[u8], message: &Message) -> bool
        requires there { IsTrue (list_any (λ n. bytes_eq n name.now) (view self.now).predicates) }
        ensures related { (view self.now).tests name.now message.now result };
}

impl<P: Processor, Q: Predicate> Registered for Registry<P, Q> {
    ghost view = { λ r. registry_view P.relates Q.tells r.processors.items r.predicates.items };

    fn processor_name(&self, k: usize) -> Option<&Text> {
        key_at(self.processors.as_slice(), k)
    }

    fn predicate_name(&self, k: usize) -> Option<&Text> {
        key_at(self.predicates.as_slice(), k)
    }

    fn process(&self, name: &[u8], message: &Message) -> Result<Message, ProcessFault> {
        let Some(processor) = value_of(self.processors.as_slice(), name) else {
            unreachable!()
        };
        processor.process(message)
    }

    fn test(&self, name: &[u8], message: &Message) -> bool {
        let Some(predicate) = value_of(self.predicates.as_slice(), name) else {
            unreachable!()
        };
        predicate.passes(message)
    }
}
