ghost use Rattle.std.specs.Prelude.{◌≡◌, codes, IfOk};

use eip_exchange::{Fault, Message};
use eip_processor::{AddFault, ProcessFault, Processor, Registry, StoredPredicate};
use eip_text::{NoMemory, Text};
use std::alloc::Global;
use std::test::Fail;

/// Answers its message, or faults `Refused` with the text `no` where it is to.
#[derive(Drop)]
struct Keep {
    alloc: Global,
    refuses: bool,
}

/// The fault `Refused` with the text `no`.
fn refused(alloc: Global) -> Result<Fault, NoMemory>
    ensures { IfOk result (λ f. f ≡ record { kind = codes "Refused"; text = codes "no" }) }
{
    Ok(Fault {
        kind: Text::of_str(alloc, "Refused")?,
        text: Text::of_str(alloc, "no")?,
    })
}

impl Processor for Keep {
    ghost use Rattle.std.specs.Prelude.{◌≡◌, IfOk};

    ghost relates = { λ _ m r. IfOk r (λ n. n ≡ m) };

    fn process(&self, message: &Message) -> Result<Message, ProcessFault> {
        if self.refuses {
            return match refused(self.alloc) {
                Ok(fault) => Err(ProcessFault::Raised(fault)),
                Err(NoMemory) => Err(ProcessFault::NoMemory),
            };
        }
        match message.copy(self.alloc) {
            Ok(copy) => Ok(copy),
            Err(NoMemory) => Err(ProcessFault::NoMemory),
        }
    }
}

/// The registry that is tested.
type Tested = Registry<Box<dyn Processor>, StoredPredicate>;

/// A name, and a processor that answers its message or refuses it.
fn named_keep(
    alloc: Global,
    name: &str,
    refuses: bool,
) -> Result<(Text, Box<dyn Processor>), NoMemory> {
    let keep = Box::new(alloc, Keep { alloc, refuses })?;
    Ok((Text::of_str(alloc, name)?, keep))
}

/// Adds such a processor: what the registry answers.
fn add_keep(
    alloc: Global,
    registry: &mut Tested,
    name: &str,
    refuses: bool,
) -> Result<(), AddFault> {
    match named_keep(alloc, name, refuses) {
        Ok((name, keep)) => registry.add_processor(name, keep),
        Err(NoMemory) => Err(AddFault::NoMemory),
    }
}

/// Adds a predicate under the name `empty`: what the registry answers.
fn add_empty(alloc: Global, registry: &mut Tested, test: StoredPredicate) -> Result<(), AddFault> {
    match Text::of_str(alloc, "empty") {
        Ok(name) => registry.add_predicate(name, test),
        Err(NoMemory) => Err(AddFault::NoMemory),
    }
}

/// The predicate that an empty body passes.
fn empty(alloc: Global) -> Result<StoredPredicate, NoMemory> {
    let test = Box::new(alloc, |m: &Message| m.body.bytes().is_empty())?;
    Ok(StoredPredicate::new(test))
}

/// The predicate that each message passes.
fn always(alloc: Global) -> Result<StoredPredicate, NoMemory> {
    let test = Box::new(alloc, |_: &Message| true)?;
    Ok(StoredPredicate::new(test))
}

/// Adds the processors `keep` and `refuse` and the predicate `empty`.
fn fill(alloc: Global, registry: &mut Tested) -> Result<(), Fail> {
    add_keep(alloc, registry, "keep", false)?;
    add_keep(alloc, registry, "refuse", true)?;
    let test = empty(alloc)?;
    Ok(add_empty(alloc, registry, test)?)
}

/// A registry with these.
fn registry_of(alloc: Global) -> Result<Tested, Fail> {
    let mut registry = Registry::new(alloc);
    fill(alloc, &mut registry)?;
    Ok(registry)
}

/// What comes of a call by a name.
enum Called {
    /// An answer with this body.
    Answered(&'static str),
    /// A fault of this kind.
    Raised(&'static str),
    /// There is no processor of the name.
    Missing,
}

/// Whether this is such an answer.
fn is_answer(answer: &Result<Message, ProcessFault>, wanted: &Called) -> bool {
    match wanted {
        Called::Answered(body) => matches!(answer, Ok(answer) if answer.body.as_str() == *body),
        Called::Raised(kind) => {
            matches!(answer, Err(ProcessFault::Raised(fault)) if fault.kind.as_str() == *kind)
        }
        Called::Missing => false,
    }
}

/// A message of this body.
fn message_of(alloc: Global, body: &str) -> Result<Message, NoMemory> {
    Ok(Message::of_body(alloc, Text::of_str(alloc, body)?))
}

/// Whether this is what comes of a call by this name on `hi`.
fn is_called(alloc: Global, name: &str, wanted: &Called) -> Result<bool, Fail> {
    let message = message_of(alloc, "hi")?;
    let registry = registry_of(alloc)?;
    match registry.find(name.as_bytes()) {
        Some(processor) => Ok(is_answer(&processor.process(&message), wanted)),
        None => Ok(matches!(wanted, Called::Missing)),
    }
}

/// Names, and what comes of a call on `hi`.
const CALLED: [(&str, Called); 4] = [
    ("keep", Called::Answered("hi")),
    ("refuse", Called::Raised("Refused")),
    ("Keep", Called::Missing),
    ("empty", Called::Missing),
];

#[test]
fn a_processor_is_called_by_its_name(rt: HostRuntime) -> Result<(), Fail> {
    for (name, wanted) in &CALLED {
        assert!(rt; is_called(rt.alloc(), name, wanted)?, "of {name}");
    }
    Ok(())
}

/// What the predicate of this name tells of a message of this body, or `None` where there is none.
fn told(alloc: Global, name: &str, body: &str) -> Result<Option<bool>, Fail> {
    let message = message_of(alloc, body)?;
    let registry = registry_of(alloc)?;
    match registry.find_predicate(name.as_bytes()) {
        Some(predicate) => Ok(Some(predicate.test(&message))),
        None => Ok(None),
    }
}

/// Names, bodies, and what the predicate of the name tells, or `None` where there is none.
const TOLD: [(&str, &str, Option<bool>); 3] = [
    ("empty", "", Some(true)),
    ("empty", "x", Some(false)),
    ("keep", "", None),
];

#[test]
fn a_predicate_is_asked_by_its_name(rt: HostRuntime) -> Result<(), Fail> {
    for (name, body, wanted) in &TOLD {
        assert!(rt;
            told(rt.alloc(), name, body)? == *wanted,
            "of {name} and {body}"
        );
    }
    Ok(())
}

/// What is answered where the processor `keep` is added again, a processor as `empty`, and the predicate `empty` again.
fn added_again(alloc: Global) -> Result<[Result<(), AddFault>; 3], Fail> {
    let test = always(alloc)?;
    let mut registry = registry_of(alloc)?;
    Ok([
        add_keep(alloc, &mut registry, "keep", true),
        add_keep(alloc, &mut registry, "empty", true),
        add_empty(alloc, &mut registry, test),
    ])
}

#[test]
fn a_name_is_taken_once_among_its_own_kind(rt: HostRuntime) -> Result<(), Fail> {
    let taken = Err(AddFault::NameTaken);
    assert!(rt; added_again(rt.alloc())? == [taken, Ok(()), taken]);
    Ok(())
}

/// Whether the name at a place is this one, or there is none.
fn is_at(name: Option<&Text>, wanted: Option<&str>) -> bool {
    name.map(Text::as_str) == wanted
}

/// Whether the processors are told in the order of adding.
fn are_processors_told(registry: &Tested) -> bool {
    is_at(registry.processor_at(0), Some("keep"))
        && is_at(registry.processor_at(1), Some("refuse"))
        && is_at(registry.processor_at(2), None)
}

/// Whether the predicate is told, and no other.
fn are_predicates_told(registry: &Tested) -> bool {
    is_at(registry.predicate_at(0), Some("empty")) && is_at(registry.predicate_at(1), None)
}

#[test]
fn names_are_told_in_order_of_adding(rt: HostRuntime) -> Result<(), Fail> {
    let registry = registry_of(rt.alloc())?;
    assert!(rt; are_processors_told(&registry));
    assert!(rt; are_predicates_told(&registry));
    Ok(())
}
