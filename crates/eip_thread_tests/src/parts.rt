ghost use Rattle.std.specs.Prelude.{◌≡◌, IfOk};

use crate::given::{is_text, stream, told};
use crate::signals::Signal;
use eip_endpoint::{Inlet, Lane, MemoryLane, MemorySource};
use eip_exchange::Message;
use eip_processor::{ProcessFault, Processor, Registry};
use eip_samples::SamplePredicate;
use eip_test_support::item;
use eip_text::{NoMemory, Series, Text};
use std::alloc::Global;
use std::sync::Wait;
use std::test::Fail;
use std::thread::Threads;

/// The parts of a line are worked on at one time.
const PARTS: &str =
    r#"[{"from":{"uri":"stream:in","steps":[{"split":{"tokenize":",","parallelProcessing":true,"steps":[{"process":"hold"}]}}]}}]"#;

/// What a drain of the line `a,b` prints.
const TEXT: &str =
    "exchange 1 source route1 completed\nexchange 2 part 1.0 completed\nexchange 3 part 1.1 completed\naccepted 1 refused 0\ntotal 3 completed 3 handled 0 failed 0 waiting 0\ndrained\n";

/// Answers its message. The first call is held until the second one has begun.
#[derive(Drop)]
struct Holding<'a> {
    alloc: Global,
    begun: &'a Signal,
}

impl Processor for Holding<'_> {
    ghost relates = { λ _ m r. IfOk r (λ n. n ≡ m) };

    fn process(&self, message: &Message) -> Result<Message, ProcessFault> {
        if self.begun.give() == 0 {
            self.begun.await_more(1);
        }
        match message.copy(self.alloc) {
            Ok(copy) => Ok(copy),
            Err(NoMemory) => Err(ProcessFault::NoMemory),
        }
    }
}

/// The registry of that processor.
fn registry_of(
    alloc: Global,
    begun: &Signal,
) -> Result<Registry<Holding<'_>, SamplePredicate>, NoMemory> {
    let mut registry = Registry::new(alloc);
    let name = Text::of_str(alloc, "hold")?;
    match registry.add_processor(name, Holding { alloc, begun }) {
        Ok(()) => Ok(registry),
        Err(_) => Err(NoMemory),
    }
}

/// The inlet of the line `a,b`.
fn line_inlets(alloc: Global) -> Result<Vec<Inlet<MemorySource>>, NoMemory> {
    let line = Series::of(vec![in alloc; item(alloc, "1", "a,b")?]?);
    let items = vec![in alloc; (Text::of_str(alloc, "stream:in")?, line)]?;
    stream(alloc, items)
}

/// What a drain of that line by two workers prints.
fn drained<W: Threads + Wait + Sync>(
    rt: &W,
    alloc: Global,
    begun: &Signal,
) -> Result<Option<Text>, NoMemory> {
    let mut inlets = line_inlets(alloc)?;
    let mut lanes: Vec<Lane<MemoryLane>> = Vec::new(alloc);
    let registry = registry_of(alloc, begun)?;
    let words = ["drain", "r.json", "--workers", "2"];
    Ok(told(rt, alloc, &words, PARTS, &mut lanes, &mut inlets, &registry))
}

#[test]
fn a_processor_is_called_by_two_workers_at_one_time(rt: HostRuntime) -> Result<(), Fail> {
    let begun = Signal::new();
    let text = drained(&rt, rt.alloc(), &begun)?;
    assert!(rt; begun.came());
    assert!(rt; is_text(text, TEXT));
    Ok(())
}
