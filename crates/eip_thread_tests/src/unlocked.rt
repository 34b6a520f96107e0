ghost use Rattle.std.specs.Prelude.{◌≡◌, IfOk, None};
ghost use Rattle.eip_endpoint.specs.Pulls.{IsFair};

use crate::given::{is_text, told};
use crate::signals::Signal;
use eip_endpoint::{CommitFault, Endpoint, Inlet, Lane, PullFault, Pulled, SendFault, Source};
use eip_exchange::{End, Message};
use eip_frames::Target;
use eip_processor::{ProcessFault, Processor, Registry};
use eip_samples::SamplePredicate;
use eip_test_support::item;
use eip_text::{NoMemory, Text};
use eip_uri::Uri;
use std::alloc::Global;
use std::sync::Wait;
use std::test::Fail;
use std::thread::Threads;

/// The line `a` is sent on a lane, and others are given to a processor.
const CHOSEN: &str =
    r#"[{"from":{"uri":"stream:in","steps":[{"choice":{"when":[{"simple":"${body} == 'a'","steps":[{"to":"lane:x"}]}],"otherwise":{"steps":[{"process":"count"}]}}}]}}]"#;

/// What a drain of the lines `a`, `b` and `c` prints.
const TEXT: &str =
    "exchange 1 source route1 completed\nexchange 2 source route1 completed\nexchange 3 source route1 completed\naccepted 3 refused 0\ntotal 3 completed 3 handled 0 failed 0 waiting 0\ndrained\n";

/// How many sends have begun, and how many calls of the processor have ended.
#[derive(Drop)]
struct Signals {
    sends: Signal,
    processed: Signal,
}

/// Gives the lines `a`, `b` and `c`. The second pull waits until a send has begun.
#[derive(Drop)]
struct WaitingSource<'a> {
    alloc: Global,
    signals: &'a Signals,
    pulls: u32,
}

/// What the pull with this number, from 1, gives.
fn line_of(alloc: Global, pull: u32) -> Result<Pulled, NoMemory>
    ensures { IfOk result IsFair }
{
    match pull {
        1 => item(alloc, "1", "a"),
        2 => item(alloc, "2", "b"),
        3 => item(alloc, "3", "c"),
        _ => Ok(Pulled::End),
    }
}

impl Source for WaitingSource<'_> {
    ghost given = { λ _ _. None };

    ghost left = { λ _ _. None };

    ghost commits = { λ _ _. None };

    ghost inlet_faults = { λ _. 0 };

    fn pull(&mut self, _from: &Uri) -> Result<Pulled, PullFault> {
        self.pulls = self.pulls.saturating_add(1);
        if self.pulls == 2 {
            self.signals.sends.await_more(0);
        }
        match line_of(self.alloc, self.pulls) {
            Ok(pulled) => Ok(pulled),
            Err(NoMemory) => Err(PullFault::NoMemory),
        }
    }

    fn commit(&mut self, _from: &Uri, _item: &Text, _end: &End) -> Result<(), CommitFault> {
        Ok(())
    }
}

/// Takes every message. Each send waits until two more calls of the processor have ended.
#[derive(Drop)]
struct WaitingLane<'a> {
    signals: &'a Signals,
}

impl Endpoint for WaitingLane<'_> {
    ghost calls = { λ _. None };

    ghost lane_faults = { λ _. 0 };

    fn send(&mut self, _target: &Target, _message: &Message) -> Result<(), SendFault> {
        let before = self.signals.processed.given();
        self.signals.sends.give();
        self.signals.processed.await_more(before.saturating_add(1));
        Ok(())
    }
}

/// Answers its message, and counts the calls that have ended.
#[derive(Drop)]
struct Counting<'a> {
    alloc: Global,
    signals: &'a Signals,
}

impl Processor for Counting<'_> {
    ghost relates = { λ _ m r. IfOk r (λ n. n ≡ m) };

    fn process(&self, message: &Message) -> Result<Message, ProcessFault> {
        let copy = message.copy(self.alloc);
        self.signals.processed.give();
        match copy {
            Ok(copy) => Ok(copy),
            Err(NoMemory) => Err(ProcessFault::NoMemory),
        }
    }
}

/// The lanes `y` and `x`, of which the second worker of two owns `x`.
fn lanes_of<'a>(
    alloc: Global,
    signals: &'a Signals,
) -> Result<Vec<Lane<WaitingLane<'a>>>, NoMemory> {
    let y = Lane {
        name: Text::of_str(alloc, "lane:y")?,
        object: WaitingLane { signals },
    };
    let x = Lane {
        name: Text::of_str(alloc, "lane:x")?,
        object: WaitingLane { signals },
    };
    Ok(vec![in alloc; y, x]?)
}

/// The inlet of standard input, which the first worker owns.
fn inlets_of<'a>(
    alloc: Global,
    signals: &'a Signals,
) -> Result<Vec<Inlet<WaitingSource<'a>>>, NoMemory> {
    let name = Text::of_str(alloc, "stream")?;
    let object = WaitingSource {
        alloc,
        signals,
        pulls: 0,
    };
    Ok(vec![in alloc; Inlet { name, object }]?)
}

/// The registry of the processor that counts.
fn registry_of<'a>(
    alloc: Global,
    signals: &'a Signals,
) -> Result<Registry<Counting<'a>, SamplePredicate>, NoMemory> {
    let mut registry = Registry::new(alloc);
    let name = Text::of_str(alloc, "count")?;
    match registry.add_processor(name, Counting { alloc, signals }) {
        Ok(()) => Ok(registry),
        Err(_) => Err(NoMemory),
    }
}

/// What a drain of the three lines by two workers prints.
fn drained<W: Threads + Wait + Sync>(
    rt: &W,
    alloc: Global,
    signals: &Signals,
) -> Result<Option<Text>, NoMemory> {
    let mut lanes = lanes_of(alloc, signals)?;
    let mut inlets = inlets_of(alloc, signals)?;
    let registry = registry_of(alloc, signals)?;
    let words = ["drain", "r.json", "--workers", "2"];
    Ok(told(
        rt,
        alloc,
        &words,
        CHOSEN,
        &mut lanes,
        &mut inlets,
        &registry,
    ))
}

#[test]
fn others_work_while_a_source_is_pulled_and_while_a_message_is_sent(
    rt: HostRuntime,
) -> Result<(), Fail> {
    let signals = Signals {
        sends: Signal::new(),
        processed: Signal::new(),
    };
    let text = drained(&rt, rt.alloc(), &signals)?;
    assert!(rt; signals.sends.came() && signals.processed.came());
    assert!(rt; is_text(text, TEXT));
    Ok(())
}
