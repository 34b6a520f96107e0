ghost use Rattle.std.specs.Prelude.{◌≡◌, IfOk, length};
ghost use Rattle.eip_endpoint.specs.MemorySources.{AreNew};

use crate::file_calls::{Found, Row, Step, wrong_row};
use crate::given::files_of;
use eip_endpoint::{
    Call, CommitFault, Endpoint, Inlet, Inlets, Lane, Lanes, MemoryLane, MemorySink, MemorySource,
    Outcome, PullFault, Pulled, Refusal, SendFault, Sink, SinkFault, Source, find_inlet, find_lane,
};
use eip_exchange::{End, Message};
use eip_frames::Target;
use eip_test_support::{item, message_of, two_of_stream};
use eip_text::{NoMemory, Series, Text};
use eip_uri::Uri;
use std::alloc::Global;
use std::test::Fail;

fn is_call(call: &Call, lane: &str, body: &str, outcome: Outcome) -> bool {
    let same_lane = match &call.target {
        Target::Lane(name) => name.as_str() == lane,
        _ => false,
    };
    same_lane && call.message.body.as_str() == body && call.outcome == outcome
}

/// Whether the calls are of `one` and twice of `two`, of which the second one failed.
fn are_kept(calls: &[Call]) -> bool {
    match calls {
        [first, second, third] => {
            is_call(first, "x", "one", Outcome::Done)
                && is_call(second, "x", "two", Outcome::Failed)
                && is_call(third, "x", "two", Outcome::Done)
        }
        _ => false,
    }
}

/// The lane of this name as a target, and a message of this body.
fn call_of(alloc: Global, lane: &str, body: &str) -> Result<(Target, Message), NoMemory> {
    let target = Target::Lane(Text::of_str(alloc, lane)?);
    Ok((target, message_of(alloc, body)?))
}

/// What a lane answers to a body that is sent to the lane `x`.
fn sent(
    alloc: Global,
    lane: &mut MemoryLane,
    body: &str,
) -> Result<Result<(), SendFault>, NoMemory> {
    let (target, message) = call_of(alloc, "x", body)?;
    Ok(lane.send(&target, &message))
}

/// Bodies that are sent, and what a lane that fails its second call answers.
static SENT: [(&str, Result<(), SendFault>); 3] = [
    ("one", Ok(())),
    ("two", Err(SendFault::Failed)),
    ("two", Ok(())),
];

/// Whether a lane answers so.
fn are_answered(alloc: Global, lane: &mut MemoryLane) -> Result<bool, NoMemory> {
    for (body, answer) in &SENT {
        if sent(alloc, lane, body)? != *answer {
            return Ok(false);
        }
    }
    Ok(true)
}

/// Whether a lane that fails its second call answers so, and keeps these calls.
fn sent_thrice(alloc: Global) -> Result<[bool; 2], NoMemory> {
    let mut lane = MemoryLane::new(alloc, vec![in alloc; 2]?);
    Ok([are_answered(alloc, &mut lane)?, are_kept(lane.calls())])
}

#[test]
fn a_memory_lane_keeps_each_call_and_fails_at_its_numbers(rt: HostRuntime) -> Result<(), Fail> {
    let told = sent_thrice(rt.alloc())?;
    assert!(rt; told == [true; 2]);
    Ok(())
}

fn is_item(pulled: &Pulled, name: &str, body: &str) -> bool {
    match pulled {
        Pulled::Item { item, message } => item.as_str() == name && message.body.as_str() == body,
        _ => false,
    }
}

fn is_refused(pulled: &Pulled, name: &str) -> bool {
    match pulled {
        Pulled::Refused { item, cause } => item.as_str() == name && *cause == Refusal::NotText,
        _ => false,
    }
}

/// The item `1` with the body `a`, and the item `2`, which is no text.
fn two_items(alloc: Global) -> Result<Vec<(Text, Series<Pulled>)>, NoMemory>
    ensures { IfOk result (λ v. AreNew v.items) }
{
    let second = Pulled::Refused {
        item: Text::of_str(alloc, "2")?,
        cause: Refusal::NotText,
    };
    two_of_stream(alloc, item(alloc, "1", "a")?, second)
}

/// Whether three pulls give the first item, a failure and the end.
fn are_first(source: &mut MemorySource) -> bool {
    let pulls = [
        source.pull(&Uri::StreamIn),
        source.pull(&Uri::StreamIn),
        source.pull(&Uri::Load(7)),
    ];
    match &pulls {
        [Ok(first), Err(PullFault::Failed), Ok(Pulled::End)] => is_item(first, "1", "a"),
        _ => false,
    }
}

/// Whether of two commits of an item the second one fails.
fn are_committed(source: &mut MemorySource, item: &Text) -> bool {
    let commits = [
        source.commit(&Uri::StreamIn, item, &End::Completed),
        source.commit(&Uri::StreamIn, item, &End::Completed),
    ];
    commits == [Ok(()), Err(CommitFault::Failed)]
}

/// Whether three pulls give the second item and twice the end.
fn are_last(source: &mut MemorySource) -> bool {
    let pulls = [
        source.pull(&Uri::StreamIn),
        source.pull(&Uri::StreamIn),
        source.pull(&Uri::StreamIn),
    ];
    match &pulls {
        [Ok(second), Ok(Pulled::End), Ok(Pulled::End)] => is_refused(second, "2"),
        _ => false,
    }
}

/// A source of the two items, whose calls of these numbers fail.
fn source_of(alloc: Global, failing: Vec<u64>) -> Result<MemorySource, NoMemory> {
    Ok(MemorySource::new(alloc, two_items(alloc)?, failing))
}

/// Whether a source of two items that fails its calls 2 and 5 answers so to three pulls, two commits and three pulls.
fn pulled_and_told(alloc: Global) -> Result<[bool; 3], NoMemory> {
    let item = Text::of_str(alloc, "1")?;
    let mut source = source_of(alloc, vec![in alloc; 2, 5]?)?;
    Ok([
        are_first(&mut source),
        are_committed(&mut source, &item),
        are_last(&mut source),
    ])
}

#[test]
fn a_memory_source_gives_its_items_and_then_the_end(rt: HostRuntime) -> Result<(), Fail> {
    let told = pulled_and_told(rt.alloc())?;
    assert!(rt; told == [true; 3]);
    Ok(())
}

/// Whether a sink that fails its second write answers so to three writes, and has the bytes of the other two.
fn written_thrice(alloc: Global) -> Result<[bool; 2], NoMemory> {
    let mut sink = MemorySink::new(alloc, vec![in alloc; 2]?);
    let answers = [sink.write(b"ab"), sink.write(b"cd"), sink.write(b"ef")];
    Ok([
        answers == [Ok(()), Err(SinkFault::Failed), Ok(())],
        sink.bytes() == b"abef".as_slice(),
    ])
}

#[test]
fn a_memory_sink_writes_nothing_at_its_failing_numbers(rt: HostRuntime) -> Result<(), Fail> {
    let told = written_thrice(rt.alloc())?;
    assert!(rt; told == [true; 2]);
    Ok(())
}

/// Readings of one file, of which the fourth fails; it stays the only one.
static READINGS: [Row; 4] = [
    ("in", "a.txt", Step::Read(2, Found::Bytes(b"hi"))),
    ("in", "a.txt", Step::Read(1, Found::TooLong)),
    ("a.txt", "in", Step::Read(2, Found::Missing)),
    ("in", "a.txt", Step::Read(2, Found::Failed)),
];

/// The number of the first of these readings, from 0, that is answered otherwise, and how many files there are behind it or the last.
fn wrong_reading(alloc: Global) -> Result<(Option<usize>, usize), NoMemory> {
    let mut files = files_of(alloc, &[("in", "a.txt", b"hi")], &[4])?;
    let wrong = wrong_row(alloc, &mut files, &READINGS)?;
    Ok((wrong, files.content().len()))
}

#[test]
fn memory_files_are_read_up_to_the_limit(rt: HostRuntime) -> Result<(), Fail> {
    let wrong = wrong_reading(rt.alloc())?;
    assert!(rt; wrong == (None, 1), "row {wrong:?}");
    Ok(())
}

/// A lane of this name, which fails the call of this number, from 1.
fn lane(alloc: Global, name: &str, failing: u64) -> Result<Lane<Box<dyn Endpoint>>, NoMemory> {
    let name = Text::of_str(alloc, name)?;
    let object = MemoryLane::new(alloc, vec![in alloc; failing]?);
    let object: Box<dyn Endpoint> = Box::new(alloc, object)?;
    Ok(Lane { name, object })
}

/// The lane `a`, and the lane `b`, which fails its first call, both boxed.
fn two_lanes(alloc: Global) -> Result<Vec<Lane<Box<dyn Endpoint>>>, NoMemory>
    ensures { IfOk result (λ v. length v.items ≡ 2) }
{
    let sound = lane(alloc, "lane:a", 0)?;
    let broken = lane(alloc, "lane:b", 1)?;
    Ok(vec![in alloc; sound, broken]?)
}

/// The source of two items, as the inlet of standard input.
fn one_inlet(alloc: Global) -> Result<Vec<Inlet<MemorySource>>, NoMemory>
    ensures { IfOk result (λ v. length v.items ≡ 1) }
{
    let name = Text::of_str(alloc, "stream")?;
    let object = source_of(alloc, Vec::new(alloc))?;
    Ok(vec![in alloc; Inlet { name, object }]?)
}

/// Whether of two lanes the second one and no other is found by its name.
fn is_found(alloc: Global) -> Result<bool, NoMemory> {
    let lanes = two_lanes(alloc)?;
    Ok(find_lane(&lanes, b"lane:b") == Some(1) && find_lane(&lanes, b"lane:c") == None)
}

/// What the second of two lanes answers when it is called by its index.
fn sent_second(alloc: Global) -> Result<Result<(), SendFault>, NoMemory> {
    let (target, message) = call_of(alloc, "b", "one")?;
    let mut lanes = two_lanes(alloc)?;
    Ok(lanes.send_at(1, &target, &message))
}

/// Whether the item `1` with the body `a` was pulled.
fn is_first(pulled: &Result<Pulled, PullFault>) -> bool {
    match pulled {
        Ok(pulled) => is_item(pulled, "1", "a"),
        Err(_) => false,
    }
}

/// Whether one inlet is found by its name, and gives its item when it is called by its index.
fn found_and_pulled(alloc: Global) -> Result<[bool; 2], NoMemory> {
    let mut inlets = one_inlet(alloc)?;
    Ok([
        find_inlet(&inlets, b"stream") == Some(0),
        is_first(&inlets.pull_at(0, &Uri::StreamIn)),
    ])
}

/// What an inlet that is called by its index answers to the end of an item.
fn told_an_end(alloc: Global) -> Result<Result<(), CommitFault>, NoMemory> {
    let item = Text::of_str(alloc, "1")?;
    let mut inlets = one_inlet(alloc)?;
    Ok(inlets.commit_at(0, &Uri::StreamIn, &item, &End::Handled))
}

/// Whether two lanes and an inlet are found by their names and answer by their index.
fn are_called(alloc: Global) -> Result<[bool; 4], NoMemory> {
    Ok([
        is_found(alloc)?,
        sent_second(alloc)? == Err(SendFault::Failed),
        found_and_pulled(alloc)? == [true; 2],
        told_an_end(alloc)? == Ok(()),
    ])
}

#[test]
fn lanes_and_inlets_are_called_by_their_index(rt: HostRuntime) -> Result<(), Fail> {
    let told = are_called(rt.alloc())?;
    assert!(rt; told == [true; 4]);
    Ok(())
}
